// The knapsacks of all sets of items, branch by branch.
ghost use Rattle.std.specs.Prelude.{◌≡◌, ◌≤◌, ◌<◌};
ghost use Rattle.knapsack_tables.specs.Branches.{BranchFilled, BranchFits, NextFits, next_item, without_next, with_next};
ghost use Rattle.knapsack_tables.specs.TabledKnapsacks.{KnapsacksFilled, KnapsacksFit};

use crate::front::store_listed;
use choice_lists::{NOTHING, STARTS, list_front};
use knapsack::{Choice, Core, Front};
use values::{ENTRIES, KEY_BASE, NO_COST};

// Room for the lists of the first items' choices: of two items, which have at most 81 choices, of ten, and of more. Making
// room takes time, and pays the more the more often a list is read, 2^(n - 6) times for n items. With the most room the lists of
// six items fit even where most loads have a choice that none beats, as they do where idle power is above the power of every level.
const FEW_CHOICES: usize = 81;

const SOME_CHOICES: usize = 12288;

const MANY_CHOICES: usize = 18432;

// What all branches read: the loads and costs of all items at every level, and the lists of the first items' choices, with
// where the list of each set of these starts.
#[derive(Clone, Copy)]
pub(crate) struct Offers<'a> {
    pub(crate) load: &'a [u64],
    pub(crate) cost: &'a [u64],
    pub(crate) points: &'a [Choice],
    pub(crate) starts: &'a [usize],
}

// A knapsack of the items that are settled.
#[derive(Clone, Copy)]
pub(crate) struct Knapsack<'a> {
    pub(crate) costs: &'a [u64],
    pub(crate) keys: &'a [u64],
}

// Sets that agree on their last `places` items, the part of their number that these make up being `index`, on a core. The other
// items are `ahead`, the first of them, `listed` in number, with lists of their choices; `bit` and `digit` are the weights
// of the last item ahead in a set's number and in a key.
#[derive(Clone, Copy)]
pub(crate) struct Branch {
    pub(crate) core: Core,
    pub(crate) listed: usize,
    pub(crate) ahead: usize,
    pub(crate) places: usize,
    pub(crate) bit: usize,
    pub(crate) digit: u64,
    pub(crate) index: usize,
}

impl Branch {
    // The last of the items ahead, and the branches of the sets without it and of those with it.
    #[tactic(auto, unfolding(assignment::specs::Keys::key_base))]
    fn settle_next(self) -> (Front, Branch, Branch)
        requires { NextFits self }
        ensures item { result.0 ≡ next_item self }
        ensures without { result.1 ≡ without_next self }
        ensures with { result.2 ≡ with_next self }
    {
        let item = Front {
            core: self.core,
            item: self.ahead - 1,
            places: self.places,
            digit: self.digit,
        };
        let without = Branch {
            ahead: self.ahead - 1,
            places: self.places + 1,
            bit: self.bit * 2,
            digit: self.digit * KEY_BASE,
            ..self
        };
        let with = Branch {
            index: self.index + self.bit,
            ..without
        };
        (item, without, with)
    }
}

// The knapsacks of the branch's sets, from the knapsack of the items that these agree on.
fn fill(branch: Branch, offers: Offers, knapsack: Knapsack, costs: &mut [u64], keys: &mut [u64])
    requires { BranchFits branch offers.load.now offers.cost.now offers.points.now offers.starts.now
        knapsack.costs.now knapsack.keys.now costs.old keys.old }
    ensures { BranchFilled branch offers.entry.load.now offers.entry.cost.now
        knapsack.entry.costs.now knapsack.entry.keys.now costs.old keys.old costs.new keys.new }
{
    if branch.ahead == branch.listed {
        store_listed(branch, offers, knapsack, costs, keys);
        return;
    }
    let (item, without, with) = branch.settle_next();
    fill(without, offers, knapsack, costs, keys);
    let mut more_costs = [NO_COST; ENTRIES];
    let mut more_keys = [0u64; ENTRIES];
    item.relax(
        offers.load,
        offers.cost,
        knapsack.costs,
        knapsack.keys,
        &mut more_costs,
        &mut more_keys,
    );
    let more = Knapsack {
        costs: &more_costs,
        keys: &more_keys,
    };
    fill(with, offers, more, costs, keys);
}

// The knapsack of every set of n items at the whole capacity, in the entry of the set's number, with room for so many
// choices in lists.
fn fill_with_room<const ROOM: usize>(
    core: Core,
    n: usize,
    load: &[u64],
    cost: &[u64],
    costs: &mut [u64],
    keys: &mut [u64],
)
    requires knapsacks_fit { KnapsacksFit n core.levels core.capacity load.now cost.now costs.old keys.old }
    requires some_room { (0 < ROOM) × (ROOM ≤ MANY_CHOICES) }
    ensures { KnapsacksFilled n core.levels core.capacity load.now cost.now
        costs.old keys.old costs.new keys.new }
{
    let mut points = [NOTHING; ROOM];
    let mut starts = [0usize; STARTS];
    let listed = list_front(core, n, load, cost, &mut points, &mut starts);
    let all = Branch {
        core,
        listed,
        ahead: n,
        places: 0,
        bit: 1,
        digit: 1,
        index: 0,
    };
    let offers = Offers {
        load,
        cost,
        points: &points,
        starts: &starts,
    };
    // The set of no item costs nothing, and has key 0.
    let nothing = [0u64; ENTRIES];
    let empty = Knapsack {
        costs: &nothing,
        keys: &nothing,
    };
    fill(all, offers, empty, costs, keys);
}

// The knapsack of every set of n items, with as much room for lists as the items may need.
pub fn fill_knapsacks(
    core: Core,
    n: usize,
    load: &[u64],
    cost: &[u64],
    costs: &mut [u64],
    keys: &mut [u64],
)
    requires { KnapsacksFit n core.levels core.capacity load.now cost.now costs.old keys.old }
    ensures { KnapsacksFilled n core.levels core.capacity load.now cost.now
        costs.old keys.old costs.new keys.new }
{
    match n {
        0..=2 => fill_with_room::<FEW_CHOICES>(core, n, load, cost, costs, keys),
        3..=10 => fill_with_room::<SOME_CHOICES>(core, n, load, cost, costs, keys),
        _ => fill_with_room::<MANY_CHOICES>(core, n, load, cost, costs, keys),
    }
}
