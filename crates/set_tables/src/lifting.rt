// The table of lower values, raised by what is known of all sets at once.
ghost use Rattle.std.specs.Prelude.{◌^◌, ◌≤◌, length};
ghost use Rattle.assignment.specs.Words.{no_cost};
ghost use Rattle.partition.specs.Moves.{WeightsBelow};
ghost use Rattle.lagrangian.specs.Lagrangians.{least_priced, most_budget};
ghost use Rattle.set_tables.specs.LiftedTables.{AddedBelow, RoomToAdd, SumsReady, NumberedBy, LiftedTo, LiftReady, LiftedBelow};

use lagrangian::Lagrangian;
use values::{MOST_COST, MOST_ITEMS, MOST_SETS, Worth, sets_of};

// The most that a core may cost.
pub const MOST_CORE_COST: u64 = MOST_ITEMS as u64 * MOST_COST;

// From the numbers of all sets without an item, number `half` of the sets, those of the sets with it.
fn add_item(half: usize, amount: u64, sums: &mut [u64])
    requires { RoomToAdd half amount sums.old }
    ensures { AddedBelow half amount half sums.old sums.new }
{
    for x in 0..half {
        sums[half + x] = sums[x] + amount;
    }
}

// What the items of each set are priced at least.
pub(crate) fn fill_sums(items: usize, least: &[u64; MOST_ITEMS], sums: &mut [u64])
    requires { SumsReady items least.now sums.old }
    ensures { NumberedBy items (least_priced least.now 0) sums.new }
{
    let mut half = 1;
    for i in (0..items).rev() {
        add_item(half, least[i], sums);
        half *= 2;
    }
}

// The sum less the budget with the least key of a set, where that is more than the old value and not too much for a core.
fn lifted(old: Worth, sum: u64, key: u64, budget: u64) -> Worth
    requires { (old.cost ≤ no_cost) × (budget ≤ most_budget) }
    ensures { LiftedTo sum key budget old.cost old.key result.cost result.key }
{
    if sum <= old.cost + budget {
        return old;
    }
    if MOST_CORE_COST < sum - budget {
        return old;
    }
    Worth {
        cost: sum - budget,
        key,
    }
}

// Raises each set's entry to the Lagrangian's bound where that is higher, with the least key that a pattern of the set can have.
pub fn lift_all(
    items: usize,
    relaxed: Lagrangian,
    weights: &[u64],
    costs: &mut [u64],
    keys: &mut [u64],
)
    requires lift_ready { LiftReady items relaxed costs.old keys.old }
    requires in_bounds { 2 ^ items ≤ length weights.now }
    requires weights_below { WeightsBelow items (2 ^ items) weights.now }
    ensures { LiftedBelow items relaxed (2 ^ items) costs.old keys.old costs.new keys.new }
{
    let mut sums = [0u64; MOST_SETS];
    fill_sums(items, &relaxed.least, &mut sums);
    let all = sets_of(items);
    for x in 0..all {
        let old = Worth {
            cost: costs[x],
            key: keys[x],
        };
        let new = lifted(old, sums[x], weights[x], relaxed.budget);
        costs[x] = new.cost;
        keys[x] = new.key;
    }
}
