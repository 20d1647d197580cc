// One knapsack: the least values of a set of items on one core, for each load up to the capacity.
ghost use Rattle.std.specs.Prelude.{◌≡◌, ℕ, ◌≤◌, ◌<◌, length, get_or};
ghost use Rattle.knapsack.specs.RelaxedItems.{ChoiceFits, choice_of, ItemBefore, FlatKnapsack, KnapsackWithItem};
ghost use Rattle.knapsack.specs.RelaxedKnapsacks.{KnapsackSumsFit};
ghost use Rattle.knapsack.specs.KnapsackWords.{Relaxed};
ghost use Rattle.assignment.specs.Words.{no_cost};

use values::STRIDE;

// A core's levels, and the most load that it takes.
#[derive(Clone, Copy)]
pub struct Core {
    pub levels: usize,
    pub capacity: usize,
}

// An item on a core, in front of `places` others, and its weight in a key.
#[derive(Clone, Copy)]
pub struct Front {
    pub core: Core,
    pub item: usize,
    pub places: usize,
    pub digit: u64,
}

// An item at a level: its load and cost there, and what it adds to a key.
#[derive(Clone, Copy)]
pub struct Choice {
    pub load: usize,
    pub cost: u64,
    pub key: u64,
}

impl Choice {
    // Each entry of a knapsack becomes that of the choice before another knapsack, where that is cheaper. Levels are taken in ascending
    // order, so at equal costs the entry has the smaller key.
    fn relax(
        self,
        capacity: usize,
        knapsack_costs: &[u64],
        knapsack_keys: &[u64],
        costs: &mut [u64],
        keys: &mut [u64],
    )
        requires knapsack_sums_fit { KnapsackSumsFit self.load self.cost self.key capacity knapsack_costs.now knapsack_keys.now }
        requires capacity_in_bounds { (capacity < length costs.old) × (capacity < length keys.old) }
        ensures { (w : ℕ) → w ≤ capacity →
            Relaxed self.load self.cost self.key knapsack_costs.now knapsack_keys.now w
            (get_or costs.old w 0) (get_or keys.old w 0)
            (get_or costs.new w 0) (get_or keys.new w 0) }
    {
        for w in self.load..=capacity {
            let rest = w - self.load;
            let cost = self.cost + knapsack_costs[rest];
            if cost < costs[w] {
                costs[w] = cost;
                keys[w] = self.key + knapsack_keys[rest];
            }
        }
    }
}

impl Front {
    // The item at a level.
    pub fn choice_at(self, load: &[u64], cost: &[u64], level: usize) -> Choice
        requires { ChoiceFits load.now cost.now self level }
        ensures { result ≡ choice_of load.now cost.now self level }
    {
        let at = self.item * STRIDE + level;
        Choice {
            load: load[at] as usize,
            cost: cost[at],
            key: (level as u64 + 1) * self.digit,
        }
    }

    // The knapsack of a set with the item, from a knapsack of none. Costs and keys are two slices, as what is said of knapsacks has them.
    pub fn relax(
        self,
        load: &[u64],
        cost: &[u64],
        knapsack_costs: &[u64],
        knapsack_keys: &[u64],
        costs: &mut [u64],
        keys: &mut [u64],
    )
        requires item_before { ItemBefore self load.now cost.now knapsack_costs.now knapsack_keys.now }
        requires flat_knapsack { FlatKnapsack no_cost 0 self.core.capacity costs.old keys.old }
        ensures { KnapsackWithItem self load.now cost.now knapsack_costs.now knapsack_keys.now
            self.core.levels costs.new keys.new }
    {
        for l in 0..self.core.levels {
            let choice = self.choice_at(load, cost, l);
            choice.relax(
                self.core.capacity,
                knapsack_costs,
                knapsack_keys,
                costs,
                keys,
            );
        }
    }
}
