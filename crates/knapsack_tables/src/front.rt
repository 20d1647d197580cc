// The knapsacks of sets of the first items, where the knapsack of the items behind them is at hand: read from the lists of the sets'
// choices, so that no knapsack is computed for them.
ghost use Rattle.std.specs.Prelude.{◌≡◌, ℕ, ◌+◌, ◌<◌, length, set};
ghost use Rattle.knapsack_tables.specs.Branches.{BranchFits, BranchFilled};
ghost use Rattle.knapsack_tables.specs.FilledTables.{Holds};
ghost use Rattle.knapsack_tables.specs.ListReads.{ListRead};
ghost use Rattle.knapsack.specs.KnapsackWords.{knapsack_of};
ghost use Rattle.assignment.specs.Values.{Value};

use crate::filling::{Branch, Knapsack, Offers};
use knapsack::Choice;
use values::{Worth, sets_of};

// The least value of the choices of a list, each before the knapsack at hand.
fn least_listed(capacity: usize, list: &[Choice], knapsack: Knapsack) -> Worth
    requires { (n : ℕ) × (places : ℕ) × (f : (ℕ → Value) → ℕ → Value) ×
        ListRead capacity 0 (length list.now) list.now knapsack.costs.now knapsack.keys.now n places f }
    ensures { (n places : ℕ) (f : (ℕ → Value) → ℕ → Value) →
        ListRead capacity 0 (length list.now) list.now knapsack.entry.costs.now knapsack.entry.keys.now n places f →
        Holds (n + places) (f (knapsack_of knapsack.entry.costs.now knapsack.entry.keys.now) capacity) result.cost result.key }
{
    let mut best = Worth::NONE;
    for choice in list {
        let room = capacity - choice.load;
        let cost = choice.cost + knapsack.costs[room];
        if cost <= best.cost {
            let key = choice.key + knapsack.keys[room];
            best = best.lesser(Worth { cost, key });
        }
    }
    best
}

fn store(at: usize, worth: Worth, costs: &mut [u64], keys: &mut [u64])
    requires { (at < length costs.old) × (at < length keys.old) }
    ensures costs_after { costs.new ≡ set costs.old at worth.cost }
    ensures keys_after { keys.new ≡ set keys.old at worth.key }
{
    costs[at] = worth.cost;
    keys[at] = worth.key;
}

// The knapsacks of the branch's sets, one by one, where all items ahead are listed.
pub(crate) fn store_listed(
    branch: Branch,
    offers: Offers,
    knapsack: Knapsack,
    costs: &mut [u64],
    keys: &mut [u64],
)
    requires ahead_value { branch.ahead ≡ branch.listed }
    requires branch_fits { BranchFits branch offers.load.now offers.cost.now offers.points.now offers.starts.now
        knapsack.costs.now knapsack.keys.now costs.old keys.old }
    ensures { BranchFilled branch offers.entry.load.now offers.entry.cost.now
        knapsack.entry.costs.now knapsack.entry.keys.now costs.old keys.old costs.new keys.new }
{
    for k in 0..sets_of(branch.ahead) {
        let list = &offers.points[offers.starts[k]..offers.starts[k + 1]];
        let worth = least_listed(branch.core.capacity, list, knapsack);
        store(k * branch.bit + branch.index, worth, costs, keys);
    }
}
