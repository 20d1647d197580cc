// What a part of a pattern costs at least by a relaxation.
ghost use Rattle.std.specs.Prelude.{Bool, false, List, ◌≡◌, ℕ, ◌+◌, ◌-◌, ◌*◌, ◌≤◌, ◌<◌, length, get_or};
ghost use Rattle.laws.specs.Sums.{sum};
ghost use Rattle.ranges.specs.Limits.{most_period};
ghost use Rattle.assignment.specs.Limits.{most_items};
ghost use Rattle.assignment.specs.Sets.{set_number};
ghost use Rattle.assignment.specs.Words.{no_cost};
ghost use Rattle.lagrangian.specs.Lagrangians.{least_priced, most_price, most_priced, Relaxes};
ghost use Rattle.lagrangian.specs.TimedItems.{TimedReady};
ghost use Rattle.timed_parts.specs.Nodes.{NothingBefore, Stands};

use crate::{Bounded, Node};
use values::{Worth, sets_of};

// What the ticks of a job of each of the first items come to.
fn priced_front(items: usize, prices: &[u64], ticks: &[u32]) -> u64
    requires le_most_items { (items ≤ most_items) × (items ≤ length prices.now) × (items ≤ length ticks.now) }
    requires by_index { (i : ℕ) → get_or prices.now i 0 ≤ most_price }
    requires by_index_2 { (i : ℕ) → get_or ticks.now i 0 ≤ most_period }
    ensures value { result ≡ sum (λ (i : ℕ). get_or prices.now i 0 * get_or ticks.now i 0) items }
    ensures upper_bound { result ≤ items * (most_price * most_period) }
{
    let mut sum = 0;
    for i in 0..items {
        sum += prices[i] * ticks[i] as u64;
    }
    sum
}

// What the items of a set come to at least, from an item on.
fn priced_rest(items: usize, item: usize, rest: usize, least: &[u64]) -> u64
    requires item_le { (item ≤ items) × (items ≤ most_items) × (items ≤ length least.now) }
    requires by_index { (i : ℕ) → get_or least.now i 0 ≤ most_priced }
    ensures value { (T : List Bool) → item + length T ≡ items → rest ≡ set_number (length T) T →
        result ≡ least_priced least.now item T }
    ensures upper_bound { result ≤ (items - item) * most_priced }
{
    if item == items {
        return 0;
    }
    let half = sets_of(items - item - 1);
    if rest < half {
        return priced_rest(items, item + 1, rest, least);
    }
    let later = priced_rest(items, item + 1, rest - half, least);
    least[item] + later
}

// Whether what the node costs at least by the relaxation is no more than the best so far.
pub fn relaxed_is_cheaper(bounded: Bounded, node: Node, best: Worth) -> bool
    requires by_index { (timings cost q : List ℕ) × (T : List Bool) × TimedReady bounded.timed timings cost
        × Relaxes bounded.timed timings cost bounded.relaxed × Stands bounded.timed timings cost node q T }
    requires cost_le_no_cost { best.cost ≤ no_cost }
    ensures { (timings cost q : List ℕ) (T : List Bool) → TimedReady bounded.timed timings cost →
        Relaxes bounded.timed timings cost bounded.relaxed → Stands bounded.timed timings cost node q T → result ≡ false →
        NothingBefore bounded.timed timings cost node q T best }
{
    let relaxed = bounded.relaxed;
    let front = priced_front(node.item, &relaxed.prices, &node.ticks);
    let later = priced_rest(bounded.timed.items, node.item, node.rest, &relaxed.least);
    node.cost + front + later <= best.cost + relaxed.budget
}
