// The table of one core that pays for its idle ticks. Knapsacks are offered each item at what it costs alone on an awake core, so
// that they count the idle energy of a whole span once for each item of a set; the core owes it once.
#![tactic(auto)]

ghost use Rattle.std.specs.Prelude.{◌≡◌, ◌^◌, ◌≤◌, ◌<◌, length, get_or};
ghost use Rattle.assignment.specs.Limits.{most_items};
ghost use Rattle.assignment.specs.Words.{no_cost};
ghost use Rattle.core_tables.specs.AwakeCores.{surplus};
ghost use Rattle.core_tables.specs.ChargedTables.{ChargeReady, ChargedBelow, SizesBelow, charged};

use values::{MOST_SETS, NO_COST, sets_of};

// How many items each set has.
pub fn fill_sizes(items: usize, sizes: &mut [u64])
    requires le_most_items { items ≤ most_items }
    requires in_bounds { 2 ^ items ≤ length sizes.old }
    requires sizes_value { get_or sizes.old 0 0 ≡ 0 }
    ensures { SizesBelow items (2 ^ items) sizes.new }
{
    let all = sets_of(items);
    for x in 1..all {
        sizes[x] = sizes[x / 2] + (x % 2) as u64;
    }
}

// The cost of a set of so many items that owes the idle energy of a whole span once.
#[tactic(auto, using(crate::specs::ChargedTables::charged_none, crate::specs::ChargedTables::charged_real, crate::specs::ChargedTables::taken_once_less))]
fn charged_cost(whole: u64, count: u64, cost: u64) -> u64
    requires le_count { 1 ≤ count }
    requires count_bound { cost < no_cost → surplus whole count ≤ cost }
    ensures { result ≡ charged whole count cost }
{
    if NO_COST <= cost {
        return cost;
    }
    cost - (count - 1) * whole
}

// Takes off the cost of every set what it counts too often. `whole` is what the idle ticks of a whole span cost.
pub fn charge_idle_once(items: usize, whole: u64, costs: &mut [u64])
    requires { ChargeReady items whole costs.old }
    ensures { ChargedBelow items whole (2 ^ items) costs.old costs.new }
{
    if whole == 0 {
        return;
    }
    let mut sizes = [0u64; MOST_SETS];
    fill_sizes(items, &mut sizes);
    let all = sets_of(items);
    for x in 1..all {
        costs[x] = charged_cost(whole, sizes[x], costs[x]);
    }
}
