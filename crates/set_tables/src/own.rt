// Patterns that have each item at its own cheapest level.
ghost use Rattle.std.specs.Prelude.{true, cond, ◌≡◌, ◌+◌, ◌≤◌, ◌<◌};
ghost use Rattle.knapsack.specs.Offered.{entry_of};
ghost use Rattle.lagrangian.specs.TimedItems.{TimedReady};
ghost use Rattle.set_tables.specs.LiftedTables.{most_amount};
ghost use Rattle.set_tables.specs.OwnPatterns.{LevelsOf, is_within, is_better, own_level, OwnUpTo, OwnRoom, OwnTable};

use crate::dropping::drop_unserved;
use crate::lifting::fill_sums;
use lagrangian::{TIMING_WIDTH, Timed, TimedCore, is_within_window};
use values::{MOST_ITEMS, STRIDE, keys_of};

// Of each item at its own level: the ticks of a job, the cost, and its choice as a digit of a key. They stand in arrays of their own,
// since a table is filled from each.
#[derive(Clone, Copy)]
pub(crate) struct OwnColumns {
    pub(crate) ticks: [u32; MOST_ITEMS],
    pub(crate) costs: [u64; MOST_ITEMS],
    pub(crate) digits: [u64; MOST_ITEMS],
}

impl OwnColumns {
    // Those of all items of a core.
    fn of(core: &TimedCore<'_>) -> OwnColumns
        requires { 1 ≤ core.now.timed.levels }
        ensures { OwnUpTo core.now.timed core.now.timings.now core.now.cost.now core.now.timed.items result }
    {
        let mut own = OwnColumns {
            ticks: [0; MOST_ITEMS],
            costs: [0; MOST_ITEMS],
            digits: [0; MOST_ITEMS],
        };
        for item in 0..core.timed.items {
            own.add_item(core, item);
        }
        own
    }

    // One item more.
    fn add_item(&mut self, core: &TimedCore<'_>, item: usize)
        requires le_levels { (1 ≤ core.now.timed.levels) × (item < core.now.timed.items) }
        requires own_up_to { OwnUpTo core.now.timed core.now.timings.now core.now.cost.now item self.old }
        ensures { OwnUpTo core.now.timed core.now.timings.now core.now.cost.now (item + 1) self.new }
    {
        let level = own_level(core, item);
        self.ticks[item] = core.timings[item * TIMING_WIDTH + 2 + level];
        self.costs[item] = own_cost(core, item, level);
        self.digits[item] = (level as u64 + 1) * keys_of(core.timed.items - 1 - item);
    }
}

// The better of two levels of an item: the first where a job has its ticks within its window only there, or where it is cheaper.
fn better_level(core: &TimedCore<'_>, item: usize, level: usize, best: usize) -> usize
    requires { LevelsOf item level best core.now.timings.now core.now.cost.now }
    ensures { result ≡ cond (is_better core.now.timings.now core.now.cost.now item level best) level best }
{
    if !is_within_window(item, level, core.timings) {
        return best;
    }
    if !is_within_window(item, best, core.timings) {
        return level;
    }
    if core.cost[item * STRIDE + level] < core.cost[item * STRIDE + best] {
        return level;
    }
    best
}

// The cheapest level of an item of those at which a job has its ticks within its window, of equally cheap ones the first; level 0 where
// there is none.
fn own_level(core: &TimedCore<'_>, item: usize) -> usize
    requires { (1 ≤ core.now.timed.levels) × (item < core.now.timed.items) }
    ensures value { result ≡ own_level core.now.timings.now core.now.cost.now item core.now.timed.levels }
    ensures upper_bound { result < core.now.timed.levels }
{
    let mut own = 0;
    for level in 0..core.timed.levels {
        own = better_level(core, item, level, own);
    }
    own
}

// What an item costs at a level, where a job has its ticks within its window there; else 0, which adds nothing to a sum that becomes
// none.
fn own_cost(core: &TimedCore<'_>, item: usize, level: usize) -> u64
    requires { (item < core.now.timed.items) × (level < core.now.timed.levels) }
    ensures value { is_within core.now.timings.now item level ≡ true →
        result ≡ entry_of core.now.cost.now item level }
    ensures upper_bound { result ≤ most_amount }
{
    if !is_within_window(item, level, core.timings) {
        return 0;
    }
    core.cost[item * STRIDE + level]
}

// What each set's own pattern costs where a core admits it, none where not; and its key.
pub fn fill_own(timed: Timed, timings: &[u32], cost: &[u64], costs: &mut [u64], keys: &mut [u64])
    requires timed_ready { TimedReady timed timings.now cost.now }
    requires le_levels { 1 ≤ timed.levels }
    requires own_room { OwnRoom timed costs.old keys.old }
    ensures { OwnTable timed timings.now cost.now costs.new keys.new }
{
    let core = TimedCore {
        timed,
        timings,
        cost,
    };
    let own = OwnColumns::of(&core);
    fill_sums(timed.items, &own.costs, costs);
    fill_sums(timed.items, &own.digits, keys);
    drop_unserved(timed, own.ticks, 0, 0, false, timings, costs);
}
