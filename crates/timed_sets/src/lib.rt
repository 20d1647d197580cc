// The least value of one set of items on a core whose jobs are due at given ticks: depth first over the items of the set and their
// levels. Items are offered at what they cost alone.
#![tactic(auto)]

mod bounds;
mod given;
mod order;
mod partners;
mod refits;
mod search;

ghost use Rattle.std.specs.Prelude.{true, ◌≡◌, ◌^◌, ◌<◌};
ghost use Rattle.lagrangian.specs.TimedItems.{TimedReady};
ghost use Rattle.timed_sets.specs.SearchBounds.{BoundsHold};
ghost use Rattle.timed_sets.specs.Found.{SmallWorth, FoundUpTo, CostUpTo};

use given::worth_along;
use lagrangian::TimedCore;
pub use partners::has_sooner_partner;
use partners::partners_in;
use search::Search;
use timed_parts::{Bounded, Node, ROW_WORDS, fill_rows};
use values::{MOST_ITEMS, Worth};

// The least value of running exactly the items of a set, by its number, with every job done in time; or the limit `most`, where nothing
// comes before it. Where not `keyed`, that is said of costs alone: the key is any pattern's, and fewer levels are tried. The search begins
// with the pattern of the levels that are cheapest by the relaxation, where the core admits it.
pub fn least_up_to<'a>(
    bounded: Bounded,
    set: usize,
    keyed: bool,
    most: Worth,
    timings: &'a [u32],
    cost: &'a [u64],
    lowcosts: &'a [u64],
    lowkeys: &'a [u64],
) -> Worth
    requires timed_ready { TimedReady bounded.timed timings.now cost.now }
    requires bounds_hold { BoundsHold bounded timings.now cost.now lowcosts.now lowkeys.now }
    requires set_bound { set < 2 ^ bounded.timed.items }
    requires small_worth { SmallWorth bounded.timed most }
    ensures found_up_to { keyed ≡ true → FoundUpTo bounded.timed set timings.now cost.now most result }
    ensures cost_up_to { CostUpTo bounded.timed set timings.now cost.now most result }
    ensures small_worth_2 { SmallWorth bounded.timed result }
{
    let start = Node {
        item: 0,
        level: 0,
        rest: set,
        cost: 0,
        key: 0,
        ticks: [0; MOST_ITEMS],
    };
    let timed = bounded.timed;
    let relaxed = bounded.relaxed;
    let core = TimedCore {
        timed,
        timings,
        cost,
    };
    let key = core.cheapest_key(set, &relaxed.prices);
    let best = most.min(worth_along(timed, start, key, timings, cost));
    let mut rows = [0; ROW_WORDS];
    fill_rows(timed, relaxed.ticks, timings, &mut rows);
    let partners = partners_in(timed, set, keyed, timings, cost);
    let search = Search {
        bounded,
        timings,
        cost,
        lowcosts,
        lowkeys,
        rows: &rows,
        partners,
    };
    search.least_from(start, best)
}
