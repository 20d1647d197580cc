// Whether the items of a set are served at given ticks of a job of each, and the fewest ticks of each.
ghost use Rattle.std.specs.Prelude.{◌≡◌, ◌+◌, ◌*◌, ◌≤◌, ◌<◌, length};
ghost use Rattle.assignment.specs.Limits.{most_items, most_levels};
ghost use Rattle.lagrangian.specs.TimedItems.{TimedItems};
ghost use Rattle.lagrangian.specs.TimedCores.{timing_width};
ghost use Rattle.timed_parts.specs.TickColumns.{in_set, SetColumn, served_at, FewestTicks, FewestColumn};

use crate::columns::{column_of, unmet_of};
use lagrangian::{TIMING_WIDTH, Timed};
use values::MOST_ITEMS;

// The fewest ticks of a job of an item over all levels.
fn fewest_ticks(item: usize, levels: usize, timings: &[u32]) -> u32
    requires { (item < most_items) × (levels ≤ most_levels) × (item * timing_width + timing_width ≤ length timings.now) }
    ensures { FewestTicks timings.now item levels result }
{
    let mut fewest = timings[item * TIMING_WIDTH + 2];
    for level in 1..levels {
        fewest = fewest.min(timings[item * TIMING_WIDTH + 2 + level]);
    }
    fewest
}

// The fewest ticks of a job of each item.
pub fn fewest_column(timed: Timed, timings: &[u32]) -> [u32; MOST_ITEMS]
    requires { TimedItems timed timings.now }
    ensures { FewestColumn timed timings.now timed.items result }
{
    column_of(
        timed.items,
        0,
        |item| fewest_ticks(item, timed.levels, timings),
    )
}

// These ticks where the item is in a set, else none.
#[tactic(auto, using(crate::proofs::Bits::times_no_bit, crate::proofs::Bits::times_bit))]
pub(crate) fn ticks_in_set(items: usize, set: usize, item: usize, ticks: u32) -> u32
    requires { (item < items) × (items ≤ most_items) }
    ensures { result ≡ in_set items set item * ticks }
{
    if (set >> (items - 1 - item)) % 2 == 0 {
        return 0;
    }
    ticks
}

// The column for the items of a set, none for the others.
fn column_of_set(items: usize, set: usize, column: [u32; MOST_ITEMS]) -> [u32; MOST_ITEMS]
    requires { (items ≤ most_items) × (length column ≡ most_items) }
    ensures { SetColumn items set column items result }
{
    column_of(
        items,
        0,
        |item| ticks_in_set(items, set, item, column[item]),
    )
}

// Whether the items of a set are all served at the ticks of a job of each that stand in the column.
pub fn is_served(timed: Timed, set: usize, column: [u32; MOST_ITEMS], timings: &[u32]) -> bool
    requires timed_items { TimedItems timed timings.now }
    requires column_len { length column ≡ most_items }
    ensures { result ≡ served_at timed timings.now column set }
{
    let of_set = column_of_set(timed.items, set, column);
    unmet_of(timed, of_set, timings).is_none()
}
