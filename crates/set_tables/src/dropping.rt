// The entries of sets that are not served at given ticks of their items become none.
ghost use Rattle.std.specs.Prelude.{true, ◌≡◌, ◌+◌, ◌-◌, ◌^◌, ◌≤◌, length};
ghost use Rattle.assignment.specs.Limits.{most_items};
ghost use Rattle.lagrangian.specs.TimedItems.{TimedItems};
ghost use Rattle.timed_parts.specs.TickColumns.{served_at};
ghost use Rattle.set_tables.specs.DroppedTables.{Dropped, NoneFrom, SetsFrom};

use lagrangian::Timed;
use timed_parts::is_served;
use values::{MOST_ITEMS, NO_COST, sets_of};

// From this entry on so many become none.
fn drop_all(from: usize, size: usize, costs: &mut [u64])
    requires { from + size ≤ length costs.old }
    ensures { NoneFrom from size costs.old costs.new }
{
    costs[from..from + size].fill(NO_COST);
}

// Of the sets that add some of the items from `item` on to a set that is served, the entries of those that are not become none; the column
// has the ticks of a job of each item. Where the largest of them is served, all are; where the set with the next item is not, none
// with it is. `largest_fails` says that the largest is known not to be served.
pub fn drop_unserved(
    timed: Timed,
    column: [u32; MOST_ITEMS],
    item: usize,
    set: usize,
    largest_fails: bool,
    timings: &[u32],
    costs: &mut [u64],
)
    requires timed_items { TimedItems timed timings.now }
    requires column_len { length column ≡ most_items }
    requires sets_from { SetsFrom timed.items item set costs.old }
    requires set_value { served_at timed timings.now column set ≡ true }
    ensures { Dropped timed timings.now column set (2 ^ (timed.items - item)) costs.old costs.new }
{
    if item == timed.items {
        return;
    }
    let half = sets_of(timed.items - item - 1);
    let with = set + half;
    if !largest_fails && is_served(timed, with + half - 1, column, timings) {
        return;
    }
    drop_unserved(timed, column, item + 1, set, false, timings, costs);
    if !is_served(timed, with, column, timings) {
        drop_all(with, half, costs);
        return;
    }
    drop_unserved(timed, column, item + 1, with, true, timings, costs);
}
