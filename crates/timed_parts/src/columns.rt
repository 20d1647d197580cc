// The test of a whole pattern.
ghost use Rattle.std.specs.Prelude.{◌≡◌, ◌≤◌, ◌<◌, get_or, length, List, Bool, ℕ};
ghost use Rattle.assignment.specs.Limits.{most_items};
ghost use Rattle.demand.specs.UnmetTicks.{UnmetTick};
ghost use Rattle.lagrangian.specs.TimedItems.{TimedItems, timed_core};
ghost use Rattle.timed_parts.specs.TickColumns.{column_jobs};
ghost use Rattle.timed_parts.specs.Nodes.{Stands};

use crate::Node;
use demand::unmet_tick;
use lagrangian::{TIMING_WIDTH, Timed};
use values::MOST_ITEMS;

// An entry for each of the first items, and the same other one at each place that is left.
pub fn column_of<T: Copy, F: Fn(usize) -> T>(items: usize, other: T, entry: F) -> [T; MOST_ITEMS]
    requires few_items { items ≤ most_items }
    requires callable { (i : ℕ) → i < items → F.pre entry i }
    ensures places { length result ≡ most_items }
    ensures entries { (i : ℕ) → i < items → F.post entry i (get_or result i other) }
{
    let mut column = [other; MOST_ITEMS];
    for i in 0..items {
        column[i] = entry(i);
    }
    column
}

// A tick of the span by which more is due than there are ticks up to it, with these ticks of a job of each item, if there is one.
pub(crate) fn unmet_of(timed: Timed, column: [u32; MOST_ITEMS], timings: &[u32]) -> Option<u32>
    requires timed_items { TimedItems timed timings.now }
    requires column_len { length column ≡ most_items }
    ensures { UnmetTick (column_jobs timed timings.now column) timed.span result }
{
    let n = timed.items;
    let periods = column_of(n, 0, |item| timings[item * TIMING_WIDTH]);
    let windows = column_of(n, 0, |item| timings[item * TIMING_WIDTH + 1]);
    unmet_tick(timed.span, &periods[..n], &windows[..n], &column[..n])
}

// Whether the core admits the node's pattern.
pub fn is_admitted(timed: Timed, node: Node, timings: &[u32]) -> bool
    requires timed_items { TimedItems timed timings.now }
    requires ticks_len { length node.ticks ≡ most_items }
    ensures { (cost q : List ℕ) (T : List Bool) → Stands timed timings.now cost node q T →
        result ≡ (timed_core timed timings.now cost).admits q }
{
    unmet_of(timed, node.ticks, timings).is_none()
}
