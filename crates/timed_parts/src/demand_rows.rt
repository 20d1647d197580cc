// The test of a part of a pattern at a few ticks: whether by one of them more is due than there are ticks up to it, even where the
// items still to come have their fewest ticks.
ghost use Rattle.std.specs.Prelude.{Bool, true, List, ◌≡◌, ℕ, ◌*◌, ◌≤◌, ◌<◌, length, get_or};
ghost use Rattle.laws.specs.Sums.{sum};
ghost use Rattle.ranges.specs.Limits.{most_span};
ghost use Rattle.assignment.specs.Limits.{most_items};
ghost use Rattle.values.specs.declared.value.Worth.{Worth};
ghost use Rattle.lagrangian.specs.TimedItems.{TimedItems};
ghost use Rattle.lagrangian.specs.PriceColumns.{most_ticks};
ghost use Rattle.timed_parts.specs.DemandRows.{row_words, row_tick, row_entry, DemandRows, RowSet, LowestColumn};
ghost use Rattle.timed_parts.specs.Nodes.{NothingBefore, Stands};
ghost use Rattle.timed_parts.specs.TickColumns.{in_set};

use crate::Node;
use crate::servable::{fewest_column, ticks_in_set};
use lagrangian::{MOST_TICKS, Timed, jobs_by};
use values::MOST_ITEMS;

// A row's words: a tick, then an entry for each item.
const ROW_WIDTH: usize = MOST_ITEMS + 1;

// Rows of ticks with the jobs of each item that are due by them, then one with the fewest ticks of a job of each item.
pub const ROW_WORDS: usize = (MOST_TICKS + 1) * ROW_WIDTH;

// Writes one row.
fn fill_row(row: usize, tick: u32, entries: [u32; MOST_ITEMS], rows: &mut [u32])
    requires { (row ≤ most_ticks) × (length entries ≡ most_items) × (length rows.old ≡ row_words) }
    ensures { RowSet row tick entries rows.old rows.new }
{
    let start = row * ROW_WIDTH;
    rows[start] = tick;
    rows[start + 1..start + ROW_WIDTH].copy_from_slice(&entries);
}

// A tick after the span counts as tick 0, by which nothing is due.
fn tick_of_span(span: u32, tick: u32) -> u32
    ensures { result ≤ span }
{
    if span < tick { 0 } else { tick }
}

// Writes the rows of these ticks and that of the fewest ticks.
pub fn fill_rows(timed: Timed, ticks: [u32; MOST_TICKS], timings: &[u32], rows: &mut [u32])
    requires timed_items { TimedItems timed timings.now }
    requires rows_len { length rows.old ≡ row_words }
    ensures { DemandRows timed timings.now most_ticks rows.new }
{
    fill_row(MOST_TICKS, 0, fewest_column(timed, timings), rows);
    for n in 0..MOST_TICKS {
        let tick = tick_of_span(timed.span, ticks[n]);
        fill_row(n, tick, jobs_by(timed, tick, timings), rows);
    }
}

// The ticks of a job of each item at least: the node's where the item has its level, the fewest where it is still to have one.
fn lowest_column(timed: Timed, node: Node, rows: &[u32]) -> [u32; MOST_ITEMS]
    requires { (node.item ≤ timed.items) × (timed.items ≤ most_items) × (length node.ticks ≡ most_items) × (length rows.now ≡ row_words) }
    ensures { LowestColumn timed node rows.now timed.items result }
{
    let mut column = node.ticks;
    for item in node.item..timed.items {
        let fewest = rows[MOST_TICKS * ROW_WIDTH + 1 + item];
        column[item] = ticks_in_set(timed.items, node.rest, item, fewest);
    }
    column
}

// What is due by a row's tick with these ticks of a job of each item. The sum of `priced_front` has wider factors, and each has a bound of
// its own that keeps it within 64 bits.
fn due_by(items: usize, row: usize, column: &[u32], rows: &[u32]) -> u64
    requires le_most_items { (items ≤ most_items) × (row < most_ticks) × (length column.now ≡ most_items) × (length rows.now ≡ row_words) }
    requires by_index { (i : ℕ) → i < items → row_entry rows.now row i ≤ most_span }
    ensures { result ≡ sum (λ (i : ℕ). get_or column.now i 0 * row_entry rows.now row i) items }
{
    let mut due = 0;
    for i in 0..items {
        due += column[i] as u64 * rows[row * ROW_WIDTH + 1 + i] as u64;
    }
    due
}

// Whether more is due by a row's tick than there are ticks up to it.
fn is_exceeded(items: usize, row: usize, column: &[u32], rows: &[u32]) -> bool
    requires le_most_items { (items ≤ most_items) × (row < most_ticks) × (length column.now ≡ most_items) × (length rows.now ≡ row_words) }
    requires by_index { (i : ℕ) → i < items → row_entry rows.now row i ≤ most_span }
    ensures { result ≡ true → row_tick rows.now row
        < sum (λ (i : ℕ). get_or column.now i 0 * row_entry rows.now row i) items }
{
    let tick = rows[row * ROW_WIDTH];
    if tick == 0 {
        return false;
    }
    (tick as u64) < due_by(items, row, column, rows)
}

// Whether by one of the rows' ticks more is due than there are ticks up to it, whatever levels the items still to come have.
pub fn is_overdue(timed: Timed, node: Node, rows: &[u32]) -> bool
    requires { (timings cost q : List ℕ) × (T : List Bool) × TimedItems timed timings × DemandRows timed timings most_ticks rows.now
        × Stands timed timings cost node q T }
    ensures { (timings cost q : List ℕ) (T : List Bool) (best : Worth) → TimedItems timed timings →
        DemandRows timed timings most_ticks rows.now → Stands timed timings cost node q T → result ≡ true →
        NothingBefore timed timings cost node q T best }
{
    let column = lowest_column(timed, node, rows);
    (0..MOST_TICKS).any(|row| is_exceeded(timed.items, row, &column, rows))
}
