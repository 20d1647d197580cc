// Earliest deadline first on one core, and the row of slots that it gives.
#![tactic(auto)]

ghost use Rattle.std.specs.Prelude.{cond, ◌≡◌, ℕ, ◌-◌, ◌%◌, ◌≤◌, ◌<◌, IfSome, eqb, length, get_or};
ghost use Rattle.ranges.specs.Limits.{most_span};
ghost use Rattle.dispatch.specs.Chosen.{HasTicks, number_of};
ghost use Rattle.dispatch.specs.Columns.{ColumnsOk, column_row, due_in};
ghost use Rattle.dispatch.specs.Columns.{Filled, NextRelease, NoRelease, RanEarliest, RanFor, Released, RunsUntil};
ghost use Rattle.dispatch.specs.Rows as rows;
ghost use Rattle.dispatch.specs.SelectedTasks.{numbered};

pub use ranges::Slot;
use tick_steps::{Best, due_at, is_released};

// What the core runs, in columns: for each of its tasks a number, a period, a window and the ticks of a job.
#[derive(Clone, Copy)]
struct Columns<'a> {
    numbers: &'a [Slot],
    periods: &'a [u32],
    windows: &'a [u32],
    ticks: &'a [u32],
    ghost well_formed: { ColumnsOk numbers.now periods.now windows.now ticks.now },
}

// The ticks left of a task once the jobs of this tick are released, from those left before: all of its ticks at a release.
fn after_release(period: u32, ticks: u32, tick: u32, left: u32) -> u32
    requires { 0 < period }
    ensures { result ≡ cond (eqb (tick % period) 0) ticks left }
{
    if is_released(period, tick) {
        return ticks;
    }
    left
}

// The first release after this tick of a task with this period, or `end` where that comes sooner.
fn next_release(period: u32, tick: u32, end: u32) -> u32
    requires period_nonzero { 0 < period }
    requires tick_lt_end { tick < end }
    ensures upper_bound { result ≤ end }
    ensures lower_bound { (tick < result) × ((u : ℕ) → tick < u → u < result → u % period ≡ 0 → ⊥) }
{
    let wait = period - tick % period;
    if wait < end - tick {
        return tick + wait;
    }
    end
}

// The tick up to which a task runs from this one: to the end of its job, or to the soonest release where that comes sooner. With
// no task the latter.
fn run_end(task: Option<usize>, tick: u32, soonest: u32, left: &[u32]) -> u32
    requires tick_lt_soonest { tick < soonest }
    requires has_ticks { IfSome task (HasTicks left.now) }
    ensures { RunsUntil left.now task tick soonest result }
{
    match task {
        Some(i) => tick + left[i].min(soonest - tick),
        None => soonest,
    }
}

// A task runs for so many ticks.
fn run_for(task: Option<usize>, ticks: u32, left: &mut [u32])
    requires { IfSome task (λ i. (i < length left.old) × (ticks ≤ get_or left.old i 0)) }
    ensures { RanFor task ticks left.old left.new }
{
    if let Some(i) = task {
        left[i] -= ticks;
    }
}

// The task that runs, or none, and the tick up to which it runs.
#[derive(Clone, Copy)]
struct Run {
    task: Option<usize>,
    end: u32,
}

// What a slot shows: the number of the task that runs, or 0 for none.
#[tactic(auto, unfolding(crate::specs::SelectedTasks::numbered))]
pub fn slot_of(numbers: &[Slot], task: Option<usize>) -> Slot
    requires { IfSome task (λ j. j < length numbers.now) }
    ensures { result ≡ numbered (λ j. get_or numbers.now j 0) (number_of task) }
{
    match task {
        Some(j) => numbers[j],
        None => 0,
    }
}

impl Columns<'_> {
    // Releases the jobs of this tick.
    fn release(&self, tick: u32, left: &mut [u32])
        requires { length self.now.periods.now ≤ length left.old }
        ensures { Released self.now.periods.now self.now.ticks.now tick left.old left.new }
    {
        for i in 0..self.periods.len() {
            left[i] = after_release(self.periods[i], self.ticks[i], tick, left[i]);
        }
    }

    // The first release of all after this tick, or `end` where that comes sooner.
    fn soonest_release(&self, tick: u32, end: u32) -> u32
        requires { tick < end }
        ensures { NextRelease self.now.periods.now (length self.now.periods.now) tick end result }
    {
        let mut soonest = end;
        for period in self.periods {
            soonest = next_release(*period, tick, soonest);
        }
        soonest
    }

    // Releases the jobs of this tick, if the soonest release has come. Answers the next one.
    fn release_due(&self, tick: u32, soonest: u32, end: u32, left: &mut [u32]) -> u32
        requires periods_in_bounds { length self.now.periods.now ≤ length left.old }
        requires tick_lt_end { (tick < end) × (soonest ≤ end) }
        requires no_release { NoRelease self.now.periods.now (length self.now.periods.now) tick soonest }
        ensures released { Released self.now.periods.now self.now.ticks.now tick left.old left.new }
        ensures next_release { NextRelease self.now.periods.now (length self.now.periods.now) tick end result }
    {
        if tick < soonest {
            return soonest;
        }
        self.release(tick, left);
        self.soonest_release(tick, end)
    }

    // Of the tasks with ticks left the one that is due first, of equal ones the lowest.
    fn earliest(&self, tick: u32, left: &[u32]) -> Option<usize>
        requires { length self.now.periods.now ≤ length left.now }
        ensures { number_of result ≡ rows.earliest (due_in self.now.periods.now self.now.windows.now tick)
            (λ i. get_or left.now i 0) (length self.now.periods.now) }
    {
        let mut best: Option<Best> = None;
        for i in 0..self.periods.len() {
            if left[i] != 0 {
                let due = due_at(self.periods[i], self.windows[i], tick);
                if best.is_none_or(|before| due < before.due) {
                    best = Some(Best { column: i, due });
                }
            }
        }
        best.map(|best| best.column)
    }

    // From this tick, whose jobs are released, the earliest due task runs as long as nothing can change the choice.
    fn run_earliest(&self, tick: u32, soonest: u32, left: &mut [u32]) -> Run
        requires periods_in_bounds { length self.now.periods.now ≤ length left.old }
        requires tick_lt_soonest { tick < soonest }
        ensures { RanEarliest self.now.periods.now self.now.windows.now tick soonest left.old left.new result }
    {
        let task = self.earliest(tick, left);
        let end = run_end(task, tick, soonest, left);
        run_for(task, end - tick, left);
        Run { task, end }
    }

    // The row, run by run, from tasks that have nothing left.
    fn write_row(&self, left: &mut [u32], slots: &mut [Slot])
        requires periods_in_bounds { length self.now.periods.now ≤ length left.old }
        requires by_index { (i : ℕ) → i < length self.now.periods.now → get_or left.old i 0 ≡ 0 }
        requires slots_len_bound { length slots.old ≤ most_span }
        ensures { slots.new ≡ column_row self.now.numbers.now self.now.periods.now self.now.windows.now
            self.now.ticks.now (length slots.old) }
    {
        let end = slots.len() as u32;
        let mut tick = 0;
        let mut soonest = 0;
        while tick < end {
            soonest = self.release_due(tick, soonest, end, left);
            let run = self.run_earliest(tick, soonest, left);
            let shown = slot_of(self.numbers, run.task);
            fill(slots, tick, run.end, shown);
            tick = run.end;
        }
    }
}

// The slots from one tick up to, but without, another.
fn fill(slots: &mut [Slot], from: u32, to: u32, slot: Slot)
    requires { (from ≤ to) × (to ≤ length slots.old) }
    ensures { Filled slots.old slots.new from to slot }
{
    slots[from as usize..to as usize].fill(slot);
}

// The first slots of the columns' tasks, as many as there is room for.
pub fn fill_row(
    numbers: &[Slot],
    periods: &[u32],
    windows: &[u32],
    ticks: &[u32],
    slots: &mut [Slot],
)
    requires columns_ok { ColumnsOk numbers.now periods.now windows.now ticks.now }
    requires slots_len_bound { length slots.old ≤ most_span }
    ensures { slots.new ≡ column_row numbers.now periods.now windows.now ticks.now
        (length slots.old) }
{
    let columns = Columns {
        numbers,
        periods,
        windows,
        ticks,
    };
    let mut left = [0; ranges::MOST_TASKS as usize];
    columns.write_row(&mut left, slots);
}
