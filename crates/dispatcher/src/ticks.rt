// One tick of a core whose tasks stand in columns.
ghost use Rattle.refusals.specs.Refusals.{accepted};
ghost use Rattle.std.specs.Prelude.{true, ◌&&◌, ◌≡◌, ◌-◌, ◌≤◌, ◌<◌, eqb, get_or, Err};
ghost use Rattle.laws.specs.Lists.{list_of};
ghost use Rattle.ranges.specs.Limits.{most_tasks};
ghost use Rattle.dispatch.specs.Rows.{after_run};
ghost use Rattle.dispatcher.specs.Columns.{numbered_tasks, tick_outcome};
ghost use Rattle.dispatcher.specs.States.{dispatched_where, state_fits};
ghost use Rattle.dispatcher.specs.Ticks.{ChosenColumn};

use crate::columns::{Columns, columns_fit};
use crate::{DispatchState, Dispatched};
use dispatch::slot_of;
use ranges::{MOST_TASKS, Slot};
use refusals::Refusal;
use tick_steps::{Best, due_at, earlier, is_over, is_released, next_tick, ready_ticks};

// The ticks left once an early end is applied and the jobs of a tick are released, and the column of the task that then runs, or none.
#[derive(Clone, Copy)]
struct Chosen {
    left: [u32; MOST_TASKS as usize],
    column: Option<usize>,
}

// A task runs for a tick; 0 is none.
fn run_task(left: &mut [u32; MOST_TASKS as usize], task: u32)
    requires task_le_most_tasks { task ≤ most_tasks }
    requires nonzero { 0 < task → 0 < get_or left.old (task - 1) 0 }
    ensures { left.new ≡ list_of (λ i. after_run task i (get_or left.old i 0)) most_tasks }
{
    if task != 0 {
        left[task as usize - 1] -= 1;
    }
}

impl Columns<'_> {
    // Applies an early end, releases the jobs of this tick and chooses.
    fn release_and_choose(&self, state: DispatchState, ended: bool) -> Chosen
        ensures { ChosenColumn self.now.numbers.now self.now.periods.now self.now.windows.now self.now.ticks.now state ended result }
    {
        let mut after = state.left;
        let mut best: Option<Best> = None;
        for (j, number) in self.numbers.iter().enumerate() {
            let number = *number as u32;
            let place = number as usize - 1;
            let released = is_released(self.periods[j], state.tick);
            let over = is_over(number, state.last, ended);
            let ready = ready_ticks(released, over, self.ticks[j], after[place]);
            after[place] = ready;
            best = earlier(
                best,
                j,
                ready,
                due_at(self.periods[j], self.windows[j], state.tick),
            );
        }
        Chosen {
            left: after,
            column: best.map(|best| best.column),
        }
    }

    // The call for a state that was tested.
    fn advance(&self, span: u32, state: DispatchState, ended: bool) -> Dispatched
        requires { state_fits (numbered_tasks self.now.numbers.now self.now.periods.now
            self.now.windows.now self.now.ticks.now) span state ≡ true }
        ensures { result ≡ dispatched_where accepted
            (numbered_tasks self.now.numbers.now self.now.periods.now self.now.windows.now self.now.ticks.now) span state ended }
    {
        let chosen = self.release_and_choose(state, ended);
        let task = slot_of(self.numbers, chosen.column) as u32;
        let mut left = chosen.left;
        run_task(&mut left, task);
        Dispatched {
            verdict: Ok(()),
            task,
            state: DispatchState {
                tick: next_tick(state.tick, span),
                left,
                last: task,
            },
        }
    }
}

// Whether an early end is reported where no task ran.
fn is_unfounded(last: u32, ended: bool) -> bool
    ensures { result ≡ (ended && eqb last 0) }
{
    ended && last == 0
}

pub(crate) fn refused(refusal: Refusal, state: DispatchState) -> Dispatched
    ensures { result ≡ record { verdict = Err refusal; task = 0; state = state } }
{
    Dispatched {
        verdict: Err(refusal),
        task: 0,
        state,
    }
}

// One tick of a prepared core. Columns that are no core's, or a state that is none of its own, are 12; an early end after an idle
// tick, or before the first, is 13.
pub fn dispatch_prepared(
    numbers: &[Slot],
    periods: &[u32],
    windows: &[u32],
    ticks: &[u32],
    span: u32,
    state: DispatchState,
    ended: bool,
) -> Dispatched
    ensures { result ≡ tick_outcome numbers.now periods.now windows.now ticks.now span state ended }
{
    if !columns_fit(numbers, periods, windows, ticks) {
        return refused(Refusal::CoreOrState, state);
    }
    let columns = Columns {
        numbers,
        periods,
        windows,
        ticks,
    };
    if !columns.state_fits(span, state) {
        return refused(Refusal::CoreOrState, state);
    }
    if is_unfounded(state.last, ended) {
        return refused(Refusal::EarlyEnd, state);
    }
    columns.advance(span, state, ended)
}
