// A dispatcher on the node: what a core runs, tick by tick, without a stored table.
#![tactic(auto)]

mod columns;
mod dispatching;
mod in_place;
mod preparing;
mod ticks;

pub use dispatching::{dispatch, dispatch_core};
pub use in_place::{TickAnswer, tick};
pub use preparing::{PreparedCore, prepare};
use refusals::Verdict;
pub use ticks::dispatch_prepared;

// Where a core's dispatching stands: the next tick; for each task, by its number, the ticks that its job has left; and the task that
// ran last, 0 for none.
#[repr(C)]
#[derive(Clone, Copy)]
pub struct DispatchState {
    pub tick: u32,
    pub left: [u32; ranges::MOST_TASKS as usize],
    pub last: u32,
}

// What a call answers: the task to run, 0 for none, and the next state; where it is refused, no task and the state as handed in.
#[derive(Clone, Copy)]
pub struct Dispatched {
    pub verdict: Verdict,
    pub task: u32,
    pub state: DispatchState,
}
