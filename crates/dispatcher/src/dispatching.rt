// The dispatcher's call: a core of a plan, and where its dispatching stands.
ghost use Rattle.std.specs.Prelude.{◌≡◌};
ghost use Rattle.dispatcher.specs.Outcomes.{dispatch_outcome, DispatchingEnds};
ghost use Rattle.dispatcher.specs.Preparing.{core_outcome};

use crate::preparing::{PreparedCore, prepare};
use crate::ticks::{dispatch_prepared, refused};
use crate::{DispatchState, Dispatched};
use ranges::MOST_TASKS;
use refusals::Refusal;

// One tick of a prepared core. One with more tasks than places is none: 12.
pub fn dispatch_core(core: PreparedCore, state: DispatchState, ended: bool) -> Dispatched
    ensures { result ≡ core_outcome core state ended }
{
    let n = core.count;
    if (MOST_TASKS as usize) < n {
        return refused(Refusal::CoreOrState, state);
    }
    dispatch_prepared(
        &core.numbers[..n],
        &core.periods[..n],
        &core.windows[..n],
        &core.ticks[..n],
        core.span,
        state,
        ended,
    )
}

// Answers the task that runs on a core in the state's tick, and the next state. `ended` reports that the job which ran in the tick
// before has ended early.
pub fn dispatch(
    instance: &[u32],
    plan: &[u32],
    core: u32,
    state: DispatchState,
    ended: bool,
) -> Dispatched
    ensures value { result ≡ dispatch_outcome instance.now plan.now core state ended }
    ensures promise { DispatchingEnds instance.now plan.now core state ended result }
{
    match prepare(instance, plan, core) {
        Ok(prepared) => dispatch_core(prepared, state, ended),
        Err(refusal) => refused(refusal, state),
    }
}
