// The dispatcher's call for the instance that a text is.
ghost use Rattle.std.specs.Prelude.{◌≡◌};
ghost use Rattle.dispatcher.specs.Outcomes.{dispatch_outcome};
ghost use Rattle.towhepamu.specs.CallOutcomes.{TextDispatches, text_dispatch_outcome};

use crate::choices::with_front;
use crate::words::with_words;
use answers::{TaskToRun, task_to_run};
use dispatcher::{DispatchState, Dispatched, dispatch};

fn dispatch_words(
    words: &[u32],
    plan: &[u8],
    core: u32,
    state: DispatchState,
    ended: bool,
) -> Dispatched
    ensures { result ≡ dispatch_outcome words.now plan.now core state ended }
{
    with_front(plan, |choices| {
        dispatch(words, choices, core, state, ended)
    })
}

fn dispatch_text(
    text: &[u8],
    plan: &[u8],
    core: u32,
    state: DispatchState,
    ended: bool,
) -> Dispatched
    ensures { result ≡ text_dispatch_outcome text.now plan.now core state ended }
{
    with_words(text, |words| match words {
        Ok(words) => dispatch_words(words, plan, core, state, ended),
        Err(refusal) => Dispatched {
            verdict: Err(refusal),
            task: 0,
            state,
        },
    })
}

// The task that runs on a core in the state's tick; the next state takes the place of the one lent.
pub fn towhepamu_dispatch(
    text: &[u8],
    plan: &[u8],
    core: u32,
    state: &mut DispatchState,
    ended: bool,
) -> TaskToRun
    ensures { TextDispatches text.now plan.now core state.old ended result state.new }
{
    let dispatched = dispatch_text(text, plan, core, *state, ended);
    *state = dispatched.state;
    task_to_run(dispatched.verdict, dispatched.task)
}
