// The dispatcher's call over a state that is lent.
ghost use Rattle.dispatcher.specs.InPlace.{Ticked};

use crate::DispatchState;
use crate::dispatching::dispatch;
use refusals::Verdict;

// What a call answers where the next state takes the place of the one lent: the task to run, 0 for none.
#[derive(Clone, Copy)]
pub struct TickAnswer {
    pub verdict: Verdict,
    pub task: u32,
}

// The call by value, over a state that is lent: as before where it is refused, else the next one.
pub fn tick(
    instance: &[u32],
    plan: &[u32],
    core: u32,
    state: &mut DispatchState,
    ended: bool,
) -> TickAnswer
    ensures { Ticked instance.now plan.now core state.old ended result state.new }
{
    let answer = dispatch(instance, plan, core, *state, ended);
    *state = answer.state;
    TickAnswer {
        verdict: answer.verdict,
        task: answer.task,
    }
}
