// A core that a program in C prepares once for its own loop, and a tick over it.
ghost use Rattle.std.specs.Prelude.{◌≡◌};
ghost use Rattle.dispatcher.specs.Preparing.{Prepares};
ghost use Rattle.towhepamu.specs.PreparedNodes.{NodeTicks, PreparesNode, TextPrepares};

use crate::choices::with_front;
use crate::words::with_words;
use answers::{Checked, TaskToRun, checked_of, task_to_run};
use dispatcher::{DispatchState, PreparedCore, dispatch_core, prepare};
use ranges::MOST_TASKS;
use refusals::Refusal;

// A prepared core, and where its dispatching stands.
#[repr(C)]
#[derive(Clone, Copy)]
pub struct PreparedNode {
    pub core: PreparedCore,
    pub state: DispatchState,
}

fn prepare_words(words: &[u32], plan: &[u8], core: u32) -> Result<PreparedCore, Refusal>
    ensures { Prepares words.now plan.now core result }
{
    with_front(plan, |choices| prepare(words, choices, core))
}

fn prepare_text(text: &[u8], plan: &[u8], core: u32) -> Result<PreparedCore, Refusal>
    ensures { TextPrepares text.now plan.now core result }
{
    with_words(text, |words| prepare_words(words?, plan, core))
}

// Prepares a core of a plan for the instance that a text is: with a fresh start it takes the place of the node lent, which stays as
// it was where the core is refused.
pub fn towhepamu_prepare(text: &[u8], plan: &[u8], core: u32, node: &mut PreparedNode) -> Checked
    ensures { PreparesNode text.now plan.now core node.old result node.new }
{
    match prepare_text(text, plan, core) {
        Ok(prepared) => {
            *node = PreparedNode {
                core: prepared,
                state: DispatchState {
                    tick: 0,
                    left: [0; MOST_TASKS as usize],
                    last: 0,
                },
            };
            checked_of(Ok(()))
        }
        Err(refusal) => checked_of(Err(refusal)),
    }
}

// The task that runs in the node's tick; the next state takes the place of the one there.
pub fn towhepamu_tick(node: &mut PreparedNode, ended: bool) -> TaskToRun
    ensures { NodeTicks node.old ended result node.new }
{
    let dispatched = dispatch_core(node.core, node.state, ended);
    node.state = dispatched.state;
    task_to_run(dispatched.verdict, dispatched.task)
}
