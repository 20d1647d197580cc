// Calls of the dispatcher.
use crate::show;
use dispatcher::{DispatchState, dispatch};
use printing::print_list;
use refusals::Verdict;
use std::io;

const MOST_TASKS: usize = ranges::MOST_TASKS as usize;

// Prints the task that a call answers, or the number of its refusal.
fn print_answer(rt: &impl Print, verdict: Verdict, task: u32) -> io::Result<()> {
    match verdict {
        Ok(()) => print!(rt; " {task}"),
        Err(why) => print!(rt; " refused {}", why.number()),
    }
}

// Calls one after another, the first in a fresh start; a report other than 0 is an early end.
pub(crate) fn calls(
    rt: &impl Print,
    words: &[u32],
    core: u32,
    plan: &[u32],
    reports: &[u32],
) -> io::Result<()> {
    let mut state = DispatchState {
        tick: 0,
        left: [0; MOST_TASKS],
        last: 0,
    };
    rt.print("tasks")?;
    for report in reports {
        let called = dispatch(words, plan, core, state, *report != 0);
        print_answer(rt, called.verdict, called.task)?;
        state = called.state;
    }
    println!(rt)
}

fn print_state(rt: &impl Print, state: &DispatchState) -> io::Result<()> {
    print!(rt; "tick {} last {} left", state.tick, state.last)?;
    print_list(rt, &state.left)?;
    println!(rt)
}

// The numbers at the front, and 0 after them; all 0 where there are more than tasks.
pub(crate) fn left_of(given: &[u32]) -> [u32; MOST_TASKS] {
    let mut left = [0; MOST_TASKS];
    if let Some(front) = left.get_mut(..given.len()) {
        front.copy_from_slice(given);
    }
    left
}

// One call, with the state after it; a report other than 0 is an early end.
pub(crate) fn one_call(
    rt: &impl Print,
    words: &[u32],
    core: u32,
    plan: &[u32],
    state: DispatchState,
    report: u32,
) -> io::Result<()> {
    let called = dispatch(words, plan, core, state, report != 0);
    show::verdict(rt, called.verdict, "accepted\n")?;
    print!(rt; "task {} ", called.task)?;
    print_state(rt, &called.state)
}
