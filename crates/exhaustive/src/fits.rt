// Whether a plan's cores fit, tick by tick: what is due by a tick may not be more than the ticks up to it. This is the paper's test at
// its plainest, and shares nothing with the test that pricing makes.
ghost use Rattle.std.specs.Prelude.{◌≤◌, length};

use crate::site::level_count;
use instance::{Instance, Task};

const MOST_TASKS: usize = ranges::MOST_TASKS as usize;

// The ticks of a job on a core, where the task is kept there.
fn ticks_on(inst: &Instance, task: Task, choice: u32, core: u32) -> Option<u32> {
    let place = choice.checked_sub(1)?;
    let levels = level_count(inst);
    if place.checked_div(levels)? != core {
        return None;
    }
    let level = inst.levels.get(place.checked_rem(levels)? as usize)?;
    if level.speed == 0 {
        return None;
    }
    Some(task.cycles.div_ceil(level.speed).wrapping_add(inst.start))
}

// Whether a job of a task is due at a tick: its first at the deadline, the others a period after another.
fn is_due(task: Task, tick: u32) -> bool {
    match tick.checked_sub(task.deadline) {
        Some(after) => after.is_multiple_of(task.period),
        None => false,
    }
}

// The ticks of the jobs that are due at a tick.
fn due_at(tasks: &[Task], ticks: &[u32], tick: u32) -> u64 {
    let mut due: u64 = 0;
    for (task, ticks) in tasks.iter().zip(ticks) {
        if 0 < *ticks && is_due(*task, tick) {
            due = due.wrapping_add(u64::from(*ticks));
        }
    }
    due
}

// Whether tasks fit of which each has jobs of so many ticks, 0 where it is not kept.
fn tasks_fit(tasks: &[Task], ticks: &[u32], span: u32) -> bool {
    let mut due: u64 = 0;
    for tick in 1..=span {
        due = due.wrapping_add(due_at(tasks, ticks, tick));
        if u64::from(tick) < due {
            return false;
        }
    }
    true
}

fn core_fits(inst: &Instance, choices: &[u32], core: u32) -> bool
    requires { length choices.now ≤ 12 }
{
    let tasks = &inst.tasks[..choices.len()];
    let mut all = [0; MOST_TASKS];
    let ticks = &mut all[..choices.len()];
    for ((ticks, task), choice) in ticks.iter_mut().zip(tasks).zip(choices) {
        *ticks = ticks_on(inst, *task, *choice, core).unwrap_or(0);
    }
    tasks_fit(tasks, ticks, inst.span)
}

// The lowest core that does not fit, from 1.
pub(crate) fn unfit_core(inst: &Instance, choices: &[u32]) -> Option<u32>
    requires { length choices.now ≤ 12 }
{
    (0..inst.cores)
        .find(|core| !core_fits(inst, choices, *core))
        .map(|core| core.wrapping_add(1))
}
