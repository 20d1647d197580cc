// The test of a given table's jobs: the refusal 10.
ghost use Rattle.std.specs.Prelude.{◌≡◌, pred, ◌+◌, ◌*◌, ◌/◌, ◌≤◌, ◌<◌, length};
ghost use Rattle.instance.specs.Held.{Sound, problem_in};
ghost use Rattle.plan_rules.specs.AllowedPlans.{AllowedPlan};
ghost use Rattle.plan_rules.specs.Windows.{window};
ghost use Rattle.checks.specs.Checks.{jobs_pass};
ghost use Rattle.checks.specs.HeldJobs.{jobs_served, task_served};
ghost use Rattle.tables.specs.Tables.{table_size};

use dispatch::Slot;
use instance::{Instance, Task};
use job_counts::{CountKind, count_job};
use plan_rules::{core_of, jobs_in, level_of, ticks_of, window_of};
use refusals::{Refusal, Verdict};

// Whether the count of each of a task's jobs is right: `from` is the slot at which the first is released.
fn jobs_served(
    table: &[Slot],
    from: usize,
    number: Slot,
    period: usize,
    window: usize,
    jobs: usize,
    ticks: usize,
) -> bool
    requires window_le_period { window ≤ period }
    requires period_in_bounds { from + jobs * period ≤ length table.now }
    ensures { result ≡ jobs_served table.now from number period window jobs ticks }
{
    for j in 0..jobs {
        let release = from + j * period;
        let next = release + period;
        let counted = count_job(&table[release..next], number, window, ticks);
        let kind = counted.kind;
        let CountKind::Right = kind else {
            return false;
        };
    }
    true
}

// Whether a task is refused, or each of its jobs is served.
fn is_served(
    table: &[Slot],
    span: u32,
    levels: usize,
    number: Slot,
    choice: u32,
    task: Task,
    ticks: usize,
) -> bool
    requires levels_nonzero { 0 < levels }
    requires task_bound { window task ≤ task.period }
    requires span_in_bounds { pred choice / levels * span + span ≤ length table.now }
    ensures { result ≡ task_served table.now span levels number choice task.period (window task) ticks }
{
    if choice == 0 {
        return true;
    }
    let from = core_of(choice, levels) * span as usize;
    let jobs = jobs_in(span, task.period) as usize;
    let due = window_of(task) as usize;
    jobs_served(table, from, number, task.period as usize, due, jobs, ticks)
}

// The test of the jobs: none has more or fewer slots than its ticks.
pub(crate) fn jobs_pass(inst: Instance, plan: &[u32], table: &[Slot]) -> Verdict
    requires sound { Sound inst }
    requires allowed_plan { AllowedPlan (problem_in inst) plan.now }
    requires table_len { length table.now ≡ table_size (problem_in inst) }
    ensures { result ≡ jobs_pass (problem_in inst) plan.now table.now }
{
    let levels = inst.levelcount;
    let span = inst.span;
    for i in 0..inst.taskcount {
        let number = i + 1;
        let choice = plan[i];
        let task = inst.tasks[i];
        let level = inst.levels[level_of(choice, levels)];
        let ticks = ticks_of(inst.start, task.cycles, level.speed) as usize;
        if !is_served(table, span, levels, number as Slot, choice, task, ticks) {
            return Err(Refusal::JobSlots(number));
        }
    }
    Ok(())
}
