// The tasks that a plan keeps on one core, in columns.
ghost use Rattle.std.specs.Prelude.{◌≡◌, length};
ghost use Rattle.instance.specs.Held.{Sound, problem_in};
ghost use Rattle.instance.specs.Node.{task_count};
ghost use Rattle.plan_rules.specs.KeptColumns.{KeptColumns};

use crate::quantities::{level_of, names_core, ticks_of, window_of};
use dispatch::Slot;
use instance::Instance;

// The first `count` places of the columns are of a task each: its number, its period, the window and the ticks of a job, and
// the power of its level.
#[derive(Clone, Copy)]
pub struct KeptTasks {
    pub count: usize,
    pub numbers: [Slot; ranges::MOST_TASKS as usize],
    pub periods: [u32; ranges::MOST_TASKS as usize],
    pub windows: [u32; ranges::MOST_TASKS as usize],
    pub ticks: [u32; ranges::MOST_TASKS as usize],
    pub powers: [u32; ranges::MOST_TASKS as usize],
}

// The tasks that the plan keeps on core k, counted from 0, in ascending order.
pub fn kept_tasks(inst: Instance, plan: &[u32], k: usize) -> KeptTasks
    requires sound { Sound inst }
    requires plan_len { length plan.now ≡ task_count (problem_in inst) }
    ensures { KeptColumns (problem_in inst) plan.now k (task_count (problem_in inst)) result }
{
    let mut kept = KeptTasks {
        count: 0,
        numbers: [0; ranges::MOST_TASKS as usize],
        periods: [0; ranges::MOST_TASKS as usize],
        windows: [0; ranges::MOST_TASKS as usize],
        ticks: [0; ranges::MOST_TASKS as usize],
        powers: [0; ranges::MOST_TASKS as usize],
    };
    for i in 0..inst.taskcount {
        let choice = plan[i];
        if names_core(choice, inst.levelcount, k) {
            let task = inst.tasks[i];
            let level = inst.levels[level_of(choice, inst.levelcount)];
            let n = kept.count;
            kept.numbers[n] = (i + 1) as Slot;
            kept.periods[n] = task.period;
            kept.windows[n] = window_of(task);
            kept.ticks[n] = ticks_of(inst.start, task.cycles, level.speed);
            kept.powers[n] = level.power;
            kept.count = n + 1;
        }
    }
    kept
}
