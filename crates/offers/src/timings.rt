// What the search is told of when jobs are due: for each task its period, its window, and the ticks of a job at each level.
ghost use Rattle.std.specs.Prelude.{◌≡◌, ◌+◌, ◌*◌, ◌≤◌, ◌<◌};
ghost use Rattle.instance.specs.Held.{Sound, problem_in};
ghost use Rattle.instance.specs.Node.{level_count, task_at, task_count};
ghost use Rattle.ranges.specs.Limits.{most_cycles};
ghost use Rattle.lagrangian.specs.TimedCores.{timing_width};
ghost use Rattle.offers.specs.TimedOptions.{TimingsOffered, word_of};

use instance::{Instance, Task};
use lagrangian::TIMING_WIDTH;
use plan_rules::{ticks_of, window_of};
use ranges::MOST_TASKS;

pub const TIMINGS: usize = MOST_TASKS as usize * TIMING_WIDTH;

// Word w of a task's timing.
fn timing_word(inst: Instance, task: Task, w: usize) -> u32
    requires sound { Sound inst }
    requires cycles_le_most_cycles { task.cycles ≤ most_cycles }
    requires w_bound { w < level_count (problem_in inst) + 2 }
    ensures { result ≡ word_of (problem_in inst) task w }
{
    if w == 0 {
        return task.period;
    }
    if w == 1 {
        return window_of(task);
    }
    let level = inst.levels[w - 2];
    ticks_of(inst.start, task.cycles, level.speed)
}

// Writes the timing of task i after those of the tasks before it.
fn fill_timing(inst: Instance, task: Task, i: usize, timings: &mut [u32; TIMINGS])
    requires sound { Sound inst }
    requires i_bound { i < task_count (problem_in inst) }
    requires task_value { task ≡ task_at (problem_in inst) i }
    requires timings_offered { TimingsOffered (problem_in inst) (i * timing_width) timings.old }
    ensures { TimingsOffered (problem_in inst) (i * timing_width + timing_width) timings.new }
{
    let words = inst.levelcount + 2;
    for w in 0..words {
        timings[i * TIMING_WIDTH + w] = timing_word(inst, task, w);
    }
}

// Writes the timing of every task.
pub fn fill_timings(inst: Instance, timings: &mut [u32; TIMINGS])
    requires sound { Sound inst }
    requires timings_offered { TimingsOffered (problem_in inst) 0 timings.old }
    ensures { TimingsOffered (problem_in inst) (task_count (problem_in inst) * timing_width) timings.new }
{
    for i in 0..inst.taskcount {
        let task = inst.tasks[i];
        fill_timing(inst, task, i, timings);
    }
}
