// Ticks, jobs and windows of tasks, and what a choice names.
ghost use Rattle.std.specs.Prelude.{not, ◌&&◌, ◌≡◌, pred, ◌*◌, ◌/◌, ◌%◌, ◌<◌, ◌≤◌, eqb};
ghost use Rattle.ranges.specs.Limits.{most_cycles, most_start_ticks};
ghost use Rattle.plan_rules.specs.Quantities.{ticks};
ghost use Rattle.plan_rules.specs.Windows.{window};

use instance::Task;

// The ticks of a job: cycles divided by speed, rounded up, and the start ticks; these alone at no speed.
pub fn ticks_of(start: u32, cycles: u32, speed: u32) -> u32
    requires { (start ≤ most_start_ticks) × (cycles ≤ most_cycles) }
    ensures { result ≡ ticks start cycles speed }
{
    if speed == 0 {
        return start;
    }
    let raised = cycles as u64 + (speed as u64 - 1);
    (raised / speed as u64) as u32 + start
}

// The jobs that a span holds; none for a period of 0.
pub fn jobs_in(span: u32, period: u32) -> u32
    ensures { result ≡ span / period }
{
    if period == 0 {
        return 0;
    }
    span / period
}

// What all jobs in a span come to, at so much a job.
pub fn of_all_jobs(span: u32, period: u32, each: u32) -> u64
    ensures { result ≡ span / period * each }
{
    jobs_in(span, period) as u64 * each as u64
}

// From a job's release to its due tick.
pub fn window_of(task: Task) -> u32
    ensures { result ≡ window task }
{
    task.deadline
}

// The core that a choice names, counted from 0.
pub fn core_of(choice: u32, levels: usize) -> usize
    requires { 0 < levels }
    ensures { result ≡ pred choice / levels }
{
    if choice == 0 {
        return 0;
    }
    (choice - 1) as usize / levels
}

// Whether a choice names core k, counted from 0; 0 names none.
pub(crate) fn names_core(choice: u32, levels: usize, k: usize) -> bool
    requires { 0 < levels }
    ensures { result ≡ (not (eqb choice 0) && eqb (pred choice / levels) k) }
{
    if choice == 0 {
        return false;
    }
    core_of(choice, levels) == k
}

// The level that a choice names, counted from 0.
pub fn level_of(choice: u32, levels: usize) -> usize
    requires { 0 < levels }
    ensures { result ≡ pred choice % levels }
{
    if choice == 0 {
        return 0;
    }
    (choice - 1) as usize % levels
}
