// What is offered for an instance: what each task asks of a core and costs there, at each level, and what refusing it costs.
ghost use Rattle.std.specs.Prelude.{◌+◌, ◌-◌, ◌*◌, ◌≤◌, ◌<◌, ◌≡◌};
ghost use Rattle.instance.specs.Held.{Sound, problem_in};
ghost use Rattle.instance.specs.Node.{task_at, task_count};
ghost use Rattle.ranges.specs.Limits.{most_idle_power, most_levels, most_power, most_span, most_weight};
ghost use Rattle.offers.specs.OfferedOptions.{LevelsOffered, OptionsOffered};

use instance::{Instance, Task};
use plan_rules::{jobs_in, ticks_of};
use ranges::{MAY_NOT_BE_REFUSED, MOST_LEVELS, MOST_TASKS};
use values::STRIDE;

// One for each task and level: task i at level l has place i * STRIDE + l.
pub const OFFERS: usize = MOST_TASKS as usize * MOST_LEVELS as usize;

// What a load costs at a level of this power, alone on a core, where a core takes it. A load that no core takes is never
// chosen, and its cost need not fit 64 bits.
fn cost_of(weight: u32, span: u32, load: u64, power: u32, idle: u32) -> u64
    requires { (weight ≤ most_weight) × (span ≤ most_span) × (power ≤ most_power) × (idle ≤ most_idle_power) }
    ensures { load ≤ span → result ≡ weight * (load * power + idle * (span - load)) }
{
    let all = span as u64;
    if all < load {
        return 0;
    }
    weight as u64 * (load * power as u64 + idle as u64 * (all - load))
}

// What refusing a task costs that misses so many jobs.
fn refusal_of(weight: u32, missed: u32, penalty: u32) -> u64
    requires { (weight ≤ most_weight) × (missed ≤ most_span) }
    ensures { result ≡ weight * (missed * penalty) }
{
    weight as u64 * (missed as u64 * penalty as u64)
}

// Writes loads and costs of task i after those of the tasks before it.
fn fill_levels(
    inst: Instance,
    task: Task,
    i: usize,
    load: &mut [u64; OFFERS],
    cost: &mut [u64; OFFERS],
)
    requires sound { Sound inst }
    requires i_bound { i < task_count (problem_in inst) }
    requires task_value { task ≡ task_at (problem_in inst) i }
    requires levels_offered { LevelsOffered (problem_in inst) (i * most_levels) load.old cost.old }
    ensures { LevelsOffered (problem_in inst) (i * most_levels + most_levels) load.new cost.new }
{
    let jobs = jobs_in(inst.span, task.period);
    for l in 0..inst.levelcount {
        let level = inst.levels[l];
        let ticks = ticks_of(inst.start, task.cycles, level.speed);
        let asked = jobs as u64 * ticks as u64;
        let at = i * STRIDE + l;
        load[at] = asked;
        cost[at] = cost_of(
            inst.weights.energy,
            inst.span,
            asked,
            level.power,
            inst.idle,
        );
    }
}

// Writes what is offered for every task.
pub fn fill_options(
    inst: Instance,
    load: &mut [u64; OFFERS],
    cost: &mut [u64; OFFERS],
    refusal: &mut [u64; MOST_TASKS as usize],
    must: &mut [bool; MOST_TASKS as usize],
)
    requires sound { Sound inst }
    requires options_offered { OptionsOffered (problem_in inst) 0 load.old cost.old refusal.old must.old }
    ensures { OptionsOffered (problem_in inst) (task_count (problem_in inst))
        load.new cost.new refusal.new must.new }
{
    for i in 0..inst.taskcount {
        let task = inst.tasks[i];
        fill_levels(inst, task, i, load, cost);
        let missed = jobs_in(inst.span, task.period);
        refusal[i] = refusal_of(inst.weights.penalty, missed, task.penalty);
        must[i] = task.penalty == MAY_NOT_BE_REFUSED;
    }
}
