// The best plan of an instance.
ghost use Rattle.std.specs.Prelude.{ℕ, ◌*◌, ◌≤◌, false, List, ◌≡◌, length, IfSome};
ghost use Rattle.ranges.specs.Limits.{most_levels};
ghost use Rattle.instance.specs.Held.{Sound, problem_in};
ghost use Rattle.instance.specs.Node.{span, task_count};
ghost use Rattle.instance.specs.Valid.{DueAtPeriodEnd};
ghost use Rattle.planner.specs.BestChoices.{found_of, chosen_onto};
ghost use Rattle.values.specs.BestKeys.{BestKey};
ghost use Rattle.partition.specs.Tables.{most_sets};
ghost use Rattle.planner.specs.FilledCores.{CoreFilled};
ghost use Rattle.offers.specs.OfferedOptions.{LevelsOffered, OptionsOffered};
ghost use Rattle.offers.specs.OptionsOf.{idle_cost, options_of};
ghost use Rattle.planner.specs.Planning.{best_plan};

use core_tables::charge_idle_once;
use instance::Instance;
use knapsack::Core;
use knapsack_tables::fill_knapsacks;
use light::light_plan;
use offers::{OFFERS, TIMINGS, fill_options, fill_timings};
use raising::{Site, cheapest_in_time};
use ranges::MOST_TASKS;
use search::{Shape, cheapest_plan, write_plan};
use values::{MOST_SETS, Worth};

// A core of the instance's speeds, for loads up to the ticks of a span.
fn core_of(inst: Instance) -> Core
    ensures { result ≡ record { levels = inst.levelcount; capacity = inst.span } }
{
    Core {
        levels: inst.levelcount,
        capacity: inst.span as usize,
    }
}

// What the idle ticks of a whole span cost.
fn idle_span_cost(inst: Instance) -> u64
    requires { Sound inst }
    ensures { result ≡ idle_cost (problem_in inst) * span (problem_in inst) }
{
    inst.weights.energy as u64 * inst.idle as u64 * inst.span as u64
}

// Fills the table of one core: for every set of tasks the least cost of running it there, idle ticks included.
fn fill_core_table(
    inst: Instance,
    load: &[u64],
    cost: &[u64],
    corecosts: &mut [u64],
    corekeys: &mut [u64],
)
    requires sound { Sound inst }
    requires due_at_period_end { DueAtPeriodEnd (problem_in inst).tasks }
    requires levels_offered { LevelsOffered (problem_in inst) (task_count (problem_in inst) * most_levels) load.now cost.now }
    requires most_sets_in_bounds { (most_sets ≤ length corecosts.old) × (most_sets ≤ length corekeys.old) }
    ensures { CoreFilled (problem_in inst) corecosts.old corekeys.old corecosts.new corekeys.new }
{
    let items = inst.taskcount;
    fill_knapsacks(core_of(inst), items, load, cost, corecosts, corekeys);
    charge_idle_once(items, idle_span_cost(inst), corecosts);
}

// The best plan from the table of one core.
fn search_cores(
    inst: Instance,
    load: &[u64],
    cost: &[u64],
    refusal: &[u64],
    must: &[bool],
    plan: &mut [u32],
) -> Option<u64>
    requires sound { Sound inst }
    requires due_at_period_end { DueAtPeriodEnd (problem_in inst).tasks }
    requires options_offered { OptionsOffered (problem_in inst) (task_count (problem_in inst)) load.now cost.now refusal.now must.now }
    requires inst_in_bounds { task_count (problem_in inst) ≤ length plan.old }
    ensures value { result ≡ found_of (problem_in inst) (best_plan (problem_in inst)) }
    ensures plan_after { plan.new ≡ chosen_onto (best_plan (problem_in inst)) plan.old }
{
    let mut corecosts = [0u64; MOST_SETS];
    let mut corekeys = [0u64; MOST_SETS];
    fill_core_table(inst, load, cost, &mut corecosts, &mut corekeys);
    let shape = Shape {
        items: inst.taskcount,
        cores: inst.cores as usize,
        levels: inst.levelcount,
    };
    cheapest_plan(shape, refusal, must, &corecosts, &corekeys, plan)
}

// The best plan of a light site, which needs no table; none is told where a table is needed. Idle power is shared by the tasks of a
// core, so that where there is any the cheapest choices of tasks alone say nothing.
fn light_best(
    inst: Instance,
    load: &[u64],
    cost: &[u64],
    refusal: &[u64],
    must: &[bool],
) -> Option<Worth>
    requires sound { Sound inst }
    requires due_at_period_end { DueAtPeriodEnd (problem_in inst).tasks }
    requires options_offered { OptionsOffered (problem_in inst) (task_count (problem_in inst)) load.now cost.now refusal.now must.now }
    ensures { IfSome result (BestKey (options_of (problem_in inst)) (task_count (problem_in inst))) }
{
    if 0 < inst.idle {
        return None;
    }
    light_plan(core_of(inst), inst.taskcount, load, cost, refusal, must)
}

// The best plan where no deadline is before its period's end.
fn best_by_load(
    inst: Instance,
    load: &[u64],
    cost: &[u64],
    refusal: &[u64],
    must: &[bool],
    plan: &mut [u32],
) -> Option<u64>
    requires sound { Sound inst }
    requires due_at_period_end { DueAtPeriodEnd (problem_in inst).tasks }
    requires options_offered { OptionsOffered (problem_in inst) (task_count (problem_in inst)) load.now cost.now refusal.now must.now }
    requires inst_in_bounds { task_count (problem_in inst) ≤ length plan.old }
    ensures value { result ≡ found_of (problem_in inst) (best_plan (problem_in inst)) }
    ensures plan_after { plan.new ≡ chosen_onto (best_plan (problem_in inst)) plan.old }
{
    if let Some(light) = light_best(inst, load, cost, refusal, must) {
        write_plan(inst.taskcount, light.key, plan);
        return Some(light.cost);
    }
    search_cores(inst, load, cost, refusal, must, plan)
}

// Whether some task is due before its period ends.
fn is_early(inst: Instance) -> bool
    requires { Sound inst }
    ensures { result ≡ false → DueAtPeriodEnd (problem_in inst).tasks }
{
    for i in 0..inst.taskcount {
        let task = inst.tasks[i];
        if task.deadline < task.period {
            return true;
        }
    }
    false
}

// The best plan where some task is due before its period ends.
fn best_in_time(
    inst: Instance,
    cost: &[u64],
    refusal: &[u64],
    must: &[bool],
    plan: &mut [u32],
) -> Option<u64>
    requires sound { Sound inst }
    requires by_index { (load : List ℕ) × OptionsOffered (problem_in inst) (task_count (problem_in inst)) load cost.now refusal.now must.now }
    requires inst_in_bounds { task_count (problem_in inst) ≤ length plan.old }
    ensures value { result ≡ found_of (problem_in inst) (best_plan (problem_in inst)) }
    ensures plan_after { plan.new ≡ chosen_onto (best_plan (problem_in inst)) plan.old }
{
    let mut timings = [0u32; TIMINGS];
    fill_timings(inst, &mut timings);
    let site = Site {
        items: inst.taskcount,
        cores: inst.cores as usize,
        levels: inst.levelcount,
        span: inst.span,
        whole: idle_span_cost(inst),
    };
    cheapest_in_time(site, &timings, cost, refusal, must, plan)
}

// Writes the best plan to the front of the buffer, or nothing where there is none.
pub(crate) fn best_choices(inst: Instance, plan: &mut [u32]) -> Option<u64>
    requires sound { Sound inst }
    requires inst_in_bounds { task_count (problem_in inst) ≤ length plan.old }
    ensures value { result ≡ found_of (problem_in inst) (best_plan (problem_in inst)) }
    ensures plan_after { plan.new ≡ chosen_onto (best_plan (problem_in inst)) plan.old }
{
    let mut load = [0; OFFERS];
    let mut cost = [0; OFFERS];
    let mut refusal = [0; MOST_TASKS as usize];
    let mut must = [false; MOST_TASKS as usize];
    fill_options(inst, &mut load, &mut cost, &mut refusal, &mut must);
    if is_early(inst) {
        return best_in_time(inst, &cost, &refusal, &must, plan);
    }
    best_by_load(inst, &load, &cost, &refusal, &must, plan)
}
