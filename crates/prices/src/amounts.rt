// Energy, penalty and cost of a plan, added up core by core and task by task.
ghost use Rattle.refusals.specs.Refusals.{accepted};
ghost use Rattle.std.specs.Prelude.{cond, ◌≡◌, ◌*◌, ◌-◌, ltb, length};
ghost use Rattle.instance.specs.Held.{Sound, problem_in};
ghost use Rattle.instance.specs.Node.{task_count};
ghost use Rattle.plan_rules.specs.Plans.{plan_passes};
ghost use Rattle.prices.specs.Prices.{core_energy, energy, penalty, price_of};

use instance::Instance;
use plan_rules::{kept_tasks, of_all_jobs};

// What a plan comes to over one span.
#[derive(Clone, Copy)]
pub struct Price {
    pub energy: u64,
    pub penalty: u64,
    pub cost: u64,
}

// What a core that keeps `kept` tasks draws in its idle ticks: nothing where it is off.
fn idle_energy(idle: u32, span: u32, kept: usize, load: u64) -> u64
    ensures { result ≡ idle * cond (ltb 0 kept) (span - load) 0 }
{
    if kept == 0 {
        return 0;
    }
    if span as u64 <= load {
        return 0;
    }
    idle as u64 * (span as u64 - load)
}

// What core k, counted from 0, draws in its busy ticks and in its idle ones.
fn core_energy(inst: Instance, plan: &[u32], k: usize) -> u64
    requires sound { Sound inst }
    requires plan_len { length plan.now ≡ task_count (problem_in inst) }
    ensures { result ≡ core_energy (problem_in inst) plan.now k }
{
    let kept = kept_tasks(inst, plan, k);
    let mut busy = 0;
    let mut load = 0;
    for j in 0..kept.count {
        let asked = of_all_jobs(inst.span, kept.periods[j], kept.ticks[j]);
        busy += asked * kept.powers[j] as u64;
        load += asked;
    }
    busy + idle_energy(inst.idle, inst.span, kept.count, load)
}

fn all_energy(inst: Instance, plan: &[u32]) -> u64
    requires sound { Sound inst }
    requires plan_len { length plan.now ≡ task_count (problem_in inst) }
    ensures { result ≡ energy (problem_in inst) plan.now }
{
    let cores = inst.cores as usize;
    let mut total = 0;
    for k in 0..cores {
        total += core_energy(inst, plan, k);
    }
    total
}

// The penalties of all jobs of the tasks that the plan refuses.
fn all_penalty(inst: Instance, plan: &[u32]) -> u64
    requires sound { Sound inst }
    requires plan_len { length plan.now ≡ task_count (problem_in inst) }
    ensures { result ≡ penalty (problem_in inst) plan.now }
{
    let mut penalty = 0;
    for i in 0..inst.taskcount {
        if plan[i] == 0 {
            let task = inst.tasks[i];
            penalty += of_all_jobs(inst.span, task.period, task.penalty);
        }
    }
    penalty
}

// The price of a plan that passes.
pub fn price_of(inst: Instance, plan: &[u32]) -> Price
    requires sound { Sound inst }
    requires plan_value { plan_passes (problem_in inst) plan.now ≡ accepted }
    ensures { result ≡ price_of (problem_in inst) plan.now }
{
    let energy = all_energy(inst, plan);
    let penalty = all_penalty(inst, plan);
    let cost = inst.weights.energy as u64 * energy + inst.weights.penalty as u64 * penalty;
    Price {
        energy,
        penalty,
        cost,
    }
}
