// Which plans may be given: the refusals 7 and 8.
ghost use Rattle.std.specs.Prelude.{◌&&◌, ◌||◌, ◌≡◌, min, ltb, eqb, length};
ghost use Rattle.ranges.specs.Limits.{may_not_be_refused};
ghost use Rattle.instance.specs.Held.{Sound, problem_in};
ghost use Rattle.instance.specs.Node.{task_count};
ghost use Rattle.plan_rules.specs.Plans.{choices_pass, cores_fit, fits, plan_passes};

use crate::columns::kept_tasks;
use demand::unmet_tick;
use instance::Instance;
use ranges::MAY_NOT_BE_REFUSED;
use refusals::{Refusal, Verdict};

// Whether a choice is above every choice that names a core and a level, or refuses a task that may not be refused.
fn is_bad_choice(choice: u32, penalty: u32, most: u32) -> bool
    ensures { result ≡ (ltb most choice || (eqb choice 0 && eqb penalty may_not_be_refused)) }
{
    if choice == 0 {
        return penalty == MAY_NOT_BE_REFUSED;
    }
    most < choice
}

pub fn choices_pass(inst: Instance, plan: &[u32]) -> Verdict
    requires { Sound inst }
    ensures { result ≡ choices_pass (problem_in inst) plan.now }
{
    if plan.len() != inst.taskcount {
        return Err(Refusal::GivenPlan(plan.len().min(inst.taskcount)));
    }
    let most = inst.cores * (inst.levelcount as u32);
    for i in 0..inst.taskcount {
        let task = inst.tasks[i];
        if is_bad_choice(plan[i], task.penalty, most) {
            return Err(Refusal::GivenPlan(i));
        }
    }
    Ok(())
}

// Whether core k, counted from 0, fits.
fn core_fits(inst: Instance, plan: &[u32], k: usize) -> bool
    requires sound { Sound inst }
    requires plan_len { length plan.now ≡ task_count (problem_in inst) }
    ensures { result ≡ fits (problem_in inst) plan.now k }
{
    let kept = kept_tasks(inst, plan, k);
    let n = kept.count;
    let periods = kept.periods;
    let windows = kept.windows;
    let ticks = kept.ticks;
    unmet_tick(inst.span, &periods[..n], &windows[..n], &ticks[..n]).is_none()
}

fn cores_fit(inst: Instance, plan: &[u32]) -> Verdict
    requires sound { Sound inst }
    requires plan_len { length plan.now ≡ task_count (problem_in inst) }
    ensures { result ≡ cores_fit (problem_in inst) plan.now }
{
    let cores = inst.cores as usize;
    for k in 0..cores {
        if !core_fits(inst, plan, k) {
            return Err(Refusal::CoreOverloaded(k + 1));
        }
    }
    Ok(())
}

pub fn plan_passes(inst: Instance, plan: &[u32]) -> Verdict
    requires { Sound inst }
    ensures { result ≡ plan_passes (problem_in inst) plan.now }
{
    choices_pass(inst, plan)?;
    cores_fit(inst, plan)
}
