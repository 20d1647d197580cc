// Planning an instance that is lent as words.
ghost use Rattle.std.specs.Prelude.{◌≡◌, Ok};
ghost use Rattle.instance.specs.Held.{Sound, problem_in};
ghost use Rattle.planner.specs.Outcomes.{plan_outcome, plan_outcome_of};
ghost use Rattle.planner.specs.PlanLaws.{plan_given};
ghost use Rattle.planner.specs.Planned.{Planned};

use crate::best::best_choices;
use instance::{Instance, read_instance};
use prices::{Price, price_of};
use refusals::Refusal;
use tables::{fill_table, table_size};

// Plans an instance that was read.
fn plan_read(inst: Instance, plan: &mut [u32], table: &mut [u8]) -> Result<Price, Refusal>
    requires { Sound inst }
    ensures { plan_given result plan.new table.new
        ≡ plan_outcome_of (Ok (problem_in inst)) plan.old table.old }
{
    let n = inst.taskcount;
    let size = table_size(inst);
    if plan.len() < n {
        return Err(Refusal::ShortBuffer(n));
    }
    if table.len() < size {
        return Err(Refusal::ShortBuffer(size));
    }
    best_choices(inst, plan).ok_or(Refusal::NoPlan)?;
    let chosen = &plan[..n];
    fill_table(inst, chosen, table);
    Ok(price_of(inst, chosen))
}

// Writes the plan of least cost and its table to the fronts of the lent buffers, and answers what the plan costs.
pub fn plan(instance: &[u32], plan: &mut [u32], table: &mut [u8]) -> Result<Price, Refusal>
    ensures value { result ≡ (plan_outcome instance.now plan.old table.old).answer }
    ensures plan_after { plan.new ≡ (plan_outcome instance.now plan.old table.old).plan }
    ensures table_after { table.new ≡ (plan_outcome instance.now plan.old table.old).table }
    ensures promise { Planned instance.now plan.old table.old result plan.new table.new }
{
    let inst = read_instance(instance)?;
    plan_read(inst, plan, table)
}
