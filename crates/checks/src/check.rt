// The whole check of a given table: 7, 9 and 10.
ghost use Rattle.std.specs.Prelude.{◌≡◌};
ghost use Rattle.instance.specs.Held.{Sound, problem_in};
ghost use Rattle.checks.specs.Checks.{check};
ghost use Rattle.checks.specs.Outcomes.{check_outcome, CheckingEnds};

use crate::jobs::jobs_pass;
use crate::slots::slot_check;
use dispatch::Slot;
use instance::{Instance, read_instance};
use refusals::Verdict;

// The second check of a table, for an instance that was read.
pub fn table_passes(inst: Instance, plan: &[u32], table: &[Slot]) -> Verdict
    requires { Sound inst }
    ensures { result ≡ check (problem_in inst) plan.now table.now }
{
    // Not by `?`: so the way out where a slot is refused has a place of its own, which an edit turns (must-fail/jobs_before_slots).
    match slot_check(inst, plan, table) {
        Ok(()) => jobs_pass(inst, plan, table),
        Err(refusal) => Err(refusal),
    }
}

// Whether a table is one of the plan's for the instance: every kept job has its ticks between release and due tick, and
// no other slot is taken.
pub fn check_table(instance: &[u32], plan: &[u32], table: &[Slot]) -> Verdict
    ensures value { result ≡ check_outcome instance.now plan.now table.now }
    ensures promise { CheckingEnds instance.now plan.now table.now result }
{
    table_passes(read_instance(instance)?, plan, table)
}
