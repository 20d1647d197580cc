// The test of a given table's length and slots: the refusal 9, after 7.
ghost use Rattle.std.specs.Prelude.{◌≡◌, ◌<◌};
ghost use Rattle.instance.specs.Held.{Sound, problem_in};
ghost use Rattle.checks.specs.Checks.{slot_check, slots_pass};
ghost use Rattle.checks.specs.Outcomes.{slot_check_outcome, SlotCheckingEnds};
ghost use Rattle.checks.specs.HeldSlots.{is_stray, slots_named};

use dispatch::Slot;
use instance::{Instance, read_instance};
use plan_rules::{choices_pass, core_of};
use refusals::{Refusal, Verdict};
use tables::table_size;

// Whether a slot of core k, counted from 0, is not 0 and names no task that is kept there.
fn is_stray(plan: &[u32], levels: usize, k: usize, slot: Slot) -> bool
    requires { 0 < levels }
    ensures { result ≡ is_stray plan.now levels k slot }
{
    if slot == 0 {
        return false;
    }
    let i = slot as usize - 1;
    if i < plan.len() {
        let choice = plan[i];
        return choice == 0 || core_of(choice, levels) != k;
    }
    true
}

// The test of the slots, where a table has as many as it must: x is the slot that is looked at, k the core that it is of,
// and left how many of its core's slots are not yet looked at.
fn slots_named(plan: &[u32], levels: usize, span: usize, table: &[Slot]) -> Verdict
    requires levels_nonzero { 0 < levels }
    requires span_nonzero { 0 < span }
    ensures { result ≡ slots_named plan.now levels span table.now }
{
    let mut k = 0;
    let mut left = span;
    for x in 0..table.len() {
        if left == 0 {
            k += 1;
            left = span;
        }
        if is_stray(plan, levels, k, table[x]) {
            return Err(Refusal::GivenTable(x));
        }
        left -= 1;
    }
    Ok(())
}

fn slots_pass(inst: Instance, plan: &[u32], table: &[Slot]) -> Verdict
    requires { Sound inst }
    ensures { result ≡ slots_pass (problem_in inst) plan.now table.now }
{
    let size = table_size(inst);
    if table.len() == size {
        return slots_named(plan, inst.levelcount, inst.span as usize, table);
    }
    Err(Refusal::GivenTable(table.len().min(size)))
}

// The first check of a table, for an instance that was read.
pub(crate) fn slot_check(inst: Instance, plan: &[u32], table: &[Slot]) -> Verdict
    requires { Sound inst }
    ensures { result ≡ slot_check (problem_in inst) plan.now table.now }
{
    choices_pass(inst, plan)?;
    slots_pass(inst, plan, table)
}

// Whether a table is as long as it must be for the instance, and each of its slots is 0 or names a task that the plan keeps
// on that slot's core.
pub fn check_slots(instance: &[u32], plan: &[u32], table: &[Slot]) -> Verdict
    ensures value { result ≡ slot_check_outcome instance.now plan.now table.now }
    ensures promise { SlotCheckingEnds instance.now plan.now table.now result }
{
    slot_check(read_instance(instance)?, plan, table)
}
