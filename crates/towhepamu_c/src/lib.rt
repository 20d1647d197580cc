// The calls of `towhepamu` for a program in C, each under its own name and with its own contract.
#![tactic(auto)]

ghost use Rattle.std.specs.Prelude.{◌≡◌};
ghost use Rattle.answers.specs.Answers.{site_of, planned_of, checked_of, listed_of, ruled_of};
ghost use Rattle.calendar.specs.Dates.{date};
ghost use Rattle.listings.specs.Outcomes.{list_outcome};
ghost use Rattle.towhepamu.specs.CallOutcomes.{text_read_outcome, text_plan_outcome, text_slot_check_outcome, text_check_outcome, text_sleep_outcome, TextDispatches, text_plan_at_outcome};
ghost use Rattle.towhepamu.specs.PreparedNodes.{PreparesNode, NodeTicks};

use answers::{Checked, Listed, Planned, Ruled, Site, TaskToRun};
use dispatcher::DispatchState;
use towhepamu::PreparedNode;

#[unsafe(no_mangle)]
pub extern "C" fn towhepamu_read(text: &[u8]) -> Site
    ensures { result ≡ site_of (text_read_outcome text.now) }
{
    towhepamu::towhepamu_read(text)
}

#[unsafe(no_mangle)]
pub extern "C" fn towhepamu_plan(text: &[u8], plan: &mut [u8], table: &mut [u8]) -> Planned
    ensures value { result ≡ planned_of (text_plan_outcome text.now plan.old table.old).answer }
    ensures plan_after { plan.new ≡ (text_plan_outcome text.now plan.old table.old).plan }
    ensures table_after { table.new ≡ (text_plan_outcome text.now plan.old table.old).table }
{
    towhepamu::towhepamu_plan(text, plan, table)
}

#[unsafe(no_mangle)]
pub extern "C" fn towhepamu_check_slots(text: &[u8], plan: &[u8], table: &[u8]) -> Checked
    ensures { result ≡ checked_of (text_slot_check_outcome text.now plan.now table.now) }
{
    towhepamu::towhepamu_check_slots(text, plan, table)
}

#[unsafe(no_mangle)]
pub extern "C" fn towhepamu_check(text: &[u8], plan: &[u8], table: &[u8]) -> Checked
    ensures { result ≡ checked_of (text_check_outcome text.now plan.now table.now) }
{
    towhepamu::towhepamu_check(text, plan, table)
}

#[unsafe(no_mangle)]
pub extern "C" fn towhepamu_sleep(
    text: &[u8],
    plan: &[u8],
    table: &[u8],
    switching_energy: u32,
    switching_time: u32,
    energies: &mut [u64],
    sleeps: &mut [u32],
) -> Checked
    ensures value { result ≡ checked_of (text_sleep_outcome text.now plan.now table.now switching_energy switching_time
        energies.old sleeps.old).answer }
    ensures energies_after { energies.new
        ≡ (text_sleep_outcome text.now plan.now table.now switching_energy switching_time
        energies.old sleeps.old).energies }
    ensures sleeps_after { sleeps.new
        ≡ (text_sleep_outcome text.now plan.now table.now switching_energy switching_time
        energies.old sleeps.old).sleeps }
{
    towhepamu::towhepamu_sleep(
        text,
        plan,
        table,
        switching_energy,
        switching_time,
        energies,
        sleeps,
    )
}

#[unsafe(no_mangle)]
pub extern "C" fn towhepamu_dispatch(
    text: &[u8],
    plan: &[u8],
    core: u32,
    state: &mut DispatchState,
    ended: bool,
) -> TaskToRun
    ensures { TextDispatches text.now plan.now core state.old ended result state.new }
{
    towhepamu::towhepamu_dispatch(text, plan, core, state, ended)
}

#[unsafe(no_mangle)]
pub extern "C" fn towhepamu_prepare(
    text: &[u8],
    plan: &[u8],
    core: u32,
    node: &mut PreparedNode,
) -> Checked
    ensures { PreparesNode text.now plan.now core node.old result node.new }
{
    towhepamu::towhepamu_prepare(text, plan, core, node)
}

#[unsafe(no_mangle)]
pub extern "C" fn towhepamu_tick(node: &mut PreparedNode, ended: bool) -> TaskToRun
    ensures { NodeTicks node.old ended result node.new }
{
    towhepamu::towhepamu_tick(node, ended)
}

#[unsafe(no_mangle)]
pub extern "C" fn towhepamu_list(text: &[u8], out: &mut [u8]) -> Listed
    ensures value { result ≡ listed_of (list_outcome text.now out.old).answer }
    ensures out_after { out.new ≡ (list_outcome text.now out.old).out }
{
    towhepamu::towhepamu_list(text, out)
}

#[unsafe(no_mangle)]
pub extern "C" fn towhepamu_calendar(
    text: &[u8],
    year: u32,
    month: u32,
    day: u32,
    minute: u32,
) -> Ruled
    ensures { result ≡ ruled_of (text_plan_at_outcome text.now (date year month day) minute) }
{
    towhepamu::towhepamu_calendar(text, year, month, day, minute)
}
