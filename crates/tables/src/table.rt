// The slot table of a plan.
ghost use Rattle.std.specs.Prelude.{◌≡◌, ◌≤◌, length};
ghost use Rattle.ranges.specs.Limits.{most_span};
ghost use Rattle.laws.specs.Lists.{onto};
ghost use Rattle.instance.specs.Held.{Sound, problem_in};
ghost use Rattle.instance.specs.Node.{task_count};
ghost use Rattle.dispatch.specs.Rows.{row};
ghost use Rattle.tables.specs.Outcomes.{table_outcome, TablingEnds};
ghost use Rattle.plan_rules.specs.CoreOfPlan.{core_tasks};
ghost use Rattle.tables.specs.Tables.{table_of, table_size};

use dispatch::{Slot, fill_row};
use instance::{Instance, read_instance};
use plan_rules::{kept_tasks, plan_passes};
use refusals::{Refusal, Verdict};

// The row of core k, counted from 0.
fn fill_core(inst: Instance, plan: &[u32], k: usize, slots: &mut [Slot])
    requires sound { Sound inst }
    requires plan_len { length plan.now ≡ task_count (problem_in inst) }
    requires slots_len_bound { length slots.old ≤ most_span }
    ensures { slots.new ≡ row (core_tasks (problem_in inst) plan.now k) (length slots.old) }
{
    let kept = kept_tasks(inst, plan, k);
    let n = kept.count;
    let numbers = kept.numbers;
    let periods = kept.periods;
    let windows = kept.windows;
    let ticks = kept.ticks;
    fill_row(
        &numbers[..n],
        &periods[..n],
        &windows[..n],
        &ticks[..n],
        slots,
    );
}

// The slots of a table.
pub fn table_size(inst: Instance) -> usize
    requires { Sound inst }
    ensures { result ≡ table_size (problem_in inst) }
{
    inst.cores as usize * inst.span as usize
}

// Writes the rows of all cores, one after another, to the front of the table.
pub fn fill_table(inst: Instance, plan: &[u32], table: &mut [Slot])
    requires sound { Sound inst }
    requires plan_len { length plan.now ≡ task_count (problem_in inst) }
    requires inst_in_bounds { table_size (problem_in inst) ≤ length table.old }
    ensures { table.new ≡ onto (table_of (problem_in inst) plan.now) table.old }
{
    let cores = inst.cores as usize;
    let span = inst.span as usize;
    for k in 0..cores {
        let from = k * span;
        let to = from + span;
        fill_core(inst, plan, k, &mut table[from..to]);
    }
}

// Writes the table of a plan, one byte a slot.
pub fn tabulate(instance: &[u32], plan: &[u32], table: &mut [u8]) -> Verdict
    ensures value { result ≡ (table_outcome instance.now plan.now table.old).answer }
    ensures table_after { table.new ≡ (table_outcome instance.now plan.now table.old).table }
    ensures promise { TablingEnds instance.now plan.now table.old result table.new }
{
    let inst = read_instance(instance)?;
    let size = table_size(inst);
    if table.len() < size {
        return Err(Refusal::ShortBuffer(size));
    }
    plan_passes(inst, plan)?;
    fill_table(inst, plan, table);
    Ok(())
}
