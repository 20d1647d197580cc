// A core of an accepted, fitting plan, prepared for the node's own loop.
ghost use Rattle.std.specs.Prelude.{◌&&◌, ◌≡◌, leb, ltb, length};
ghost use Rattle.instance.specs.Held.{Sound, problem_in};
ghost use Rattle.instance.specs.Node.{task_count};
ghost use Rattle.dispatcher.specs.Preparing.{HoldsCore, Prepares};

use instance::{Instance, read_instance};
use plan_rules::{kept_tasks, plan_passes};
use ranges::{MOST_TASKS, Slot};
use refusals::Refusal;

// The columns of the core's kept tasks, of which the first `count` places are filled, and the span.
#[repr(C)]
#[derive(Clone, Copy)]
pub struct PreparedCore {
    pub span: u32,
    pub count: usize,
    pub numbers: [Slot; MOST_TASKS as usize],
    pub periods: [u32; MOST_TASKS as usize],
    pub windows: [u32; MOST_TASKS as usize],
    pub ticks: [u32; MOST_TASKS as usize],
}

// Core k, counted from 0.
fn columns_of(inst: Instance, plan: &[u32], k: usize) -> PreparedCore
    requires sound { Sound inst }
    requires plan_len { length plan.now ≡ task_count (problem_in inst) }
    ensures { HoldsCore (problem_in inst) plan.now k result }
{
    let kept = kept_tasks(inst, plan, k);
    let numbers = kept.numbers;
    let periods = kept.periods;
    let windows = kept.windows;
    let ticks = kept.ticks;
    PreparedCore {
        span: inst.span,
        count: kept.count,
        numbers,
        periods,
        windows,
        ticks,
    }
}

// The cores are numbered from 1.
fn is_core(core: u32, cores: u32) -> bool
    ensures { result ≡ (ltb 0 core && leb core cores) }
{
    0 < core && core <= cores
}

// Prepares a core: the columns over which `dispatch_core` runs tick by tick.
pub fn prepare(instance: &[u32], plan: &[u32], core: u32) -> Result<PreparedCore, Refusal>
    ensures { Prepares instance.now plan.now core result }
{
    let inst = read_instance(instance)?;
    plan_passes(inst, plan)?;
    if !is_core(core, inst.cores) {
        return Err(Refusal::CoreOrState);
    }
    Ok(columns_of(inst, plan, core as usize - 1))
}
