// What an instance's words say.
use instance::{Instance, read_instance};
use refusals::Refusal;

// The sizes of an instance: tasks, ticks of the span, slots of a table, and the largest choice of a plan.
#[derive(Clone, Copy)]
pub struct Site {
    pub tasks: usize,
    pub span: u32,
    pub slots: usize,
    pub most: u32,
}

pub(crate) fn level_count(inst: &Instance) -> u32 {
    u32::try_from(inst.levelcount).unwrap_or(0)
}

fn sizes_of(inst: &Instance) -> Site {
    Site {
        tasks: inst.taskcount,
        span: inst.span,
        slots: inst.cores.wrapping_mul(inst.span) as usize,
        most: inst.cores.wrapping_mul(level_count(inst)),
    }
}

pub fn site_of(words: &[u32]) -> Result<Site, Refusal> {
    let inst = read_instance(words)?;
    Ok(sizes_of(&inst))
}
