// What the words of a site's file say: an instance, or a refusal.
#![tactic(auto)]

mod deadlines;
mod levels;
mod multiples;
mod site;
mod tasks;

pub use site::read_instance;

// A clock level: cycles run in a tick, and power drawn in a busy tick.
#[derive(Clone, Copy)]
pub struct Level {
    pub speed: u32,
    pub power: u32,
}

// A task: its period in ticks, the cycles of a job, the penalty for each job not run, and the ticks from a job's release to its
// due tick.
#[derive(Clone, Copy)]
pub struct Task {
    pub period: u32,
    pub cycles: u32,
    pub penalty: u32,
    pub deadline: u32,
}

#[derive(Clone, Copy)]
pub struct Weights {
    pub energy: u32,
    pub penalty: u32,
}

// An accepted instance; `idle` is the power that an awake core draws in an idle tick, `start` the ticks in which each job begins by
// setting the clock. Only the first `levelcount` levels and `taskcount` tasks are its own; the others are all zero.
#[derive(Clone, Copy)]
pub struct Instance {
    pub weights: Weights,
    pub cores: u32,
    pub idle: u32,
    pub start: u32,
    pub levelcount: usize,
    pub levels: [Level; ranges::MOST_LEVELS as usize],
    pub taskcount: usize,
    pub tasks: [Task; ranges::MOST_TASKS as usize],
    pub span: u32,
}
