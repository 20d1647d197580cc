// What a plan's choices name, what the tasks that it keeps ask of its cores, and which plans may be given.
#![tactic(auto)]

mod columns;
mod plan;
mod quantities;

pub use columns::{KeptTasks, kept_tasks};
pub use plan::{choices_pass, plan_passes};
pub use quantities::{core_of, jobs_in, level_of, of_all_jobs, ticks_of, window_of};
