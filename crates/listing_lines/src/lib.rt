// The lines of a listing, put into a lent buffer: of refusals, prices, tasks and cores.
#![tactic(auto)]

mod bytes;
mod cores;
mod lines;
mod plans;
mod tasks;

pub use lines::put_refusal;
pub use plans::put_plan;
