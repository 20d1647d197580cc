// What an instance offers to the search: of each task its load and its cost at each level, what refusing it costs, and when its jobs are due.
#![tactic(auto)]

mod options;
mod timings;

pub use options::{OFFERS, fill_options};
pub use timings::{TIMINGS, fill_timings};
