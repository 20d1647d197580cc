// What the gaps of a table are worth: for each core, the least idle energy and how often to sleep.
#![tactic(auto)]

mod reckoning;
mod rows;

pub use reckoning::sleep;
