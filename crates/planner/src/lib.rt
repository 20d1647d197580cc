// Planning: of all plans that an instance allows, the one of least cost, with its table.
#![tactic(auto)]

mod best;
mod planning;

pub use planning::plan;
