// The knapsacks of all sets of items on one core, as tables.
#![tactic(auto)]

mod filling;
mod front;

pub use filling::fill_knapsacks;
