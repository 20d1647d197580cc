// The knapsack of a set of items on one core, one item more at a time.
#![tactic(auto)]

mod relaxing;

pub use relaxing::{Choice, Core, Front};
