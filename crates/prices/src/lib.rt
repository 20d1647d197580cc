// What a plan costs: energy, penalty and cost.
#![tactic(auto)]

mod amounts;
mod pricing;

pub use amounts::{Price, price_of};
pub use pricing::price;
