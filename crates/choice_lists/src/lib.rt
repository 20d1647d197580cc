// The choices of levels for each set of the first items, as lists.
#![tactic(auto)]

mod lists;
mod long;
mod points;
mod short;

pub use lists::{STARTS, list_front};
pub use points::NOTHING;
