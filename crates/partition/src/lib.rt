// Sets of items over several cores, from the table of one core: the least values of all sets on some cores, and on all cores of
// what is kept.
#![tactic(auto)]

mod cores;
mod halves;
mod keeping;
mod near;
mod splits;

pub use cores::{fill_best, fill_weights};
pub use halves::{Halves, least_on_one, least_over_halves};
