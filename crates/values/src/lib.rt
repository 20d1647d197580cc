// How the search holds values: the cost of a part of a plan, and the key that tells which of equally cheap parts comes first.
#![tactic(auto)]

mod limits;
mod powers;
mod value;

pub use limits::{
    ENTRIES, MOST_CAPACITY, MOST_CORES, MOST_COST, MOST_ITEMS, MOST_LEVELS, MOST_SETS, STRIDE,
};
pub use powers::{KEY_BASE, keys_of, sets_of};
pub use value::{NO_COST, Worth};
