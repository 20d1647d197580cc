// Parts of patterns on one core whose jobs are due at given ticks: the items that come first have their level, the others are still to
// have one. The steps from one part to the next, what is admitted, and what leaves a part out of a search.
#![tactic(auto)]

mod columns;
mod demand_rows;
mod dual_bound;
mod nodes;
mod servable;

pub use columns::{column_of, is_admitted};
pub use demand_rows::{ROW_WORDS, fill_rows, is_overdue};
pub use dual_bound::relaxed_is_cheaper;
use lagrangian::{Lagrangian, Timed};
pub use servable::{fewest_column, is_served};
use values::MOST_ITEMS;

// A part of a pattern: the items before `item` have their level, those of the set `rest` are still to have one, `item` from
// `level` on. What the part costs, its key, and the ticks of a job of each item.
#[derive(Clone, Copy)]
pub struct Node {
    pub item: usize,
    pub level: usize,
    pub rest: usize,
    pub cost: u64,
    pub key: u64,
    pub ticks: [u32; MOST_ITEMS],
}

// What leaves parts out of a search beside the table of lower values.
#[derive(Clone, Copy)]
pub struct Bounded {
    pub timed: Timed,
    pub relaxed: Lagrangian,
}
