// The slot table that a plan gives.
#![tactic(auto)]

mod table;

pub use table::{fill_table, table_size, tabulate};
