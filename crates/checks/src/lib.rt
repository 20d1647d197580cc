// The checks of a given table: of its slots alone, and of its slots and jobs.
#![tactic(auto)]

mod check;
mod jobs;
mod slots;

pub use check::{check_table, table_passes};
pub use slots::check_slots;
