// What a fixed generator draws: instances, and tables for their plans; and the tally of what was drawn.
#![tactic(auto)]

mod buffers;
mod deadlines;
mod draw;
mod idle;
mod instances;
mod other_tables;
mod site_words;
mod start;
pub mod tally;
mod words;

pub use buffers::{
    Choices, PLAN_ROOM, TABLE_ROOM, Table, draw_room, has_full_row, uses_other_cores,
};
pub use deadlines::{count_deadlines, end_of_tasks, has_early_deadlines};
pub use draw::Generator;
pub use idle::count_idle;
pub use instances::draw_instance;
pub use other_tables::fill_table;
pub use start::count_start;
pub use words::Words;
