// Reading, planning, checking, reckoning sleeps, dispatching, listing and asking a calendar for a program in C, over the bytes of a text: a choice is one byte there, and so is a slot.
#![tactic(auto)]

mod checking;
mod choices;
mod dispatching;
mod hours;
mod listing;
mod nodes;
mod planning;
mod reading;
mod sleeping;
mod words;

pub use checking::{towhepamu_check, towhepamu_check_slots};
pub use dispatching::towhepamu_dispatch;
pub use hours::towhepamu_calendar;
pub use listing::towhepamu_list;
pub use nodes::{PreparedNode, towhepamu_prepare, towhepamu_tick};
pub use planning::towhepamu_plan;
pub use reading::towhepamu_read;
pub use sleeping::towhepamu_sleep;
