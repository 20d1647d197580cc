// Tables with an entry for each set of items: the entries are raised by a relaxation, and are none where a set is not served. And the sets
// that the cores run of a plan.
#![tactic(auto)]

mod dropping;
mod lifting;
mod own;
mod sets;

pub use dropping::drop_unserved;
pub use lifting::{MOST_CORE_COST, lift_all};
pub use own::fill_own;
pub use sets::core_set;
