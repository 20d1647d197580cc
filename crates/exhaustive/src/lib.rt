// A second planner, which tries every plan. It knows what a plan costs and which table it gives, and nothing of the search. Which plans
// fit it finds by itself.
#![tactic(auto)]

mod every;
mod fits;
mod site;
mod tried;

pub use every::plan;
pub use site::{Site, site_of};
pub use tried::Tried;
