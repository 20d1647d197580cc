// What the listing program prints for a site's text.
#![tactic(auto)]

mod site;

pub use site::{MOST_LISTING, list_plan, list_site};
