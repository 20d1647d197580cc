// Opening hours: which plan a store runs on a day and at a minute of it, by a calendar of dated entries.
#![tactic(auto)]

mod asking;
mod dates;
mod entries;
mod first_days;
mod hours;

pub use asking::plan_at;

#[derive(Clone, Copy)]
pub struct Date {
    pub year: u32,
    pub month: u32,
    pub day: u32,
}

// From its date on, a plan that holds on each day from the opening minute up to, but without, the closing one.
#[derive(Clone, Copy)]
pub struct Entry {
    pub date: Date,
    pub opening: u32,
    pub closing: u32,
    pub plan: u32,
}

// The plan that holds, 0 for none, and the days to the next entry, 0 where none follows.
#[derive(Clone, Copy)]
pub struct PlanDays {
    pub plan: u32,
    pub days: u32,
}
