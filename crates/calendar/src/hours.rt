// What rules on a day and at a minute, as one entry after the other is taken.
ghost use Rattle.std.specs.Prelude.{◌≤◌, ◌≡◌};
ghost use Rattle.calendar.specs.Dates.{day_number};
ghost use Rattle.calendar.specs.Hours.{plan_of};
ghost use Rattle.calendar.specs.Sections.{days_or_to, ruled_with};

use crate::{Entry, PlanDays};

// The entry's plan while it is open, else 0.
fn plan_of(entry: Entry, minute: u32) -> u32
    ensures { result ≡ plan_of minute entry }
{
    if minute < entry.opening {
        return 0;
    }
    if entry.closing <= minute {
        return 0;
    }
    entry.plan
}

// The days to the first later entry: `days` where there was one before this one.
fn days_to_later(days: u32, number: u32, asked: u32) -> u32
    requires { asked ≤ number }
    ensures { result ≡ days_or_to days number asked }
{
    if days == 0 {
        return number - asked;
    }
    days
}

// What rules with one entry more, whose day is `number`. An entry of the day asked about has begun, and is not later.
pub(crate) fn ruled_with(
    ruled: PlanDays,
    entry: Entry,
    number: u32,
    asked: u32,
    minute: u32,
) -> PlanDays
    requires { number ≡ day_number entry.date }
    ensures { result ≡ ruled_with asked minute ruled entry }
{
    if number <= asked {
        let plan = plan_of(entry, minute);
        return PlanDays {
            plan,
            days: ruled.days,
        };
    }
    let days = days_to_later(ruled.days, number, asked);
    PlanDays {
        plan: ruled.plan,
        days,
    }
}
