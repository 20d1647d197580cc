// The Gregorian calendar of 2000 to 2099.
ghost use Rattle.std.specs.Prelude.{◌≤◌, ◌<◌, ◌≡◌};
ghost use Rattle.ranges.specs.Limits.{months};
ghost use Rattle.calendar.specs.Dates.{is_leap, february_length, month_length, first_day, day_number, InCentury};

use crate::Date;
use crate::first_days::FIRST_DAYS;

fn is_leap(year: u32) -> bool
    ensures { result ≡ is_leap year }
{
    if year % 400 == 0 {
        return true;
    }
    if year % 100 == 0 {
        return false;
    }
    year % 4 == 0
}

fn february_length(year: u32) -> u32
    ensures { result ≡ february_length year }
{
    if is_leap(year) {
        return 29;
    }
    28
}

pub(crate) fn month_length(year: u32, month: u32) -> u32
    requires { month ≤ months }
    ensures { result ≡ month_length year month }
{
    let february = february_length(year);
    let lengths = [0, 31, february, 31, 30, 31, 30, 31, 31, 30, 31, 30, 31];
    lengths[month as usize]
}

// The day on which a month begins, counted from January 2000.
fn first_day(month: usize) -> u32
    requires { month < 1200 }
    ensures { result ≡ first_day month }
{
    FIRST_DAYS[month]
}

// How many days after 1 January 2000 the date is.
pub(crate) fn day_number(date: Date) -> u32
    requires { InCentury date }
    ensures { result ≡ day_number date }
{
    let month = (date.year - ranges::FIRST_YEAR) * ranges::MONTHS + (date.month - 1);
    let first = first_day(month as usize);
    first + (date.day - 1)
}
