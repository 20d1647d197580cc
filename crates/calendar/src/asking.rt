// Asking a calendar: its words are tested first, then the question.
ghost use Rattle.std.specs.Prelude.{◌≡◌};
ghost use Rattle.calendar.specs.Dates.{date};
ghost use Rattle.calendar.specs.Hours.{in_century, is_question, plan_at_outcome, AskingEnds};
ghost use Rattle.calendar.specs.Sections.{Asks};

use crate::dates::{day_number, month_length};
use crate::entries::entries_next;
use crate::{Date, PlanDays};
use formats::WordReader;
use refusals::Refusal;

fn in_century(date: Date) -> bool
    ensures { result ≡ in_century date }
{
    (ranges::FIRST_YEAR..=ranges::LAST_YEAR).contains(&date.year)
        && (1..=ranges::MONTHS).contains(&date.month)
        && (1..=ranges::MOST_DAY).contains(&date.day)
}

fn is_question(date: Date, minute: u32) -> bool
    ensures { result ≡ is_question date minute }
{
    in_century(date)
        && date.day <= month_length(date.year, date.month)
        && minute < ranges::DAY_MINUTES
}

// The day asked about, where there is such a question.
fn day_asked(date: Date, minute: u32) -> Option<u32>
    ensures { Asks date minute result }
{
    if is_question(date, minute) {
        return Some(day_number(date));
    }
    None
}

// The plan that holds on a date and at a minute, and the days to the next entry.
pub fn plan_at(
    calendar: &[u32],
    year: u32,
    month: u32,
    day: u32,
    minute: u32,
) -> Result<PlanDays, Refusal>
    ensures value { result ≡ plan_at_outcome calendar.now (date year month day) minute }
    ensures promise { AskingEnds calendar.now (date year month day) minute result }
{
    let asked = day_asked(Date { year, month, day }, minute);
    let mut words = WordReader::new(calendar);
    // Where there is no such question, the words are tested all the same.
    let ruled = entries_next(&mut words, asked.unwrap_or(0), minute)?;
    words.end()?;
    match asked {
        Some(_) => Ok(ruled),
        None => Err(Refusal::NoSuchQuestion),
    }
}
