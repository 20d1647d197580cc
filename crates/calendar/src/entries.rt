// The entries of a calendar, taken one after the other; of those that were taken only what rules is kept.
ghost use Rattle.std.specs.Prelude.{◌≡◌};
ghost use Rattle.calendar.specs.Calendars.{may_follow};
ghost use Rattle.calendar.specs.Dates.{InCentury, day_number};
ghost use Rattle.calendar.specs.Sections.{TakesDate, TakesHours, TakesEntry, TakesEntries};

use crate::dates::{day_number, month_length};
use crate::hours::ruled_with;
use crate::{Date, Entry, PlanDays};
use formats::WordReader;
use refusals::Refusal;

// An entry and its day.
#[derive(Clone, Copy)]
struct DatedEntry {
    entry: Entry,
    number: u32,
}

fn date_next(words: &mut WordReader) -> Result<Date, Refusal>
    ensures { TakesDate words.old result words.new }
{
    let year = words.word(ranges::FIRST_YEAR, ranges::LAST_YEAR)?;
    let month = words.word(1, ranges::MONTHS)?;
    let day = words.word(1, ranges::MOST_DAY)?;
    Ok(Date { year, month, day })
}

// The rest of the entry of this date.
fn hours_next(words: &mut WordReader, date: Date) -> Result<Entry, Refusal>
    ensures { TakesHours words.old date result words.new }
{
    let opening = words.word(0, ranges::DAY_MINUTES)?;
    let closing = words.word(opening + 1, ranges::DAY_MINUTES)?;
    let plan = words.word(1, ranges::MOST_PLAN_NUMBER)?;
    Ok(Entry {
        date,
        opening,
        closing,
        plan,
    })
}

// Whether the date exists and its day, `number`, is not before `free`.
fn may_follow(free: u32, date: Date, number: u32) -> bool
    requires { InCentury date × (number ≡ day_number date) }
    ensures { result ≡ may_follow free date }
{
    date.day <= month_length(date.year, date.month) && free <= number
}

// The next entry. Its date is tested once all six of its words have passed.
fn entry_next(words: &mut WordReader, free: u32) -> Result<DatedEntry, Refusal>
    ensures { TakesEntry words.old free result words.new }
{
    let first = words.place();
    let date = date_next(words)?;
    let number = day_number(date);
    // Not by `?`: so the way out where an hour is refused has a place of its own, which an edit turns (must-fail/date_tested_before_hours).
    let entry = match hours_next(words, date) {
        Ok(entry) => entry,
        Err(refusal) => return Err(refusal),
    };
    if !may_follow(free, date, number) {
        return Err(Refusal::CalendarDate(first));
    }
    Ok(DatedEntry { entry, number })
}

// What rules on the day asked about, by all entries.
pub(crate) fn entries_next(
    words: &mut WordReader,
    asked: u32,
    minute: u32,
) -> Result<PlanDays, Refusal>
    ensures { TakesEntries words.old asked minute result words.new }
{
    let count = words.word(0, ranges::MOST_ENTRIES)?;
    let mut free = 0;
    let mut ruled = PlanDays { plan: 0, days: 0 };
    for _ in 0..count {
        let next = entry_next(words, free)?;
        free = next.number + 1;
        ruled = ruled_with(ruled, next.entry, next.number, asked, minute);
    }
    Ok(ruled)
}
