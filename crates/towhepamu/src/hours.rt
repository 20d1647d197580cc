// Asking a calendar for the plan of a date and a minute.
ghost use Rattle.std.specs.Prelude.{◌≡◌};
ghost use Rattle.answers.specs.Answers.{ruled_of};
ghost use Rattle.calendar.specs.Dates.{date};
ghost use Rattle.towhepamu.specs.CallOutcomes.{text_plan_at_outcome};

use crate::words::with_words;
use answers::{Ruled, ruled_of};
use calendar::plan_at;

// The plan that holds, and the days to the calendar's next entry.
pub fn towhepamu_calendar(text: &[u8], year: u32, month: u32, day: u32, minute: u32) -> Ruled
    ensures { result ≡ ruled_of (text_plan_at_outcome text.now (date year month day) minute) }
{
    ruled_of(with_words(text, |words| { plan_at(words?, year, month, day, minute) }))
}
