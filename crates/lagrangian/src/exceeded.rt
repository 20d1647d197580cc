// The tick that is exceeded most by what is due, as a share of the ticks up to it. It tells which tick to weigh, and nothing is claimed
// of it.
ghost use Rattle.std.specs.Prelude.{◌≤◌, IfSome};
ghost use Rattle.ranges.specs.Limits.{most_span};

use crate::TIMING_WIDTH;
use crate::cores::TimedCore;
use values::{ENTRIES, MOST_ITEMS};

// Up to this share a tick counts as met.
const MOST_SHARE: f64 = 1.000001;

// Adds the ticks of each job of an item where it is due.
fn add_jobs(span: u32, period: u32, window: u32, ticks: f64, due: &mut [f64; ENTRIES])
    requires period_above_0 { 1 ≤ period }
    requires short_span { span ≤ most_span }
{
    for tick in (window..=span).step_by(period as usize) {
        due[tick as usize] += ticks;
    }
}

// The tick that is exceeded most, by what is due at each tick, where one is.
fn most_exceeded(span: u32, due: &[f64; ENTRIES]) -> Option<u32>
    requires { span ≤ most_span }
    ensures { IfSome result (λ tick. tick ≤ span) }
{
    let mut due_so_far = 0.0;
    let mut most_share = MOST_SHARE;
    let mut exceeded = None;
    for tick in 1..=span {
        let here = due[tick as usize];
        if 0.0 < here {
            due_so_far += here;
            let share = due_so_far / tick as f64;
            if most_share < share {
                most_share = share;
                exceeded = Some(tick);
            }
        }
    }
    exceeded
}

impl TimedCore<'_> {
    // The tick that is exceeded most where jobs have these ticks, where one is.
    pub(crate) fn exceeded_tick(&self, ticks: &[f64; MOST_ITEMS]) -> Option<u32>
        ensures { IfSome result (λ tick. tick ≤ self.now.timed.span) }
    {
        let span = self.timed.span;
        let mut due = [0.0; ENTRIES];
        for i in 0..self.timed.items {
            let period = self.timings[i * TIMING_WIDTH];
            let window = self.timings[i * TIMING_WIDTH + 1];
            add_jobs(span, period, window, ticks[i], &mut due);
        }
        most_exceeded(span, &due)
    }
}
