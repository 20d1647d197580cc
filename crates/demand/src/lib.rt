// Whether a core's tasks can all be served: whether by some tick of a span more is due than there are ticks up to it.
#![tactic(auto)]

ghost use Rattle.std.specs.Prelude.{false, ◌≡◌, ℕ, ◌+◌, ◌-◌, ◌/◌, ◌≤◌, ◌<◌, get_or, length};
ghost use Rattle.ranges.specs.Limits.{most_span, most_word};
ghost use Rattle.dispatch.specs.Columns.{column_tasks};
ghost use Rattle.edf.specs.Demand.{demand_at};
ghost use Rattle.demand.specs.UnmetTicks.{DueAtRelease, JobColumns, SpanColumns, UnmetTick};

// How many jobs of a task are due by a tick.
pub fn jobs_due(period: u32, window: u32, tick: u32) -> u32
    requires period_nonzero { (0 < period) × (window ≤ period) }
    requires period_bound { tick + period ≤ most_word }
    ensures { result ≡ (tick + (period - window)) / period }
{
    (tick + (period - window)) / period
}

// What a core runs, in columns: for each of its tasks a period, a window and the ticks of a job. That ticks are words bounds their
// sum: what a slice says of its entries is not known where it stands in a struct.
#[derive(Clone, Copy)]
struct Jobs<'a> {
    periods: &'a [u32],
    windows: &'a [u32],
    ticks: &'a [u32],
    ghost well_formed: { JobColumns periods.now windows.now ticks.now },
    ghost words: { (i : ℕ) → get_or ticks.now i 0 ≤ most_word },
}

impl Jobs<'_> {
    // The ticks of all jobs that are due by a tick.
    fn demand_at(&self, tick: u32) -> u64
        requires { tick ≤ most_span }
        ensures { result ≡ demand_at (column_tasks self.now.periods.now self.now.windows.now self.now.ticks.now) tick }
    {
        let mut due = 0;
        for i in 0..self.ticks.len() {
            let jobs = jobs_due(self.periods[i], self.windows[i], tick);
            due += self.ticks[i] as u64 * jobs as u64;
        }
        due
    }

    // Whether some task is due before its next release.
    fn some_due_early(&self) -> bool
        ensures { result ≡ false → DueAtRelease self.now.periods.now self.now.windows.now (length self.now.periods.now) }
    {
        self.windows
            .iter()
            .zip(self.periods)
            .any(|(window, period)| window < period)
    }

    // The test from the last tick down. What is due by a tick, where it is met, is met by each tick from that number of ticks on: these
    // need no test.
    fn unmet_up_to(&self, end: u32) -> Option<u32>
        requires { end ≤ most_span }
        ensures { UnmetTick (column_tasks self.now.periods.now self.now.windows.now self.now.ticks.now) end result }
    {
        let mut tick = end;
        while 0 < tick {
            let due = self.demand_at(tick);
            if (tick as u64) < due {
                return Some(tick);
            }
            tick = (due as u32).saturating_sub(1);
        }
        None
    }
}

// A tick of the span by which more is due than there are ticks up to it, if there is one. Where no task is due before its next
// release, the last tick decides.
pub fn unmet_tick(span: u32, periods: &[u32], windows: &[u32], ticks: &[u32]) -> Option<u32>
    requires { SpanColumns span periods.now windows.now ticks.now }
    ensures { UnmetTick (column_tasks periods.now windows.now ticks.now) span result }
{
    let jobs = Jobs {
        periods,
        windows,
        ticks,
    };
    if jobs.some_due_early() {
        return jobs.unmet_up_to(span);
    }
    if (span as u64) < jobs.demand_at(span) {
        return Some(span);
    }
    None
}
