// Which columns are those of a core, and which states may be handed in for it: refusal 12.
ghost use Rattle.std.specs.Prelude.{◌&&◌, ◌||◌, [], ◌≡◌, pred, leb, ltb, eqb, length, get_or};
ghost use Rattle.laws.specs.Search.{every};
ghost use Rattle.ranges.specs.Limits.{most_tasks};
ghost use Rattle.dispatcher.specs.Columns.{columns_fit, numbered_tasks};
ghost use Rattle.dispatcher.specs.ColumnLaws.{CoreColumns};
ghost use Rattle.dispatcher.specs.Places.{TicksByNumber};
ghost use Rattle.dispatcher.specs.States.{state_fits};

use crate::DispatchState;
use ranges::{MOST_TASKS, Slot};

// The columns of a core, tested: for each of its tasks a number, a period, a window and the ticks of a job.
#[derive(Clone, Copy)]
pub(crate) struct Columns<'a> {
    pub(crate) numbers: &'a [Slot],
    pub(crate) periods: &'a [u32],
    pub(crate) windows: &'a [u32],
    pub(crate) ticks: &'a [u32],
    ghost well_formed: { CoreColumns numbers.now periods.now windows.now ticks.now },
}

fn same_lengths(n: usize, periods: usize, windows: usize, ticks: usize) -> bool
    ensures { result ≡ (eqb periods n && eqb windows n && eqb ticks n) }
{
    periods == n && windows == n && ticks == n
}

fn column_fits(before: u32, number: u32, period: u32) -> bool
    ensures { result ≡ (ltb 0 period && ltb before number && leb number most_tasks) }
{
    0 < period && before < number && number <= MOST_TASKS
}

// Whether there are as many of each, no period is 0, and the numbers rise and have a place in a state.
pub(crate) fn columns_fit(numbers: &[Slot], periods: &[u32], windows: &[u32], ticks: &[u32]) -> bool
    ensures { result ≡ columns_fit numbers.now periods.now windows.now ticks.now }
{
    if !same_lengths(numbers.len(), periods.len(), windows.len(), ticks.len()) {
        return false;
    }
    let mut before = 0;
    for (number, period) in numbers.iter().zip(periods) {
        let number = *number as u32;
        if !column_fits(before, number, *period) {
            return false;
        }
        before = number;
    }
    true
}

// Whether no task has more left than a job of it has.
fn left_within(left: &[u32; MOST_TASKS as usize], most: &[u32; MOST_TASKS as usize]) -> bool
    ensures { result ≡ every (λ i. leb (get_or left.now i 0) (get_or most.now i 0)) most_tasks }
{
    left.iter().zip(most).all(|(left, most)| left <= most)
}

// Whether a task, if there is one, has ticks.
fn last_within(last: u32, most: &[u32; MOST_TASKS as usize]) -> bool
    ensures { result ≡ (eqb last 0 || ltb 0 (get_or most.now (pred last) 0)) }
{
    last == 0 || (last <= MOST_TASKS && 0 < most[last as usize - 1])
}

impl Columns<'_> {
    // The ticks of a job of each task, by its number: none of one that has no column.
    fn ticks_by_number(&self) -> [u32; MOST_TASKS as usize]
        ensures { TicksByNumber self.now.numbers.now self.now.ticks.now result }
    {
        let mut placed = [0; MOST_TASKS as usize];
        for (number, ticks) in self.numbers.iter().zip(self.ticks) {
            placed[*number as usize - 1] = *ticks;
        }
        placed
    }

    // Whether a state may be handed in. That depends on no period and no window.
    pub(crate) fn state_fits(&self, span: u32, state: DispatchState) -> bool
        ensures { result ≡ state_fits (numbered_tasks self.now.numbers.now [] [] self.now.ticks.now) span state }
    {
        if span <= state.tick {
            return false;
        }
        let most = self.ticks_by_number();
        left_within(&state.left, &most) && last_within(state.last, &most)
    }
}
