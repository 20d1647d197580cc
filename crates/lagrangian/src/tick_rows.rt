// The rows of ticks in the linear relaxation of a part: of the ticks up to one, what is left once all that is due by it has its ticks may not
// be below 0. Rows are in shares of these ticks, so that all have about the same size.
ghost use Rattle.std.specs.Prelude.{◌≤◌};

use crate::cores::TimedCore;
use crate::level_mixes::Variable;
use crate::parts::Part;
use crate::prices::jobs_by;
use simplex::{Dictionary, MOST_COLUMNS, MOST_ROWS, take_off};
use values::MOST_ITEMS;

// So many jobs of so many ticks, as a share of the ticks up to a tick.
fn share_of(jobs: u32, ticks: u32, tick: u32) -> f64 {
    jobs as f64 * ticks as f64 / tick as f64
}

impl Variable {
    // The share that it takes of the ticks up to a tick by which so many jobs of each item are due.
    fn taken(self, tick: u32, jobs: &[u32; MOST_ITEMS]) -> f64 {
        match self {
            Variable::Share { item, ticks } if item < MOST_ITEMS => {
                share_of(jobs[item], ticks, tick)
            }
            _ => 0.0,
        }
    }
}

impl Part {
    // The share that the items with a level leave.
    fn left(&self, tick: u32, jobs: &[u32; MOST_ITEMS]) -> f64 {
        let mut left = 1.0;
        for (jobs, ticks) in jobs.iter().zip(&self.ticks) {
            left -= share_of(*jobs, *ticks, tick);
        }
        left
    }
}

// What is left of the ticks up to a tick, by the variables that are not basic: the basic ones are taken off, each by its own row.
fn row_of_tick(
    part: &Part,
    tick: u32,
    jobs: &[u32; MOST_ITEMS],
    shares: &Dictionary<Variable>,
) -> [f64; MOST_COLUMNS] {
    let mut entries = [0.0; MOST_COLUMNS];
    entries[0] = part.left(tick, jobs);
    for column in 1..shares.columns {
        entries[column] = shares.nonbasic[column].taken(tick, jobs);
    }
    for row in 1..shares.rows {
        let taken = shares.basic[row].taken(tick, jobs);
        take_off(shares.columns, taken, &shares.entries[row], &mut entries);
    }
    entries
}

impl TimedCore<'_> {
    // Adds the row of a tick, which is weighed at a place.
    pub(crate) fn add_row_of_tick(
        &self,
        part: &Part,
        place: usize,
        tick: u32,
        shares: &mut Dictionary<Variable>,
    )
        requires { tick ≤ self.now.timed.span }
    {
        let row = shares.rows;
        if MOST_ROWS <= row {
            return;
        }
        let jobs = jobs_by(self.timed, tick, self.timings);
        let entries = row_of_tick(part, tick, &jobs, shares);
        shares.add_row(Variable::Left { place });
        shares.entries[row] = entries;
    }
}
