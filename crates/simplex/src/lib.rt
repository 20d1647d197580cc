// The dual simplex method for small linear programs: the least sum of costs of variables, none below 0, that some equations tie. A program
// stands in a dictionary, in floating point. Nothing is claimed of what the method comes to, since sums are rounded: it is for callers
// whom any numbers serve, and who ask for good ones.
#![tactic(auto)]

mod choosing;
mod pivots;

ghost use Rattle.std.specs.Prelude.{◌≡◌, ◌+◌, ◌<◌, ◌≤◌, ⊤};
ghost use Rattle.simplex.specs.declared.TheConstants.{MOST_COLUMNS, MOST_ROWS};

pub use pivots::take_off;
use std::alloc::AllocError;

pub const MOST_ROWS: usize = 21;

pub const MOST_COLUMNS: usize = 85;

// Which variables are basic, one for each row but the first, and which are not, one for each column but the first. A basic variable is the
// first entry of its row less the others, each times the variable of its column. The first row has in place of that what the sum of costs
// rises by with each column's variable; its first entry is the sum's negative where these are all 0. What a variable stands for is the
// caller's. Rows and columns are counted beside their arrays, which are fixed memory.
#[derive(Drop)]
pub struct Dictionary<V> {
    pub rows: usize,
    pub columns: usize,
    pub basic: [V; MOST_ROWS],
    pub nonbasic: [V; MOST_COLUMNS],
    pub entries: [[f64; MOST_COLUMNS]; MOST_ROWS],
    ghost rows_have_room: { rows ≤ MOST_ROWS },
    ghost columns_have_room: { columns ≤ MOST_COLUMNS },
}

// All of a dictionary, with the room that its ghost fields speak of.
impl<V: Copy> Clone for Dictionary<V> {
    ghost is_clone = { λ dictionary copy. copy ≡ dictionary };

    ghost is_infallible = { λ _. ⊤ };

    fn clone(&self) -> Result<Dictionary<V>, AllocError> {
        Ok(*self)
    }
}

impl<V: Copy> Copy for Dictionary<V> {}

// Some twenty pivots are enough; more come of rounding, or of variables that take turns.
const MOST_PIVOTS: usize = 60;

impl<V: Copy> Dictionary<V> {
    // The first row and the first column alone, all 0. The places that have no variable yet hold the one that is given.
    pub fn new(variable: V) -> Dictionary<V>
        ensures one_row { result.rows ≡ 1 }
        ensures one_column { result.columns ≡ 1 }
    {
        Dictionary {
            rows: 1,
            columns: 1,
            basic: [variable; MOST_ROWS],
            nonbasic: [variable; MOST_COLUMNS],
            entries: [[0.0; MOST_COLUMNS]; MOST_ROWS],
        }
    }

    // Adds a row for a basic variable. The caller writes its entries.
    pub fn add_row(&mut self, variable: V)
        requires { self.old.rows < MOST_ROWS }
        ensures one_row_more { self.new.rows ≡ self.old.rows + 1 }
        ensures same_columns { self.new.columns ≡ self.old.columns }
    {
        self.basic[self.rows] = variable;
        self.rows += 1;
    }

    // Adds a column for a variable that is not basic. The caller writes its entries.
    pub fn add_column(&mut self, variable: V)
        requires { self.old.columns < MOST_COLUMNS }
        ensures one_column_more { self.new.columns ≡ self.old.columns + 1 }
        ensures same_rows { self.new.rows ≡ self.old.rows }
    {
        self.nonbasic[self.columns] = variable;
        self.columns += 1;
    }

    // Pivots until no basic variable is below 0. Where no cost was below 0 before, none is then, and the sum of costs is least.
    pub fn restore(&mut self) {
        for _ in 0..MOST_PIVOTS {
            let Some(left) = self.leaving_row() else {
                return;
            };
            let Some(entered) = self.entering_column(left) else {
                return;
            };
            self.pivot(left, entered);
        }
    }
}
