// The exchange of a basic variable for another.
ghost use Rattle.std.specs.Prelude.{◌<◌, ◌≤◌};

use crate::{Dictionary, MOST_COLUMNS, MOST_ROWS};

// Takes other entries, times a factor, off those of a row.
pub fn take_off(
    columns: usize,
    factor: f64,
    others: &[f64; MOST_COLUMNS],
    entries: &mut [f64; MOST_COLUMNS],
)
    requires { columns ≤ MOST_COLUMNS }
{
    // By an index, which stays within both rows (must-fail/entries_one_further goes past one).
    for column in 0..columns {
        entries[column] -= factor * others[column];
    }
}

impl<V: Copy> Dictionary<V> {
    // The row of a pivot for the variable that enters, in place of the one that leaves.
    fn solved_row(&self, left: usize, entered: usize) -> [f64; MOST_COLUMNS]
        requires left_is_row { left < MOST_ROWS }
        requires entered_is_column { entered < MOST_COLUMNS }
    {
        let over = 1.0 / self.entries[left][entered];
        let mut solved = self.entries[left];
        for column in 0..self.columns {
            solved[column] *= over;
        }
        solved[entered] = over;
        solved
    }

    // The variable that enters is taken out of a row.
    fn substitute(&mut self, row: usize, entered: usize, solved: &[f64; MOST_COLUMNS])
        requires row_is_row { row < MOST_ROWS }
        requires entered_is_column { entered < MOST_COLUMNS }
    {
        let columns = self.columns;
        let entries = &mut self.entries[row];
        let factor = entries[entered];
        if factor == 0.0 {
            return;
        }
        entries[entered] = 0.0;
        take_off(columns, factor, solved, entries);
    }

    // The exchange of a row's variable for a column's. The row itself is written last.
    pub(crate) fn pivot(&mut self, left: usize, entered: usize)
        requires left_is_row { left < MOST_ROWS }
        requires entered_is_column { entered < MOST_COLUMNS }
    {
        let solved = self.solved_row(left, entered);
        for row in 0..self.rows {
            self.substitute(row, entered, &solved);
        }
        self.entries[left] = solved;
        let leaves = self.basic[left];
        self.basic[left] = self.nonbasic[entered];
        self.nonbasic[entered] = leaves;
    }
}
