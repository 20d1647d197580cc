// Which variable leaves the basis, and which enters it.
ghost use Rattle.std.specs.Prelude.{◌<◌, IfSome};

use crate::{Dictionary, MOST_COLUMNS, MOST_ROWS};

// What is nearer to 0 counts as 0, for variables and for entries.
const LEAST_VALUE: f64 = 0.0000001;

const LEAST_ENTRY: f64 = 0.000000001;

impl<V> Dictionary<V> {
    // The row whose variable is furthest below 0, where one is.
    pub(crate) fn leaving_row(&self) -> Option<usize>
        ensures { IfSome result (λ row. row < MOST_ROWS) }
    {
        let mut least = 0.0 - LEAST_VALUE;
        let mut leaving = None;
        for row in 1..self.rows {
            let value = self.entries[row][0];
            if value < least {
                least = value;
                leaving = Some(row);
            }
        }
        leaving
    }

    // The column that enters where the variable of a row leaves: the one with the lowest ratio of its cost to its entry in that row, since
    // the cost of a column with a lower ratio would fall below 0. Only columns with an entry below 0 raise the row's variable.
    pub(crate) fn entering_column(&self, left: usize) -> Option<usize>
        requires { left < MOST_ROWS }
        ensures { IfSome result (λ column. column < MOST_COLUMNS) }
    {
        let mut least = 0.0;
        let mut entering = None;
        for column in 1..self.columns {
            let entry = self.entries[left][column];
            if 0.0 - LEAST_ENTRY < entry {
                continue;
            }
            let ratio = self.entries[0][column] / (0.0 - entry);
            if entering.is_none() || ratio < least {
                least = ratio;
                entering = Some(column);
            }
        }
        entering
    }
}
