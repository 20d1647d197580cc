// The linear relaxation of a part: an item that is still to have a level may have some of each, which come to one. Here its variables
// are the shares of the levels, and its rows say what an item's shares come to.
ghost use Rattle.std.specs.Prelude.{◌<◌};

use crate::choices::is_in_set;
use crate::cores::TimedCore;
use crate::parts::Part;
use crate::relaxation::PricedLevel;
use crate::windows::is_within_window;
use simplex::{Dictionary, MOST_COLUMNS, MOST_ROWS};
use std::num::nearest_u64_to_f64;
use values::STRIDE;

// What a variable of the linear relaxation is: what is left of the ticks up to the one that is weighed at a place; or how much of a level
// an item has, at which a job has these ticks. The first, at place 0, is all zeros, as the entries of a dictionary that holds it are.
#[derive(Clone, Copy)]
pub(crate) enum Variable {
    Left { place: usize },
    Share { item: usize, ticks: u32 },
}

impl TimedCore<'_> {
    // Adds one level more of the item whose row has its own level.
    fn add_level(
        &self,
        row: usize,
        item: usize,
        level: usize,
        own: PricedLevel,
        shares: &mut Dictionary<Variable>,
    )
        requires is_row { row < MOST_ROWS }
        requires is_item { item < self.now.timed.items }
        requires is_level { level < self.now.timed.levels }
    {
        if level == own.level || !is_within_window(item, level, self.timings) {
            return;
        }
        let column = shares.columns;
        if MOST_COLUMNS <= column {
            return;
        }
        let ticks = self.ticks(item, level);
        shares.add_column(Variable::Share { item, ticks });
        let cost = self.cost[item * STRIDE + level];
        shares.entries[row][column] = 1.0;
        shares.entries[0][column] = nearest_u64_to_f64(cost) - nearest_u64_to_f64(own.cost);
    }

    // Adds one item more, all of it at its own cheapest level.
    fn add_item(&self, item: usize, shares: &mut Dictionary<Variable>)
        requires { item < self.now.timed.items }
    {
        let row = shares.rows;
        if MOST_ROWS <= row {
            return;
        }
        let own = self.cheapest_level(item, 0);
        let ticks = self.ticks(item, own.level);
        shares.add_row(Variable::Share { item, ticks });
        shares.entries[row][0] = 1.0;
        for level in 0..self.timed.levels {
            self.add_level(row, item, level, own, shares);
        }
    }

    // Adds the items that are still to have a level, each at its own cheapest one.
    pub(crate) fn add_items(&self, part: &Part, shares: &mut Dictionary<Variable>) {
        for item in part.fixed..self.timed.items {
            if is_in_set(self.timed.items, part.open, item) {
                self.add_item(item, shares);
            }
        }
    }
}
