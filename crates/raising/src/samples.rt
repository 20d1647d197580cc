// A first pass before the rounds. A relaxation that is chosen for one set raises the entries of all: after those of a few sets, fewer rounds are
// needed.
ghost use Rattle.std.specs.Prelude.{◌^◌, ◌≤◌, ◌<◌};
ghost use Rattle.assignment.specs.Limits.{most_items};
ghost use Rattle.raising.specs.Tables.{TableRaised};

use crate::offer::Offer;
use crate::table::Table;
use lagrangian::size_of;
use values::{NO_COST, sets_of};

// How many items each of the few sets has.
const SAMPLE_ITEMS: usize = 4;

// Of the sets with so many items every eighth is taken, 61 where there are twelve items. With these random sites take nine tenths of
// the time that they take with none.
const SAMPLE_STEP: usize = 8;

// How many sets with so many items are left up to the next that is taken, once this set was seen; 0 where it is that one.
fn steps_after(items: usize, set: usize, steps: usize) -> usize
    requires le_most_items { items ≤ most_items }
    requires steps_nonzero { 0 < steps }
    ensures { result ≤ steps }
{
    if size_of(items, set) == SAMPLE_ITEMS {
        return steps - 1;
    }
    steps
}

impl Table {
    // Raises all entries by a relaxation that is chosen for a set, unless that cannot be served.
    fn lift_by_set(&mut self, offer: &Offer, set: usize)
        requires set_bound { set < 2 ^ offer.now.site.items }
        requires raised { TableRaised offer.now self.old }
        ensures { TableRaised offer.now self.new }
    {
        if NO_COST <= self.costs[set] {
            return;
        }
        let relaxed = offer.relaxation_of(set);
        self.lift(offer, relaxed);
    }

    // Raises all entries by relaxations that are chosen for a few sets.
    pub(crate) fn lift_by_samples(&mut self, offer: &Offer)
        requires { TableRaised offer.now self.old }
        ensures { TableRaised offer.now self.new }
    {
        let items = offer.site.items;
        let mut steps = SAMPLE_STEP;
        for set in 0..sets_of(items) {
            steps = steps_after(items, set, steps);
            if steps == 0 {
                self.lift_by_set(offer, set);
                steps = SAMPLE_STEP;
            }
        }
    }
}
