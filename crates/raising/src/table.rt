// The table that the search in rounds keeps: nowhere above the least values of the sets.
ghost use Rattle.std.specs.Prelude.{◌≡◌};
ghost use Rattle.lagrangian.specs.Lagrangians.{Relaxes};
ghost use Rattle.raising.specs.TimedSites.{timed_of};
ghost use Rattle.raising.specs.Tables.{TableRaised};

use crate::offer::Offer;
use lagrangian::Lagrangian;
use set_tables::lift_all;
use values::MOST_SETS;

// By the number of each set its entry's cost and key, and how often it may still be tried; an entry of a set that may not is exact.
// Three arrays, since costs and keys are lent apart to the search from a table.
#[derive(Drop)]
pub(crate) struct Table {
    pub(crate) costs: [u64; MOST_SETS],
    pub(crate) keys: [u64; MOST_SETS],
    pub(crate) left: [u32; MOST_SETS],
}

impl Table {
    // Raises all entries as far as a relaxation says.
    pub(crate) fn lift(&mut self, offer: &Offer, relaxed: Lagrangian)
        requires relaxes { Relaxes (timed_of offer.now.site) offer.now.timings.now offer.now.cost.now relaxed }
        requires raised { TableRaised offer.now self.old }
        ensures lifted { TableRaised offer.now self.new }
        ensures same_left { self.new.left ≡ self.old.left }
    {
        let weights = offer.weights;
        lift_all(
            offer.site.items,
            relaxed,
            weights,
            &mut self.costs,
            &mut self.keys,
        );
    }
}
