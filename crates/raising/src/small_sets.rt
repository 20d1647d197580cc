// Small sets are searched before the first round, up to a limit a little above their entries.
ghost use Rattle.std.specs.Prelude.{◌^◌, ◌<◌};
ghost use Rattle.lagrangian.specs.Lagrangians.{Relaxes};
ghost use Rattle.raising.specs.TimedSites.{timed_of};
ghost use Rattle.raising.specs.Tables.{TableRaised};

use crate::limits::{KEY_TRY, first_limit};
use crate::offer::Offer;
use crate::table::Table;
use lagrangian::{Lagrangian, size_of};
use values::{NO_COST, sets_of};

// Sets with so many items at most are searched, in some 3 microseconds each. With one item more there are 220 of twelve items, and searching
// them takes longer than it saves.
const SMALL_ITEMS: usize = 2;

impl Table {
    // Searches a set that is small, unless its entry is exact or none.
    fn search_if_small(&mut self, offer: &Offer, set: usize, relaxed: Lagrangian)
        requires set_bound { set < 2 ^ offer.now.site.items }
        requires relaxes { Relaxes (timed_of offer.now.site) offer.now.timings.now offer.now.cost.now relaxed }
        requires raised { TableRaised offer.now self.old }
        ensures { TableRaised offer.now self.new }
    {
        if self.left[set] < KEY_TRY {
            return;
        }
        if NO_COST <= self.costs[set] {
            return;
        }
        if SMALL_ITEMS < size_of(offer.site.items, set) {
            return;
        }
        let most = first_limit(self.costs[set], offer.weights[set]);
        self.search_up_to(offer, set, most, relaxed);
    }

    // Searches the small sets, each after its parts. What is due is not weighed: so few items need no bounds but their costs.
    pub(crate) fn search_small(&mut self, offer: &Offer)
        requires { TableRaised offer.now self.old }
        ensures { TableRaised offer.now self.new }
    {
        let relaxed = offer.relaxation_at(0);
        for set in 0..sets_of(offer.site.items) {
            self.search_if_small(offer, set, relaxed);
        }
    }
}
