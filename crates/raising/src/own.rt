// Sets are exact before the first round where a core admits their own patterns: each item at its own cheapest level.
ghost use Rattle.std.specs.Prelude.{◌^◌};
ghost use Rattle.raising.specs.OwnSets.{OwnSettled};
ghost use Rattle.raising.specs.Tables.{TableRaised};

use crate::offer::Offer;
use crate::table::Table;
use set_tables::fill_own;
use values::{MOST_SETS, NO_COST, sets_of};

impl Table {
    // The entries of these sets become what their own patterns are worth.
    pub(crate) fn settle_own(&mut self, offer: &Offer)
        requires { TableRaised offer.now self.old }
        ensures raised { TableRaised offer.now self.new }
        ensures own_settled { OwnSettled offer.now.site offer.now.timings.now offer.now.cost.now
            (2 ^ offer.now.site.items) self.new.left }
    {
        let mut own_costs = [0u64; MOST_SETS];
        let mut own_keys = [0u64; MOST_SETS];
        fill_own(
            offer.site.timed(),
            offer.timings,
            offer.cost,
            &mut own_costs,
            &mut own_keys,
        );
        for set in 0..sets_of(offer.site.items) {
            let admitted = own_costs[set] < NO_COST;
            if admitted {
                self.costs[set] = own_costs[set];
                self.keys[set] = own_keys[set];
                self.left[set] = 0;
            }
        }
    }
}
