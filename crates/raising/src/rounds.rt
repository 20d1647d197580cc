// The rounds of the search.
ghost use Rattle.std.specs.Prelude.{◌^◌, ◌<◌};
ghost use Rattle.assignment.specs.Keys.{key_base};
ghost use Rattle.raising.specs.Tables.{TableRaised, PlanRaised, RoundTold, BestTold};

use crate::offer::Offer;
use crate::table::Table;
use core_tables::charge_idle_once;
use search::least_of_table;
use set_tables::core_set;
use values::{MOST_SETS, Worth};

// The round from which on other plans than the best are looked at too.
const FIRST_NEAR_ROUND: usize = 2;

impl Table {
    // What partition and keeping find over the table as it stands, once each set owes the idle energy of a whole span once. `near` gets
    // the keys of plans that cost little more.
    fn least_charged(&self, offer: &Offer, near: &mut [u64]) -> Option<Worth>
        requires { TableRaised offer.now self.now }
        ensures { RoundTold offer.now self.now result }
    {
        let mut costs = self.costs;
        charge_idle_once(offer.site.items, offer.site.whole, &mut costs);
        least_of_table(
            offer.site.shape(),
            offer.refusal,
            offer.must,
            &costs,
            &self.keys,
            near,
        )
        .found()
    }

    // Tries the sets that the cores of the plan with this key run, where their entries are not exact, and answers how many these were.
    pub(crate) fn raise_sets(&mut self, offer: &Offer, key: u64) -> usize
        requires key_bound { key < key_base ^ offer.now.site.items }
        requires raised { TableRaised offer.now self.old }
        ensures { PlanRaised offer.now key self.old self.new result }
    {
        let site = offer.site;
        let mut raised = 0;
        for core in 0..site.cores {
            let set = core_set(site.items, site.levels, core, key);
            let open = 0 < self.left[set];
            if open {
                self.try_set(offer, set);
                raised += 1;
            }
        }
        raised
    }

    // What the best plan is worth, from a table of lower values; none where there is no plan. Each round tries a set.
    pub(crate) fn least_in_rounds(&mut self, offer: &Offer) -> Option<Worth>
        requires { TableRaised offer.now self.old }
        ensures { BestTold offer.now result }
    {
        let mut near = [0u64; MOST_SETS];
        let mut waiting = FIRST_NEAR_ROUND;
        loop {
            let best = self.least_charged(offer, &mut near)?;
            let raised = self.raise_sets(offer, best.key);
            let settled = raised == 0;
            if settled {
                return Some(best);
            }
            waiting = waiting.saturating_sub(1);
            self.raise_near(offer, waiting, &near);
        }
    }
}
