// Sets of plans that cost little more than the best found. With three or four cores a round takes longer than trying many sets: those
// are tried too that later rounds would find one by one.
ghost use Rattle.raising.specs.Tables.{TableRaised, PlansRaised};

use crate::offer::Offer;
use crate::table::Table;
use values::keys_of;

// How many of these plans are taken up in a round at most.
const MOST_PLANS: usize = 8;

// With so many cores at most a round takes no longer than trying a set.
const FEW_CORES: usize = 2;

impl Table {
    // Whether a set of the plan with this key was tried; not where it is 0 or no plan's.
    fn raise_plan(&mut self, offer: &Offer, key: u64) -> bool
        requires { TableRaised offer.now self.old }
        ensures { PlansRaised offer.now self.old self.new }
    {
        if key == 0 {
            return false;
        }
        if keys_of(offer.site.items) <= key {
            return false;
        }
        0 < self.raise_sets(offer, key)
    }

    // Tries the sets of the plans with these keys.
    fn raise_plans(&mut self, offer: &Offer, near: &[u64])
        requires { TableRaised offer.now self.old }
        ensures { PlansRaised offer.now self.old self.new }
    {
        let mut plans = 0;
        for &key in near {
            if plans == MOST_PLANS {
                return;
            }
            if self.raise_plan(offer, key) {
                plans += 1;
            }
        }
    }

    // The same with more than a few cores, once no round is to be waited for.
    pub(crate) fn raise_near(&mut self, offer: &Offer, waiting: usize, near: &[u64])
        requires { TableRaised offer.now self.old }
        ensures { PlansRaised offer.now self.old self.new }
    {
        if offer.site.cores <= FEW_CORES {
            return;
        }
        if 0 < waiting {
            return;
        }
        self.raise_plans(offer, near);
    }
}
