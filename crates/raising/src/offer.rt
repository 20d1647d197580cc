// What is offered for a site, held together.
ghost use Rattle.std.specs.Prelude.{◌≡◌};
ghost use Rattle.lagrangian.specs.Lagrangians.{Relaxes};
ghost use Rattle.raising.specs.Rounds.{RefusalsOffered};
ghost use Rattle.raising.specs.TimedSites.{timed_of, SiteReady, SetsWeighed};

use crate::Site;
use lagrangian::{Lagrangian, TimedCore};
use values::MOST_SETS;

// A site; of its items the timings and the costs of each alone on an awake core, what refusing them costs and which must be kept; and
// of its sets the least keys.
#[derive(Clone, Copy)]
pub(crate) struct Offer<'a> {
    pub(crate) site: Site,
    pub(crate) timings: &'a [u32],
    pub(crate) cost: &'a [u64],
    pub(crate) refusal: &'a [u64],
    pub(crate) must: &'a [bool],
    pub(crate) weights: &'a [u64; MOST_SETS],
    pub(crate) ghost ready: { SiteReady site timings.now cost.now },
    pub(crate) ghost refusals: { RefusalsOffered site.items refusal.now must.now },
    pub(crate) ghost weighed: { SetsWeighed site.items weights.now },
}

impl<'a> Offer<'a> {
    // One of its cores.
    fn core(&self) -> TimedCore<'a>
        ensures timed { result.timed ≡ timed_of self.now.site }
        ensures timings { result.timings ≡ self.now.timings }
        ensures cost { result.cost ≡ self.now.cost }
    {
        TimedCore {
            timed: self.site.timed(),
            timings: self.timings,
            cost: self.cost,
        }
    }

    // The relaxation with the ticks of a whole span weighed.
    pub(crate) fn relaxation_at(&self, weight: u64) -> Lagrangian
        ensures { Relaxes (timed_of self.now.site) self.now.timings.now self.now.cost.now result }
    {
        self.core().relaxation_at(self.site.span, weight)
    }

    // The relaxation that is chosen for a set.
    pub(crate) fn relaxation_of(&self, set: usize) -> Lagrangian
        ensures { Relaxes (timed_of self.now.site) self.now.timings.now self.now.cost.now result }
    {
        self.core().relaxation_of(set)
    }
}
