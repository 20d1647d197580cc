// The best plan where jobs may be due before their period's end. Partition and keeping search a table of lower values; the
// entries of the plan that they find are raised, until all of them are exact.
#![tactic(auto)]

mod limits;
mod near;
mod offer;
mod own;
mod rounds;
mod samples;
mod small_sets;
mod start;
mod table;
mod tries;

ghost use Rattle.std.specs.Prelude.{◌≡◌, ◌≤◌, length};
ghost use Rattle.search.specs.Found.{BestFound};
ghost use Rattle.raising.specs.StartTables.{SiteOffered};
ghost use Rattle.raising.specs.TimedSites.{shape_of, timed_of, site_options};

use lagrangian::Timed;
use limits::TRIES;
use offer::Offer;
use partition::fill_weights;
use search::{Shape, write_plan};
use table::Table;
use values::MOST_SETS;

// How many items there are, and how many cores and levels for each; the span, and what the idle ticks of a whole span cost.
#[derive(Clone, Copy)]
pub struct Site {
    pub items: usize,
    pub cores: usize,
    pub levels: usize,
    pub span: u32,
    pub whole: u64,
}

impl Site {
    pub(crate) fn shape(self) -> Shape
        ensures { result ≡ shape_of self }
    {
        Shape {
            items: self.items,
            cores: self.cores,
            levels: self.levels,
        }
    }

    pub(crate) fn timed(self) -> Timed
        ensures { result ≡ timed_of self }
    {
        Timed {
            items: self.items,
            levels: self.levels,
            span: self.span,
        }
    }
}

// Finds the cheapest plan with every job done in time, of equally cheap ones the first, and writes its choices. Costs are those of
// each item alone on an awake core.
pub fn cheapest_in_time(
    site: Site,
    timings: &[u32],
    cost: &[u64],
    refusal: &[u64],
    must: &[bool],
    plan: &mut [u32],
) -> Option<u64>
    requires site_offered { SiteOffered site timings.now cost.now refusal.now must.now }
    requires site_in_bounds { site.items ≤ length plan.old }
    ensures { BestFound (site_options site timings.now cost.now refusal.now must.now)
        plan.old plan.new result }
{
    let mut weights = [0u64; MOST_SETS];
    fill_weights(site.items, &mut weights);
    let offer = Offer {
        site,
        timings,
        cost,
        refusal,
        must,
        weights: &weights,
    };
    let mut table = Table {
        costs: [0; MOST_SETS],
        keys: [0; MOST_SETS],
        left: [TRIES; MOST_SETS],
    };
    table.fill_start(&offer);
    table.lift_by_samples(&offer);
    table.settle_own(&offer);
    table.search_small(&offer);
    let best = table.least_in_rounds(&offer)?;
    write_plan(site.items, best.key, plan);
    Some(best.cost)
}
