// The Lagrangian relaxation of one core whose jobs are due at given ticks: ticks have weights, and by them a tick of a job of each item has
// a price. It bounds what every set of items costs there, whichever ticks are weighed; and ticks and weights are chosen for a set.
#![tactic(auto)]

mod choices;
mod cores;
mod exceeded;
mod fitting;
mod level_mixes;
mod means;
mod multipliers;
mod parts;
mod prices;
mod relaxation;
mod set_sizes;
mod tick_rows;
mod weights;
mod windows;

ghost use Rattle.std.specs.Prelude.{◌≡◌};
ghost use Rattle.lagrangian.specs.Lagrangians.{Relaxes};
ghost use Rattle.lagrangian.specs.TimedItems.{TimedReady};

pub use choices::is_in_set;
pub use cores::TimedCore;
pub use multipliers::MOST_TICKS;
use multipliers::Multipliers;
pub use parts::Part;
pub use prices::jobs_by;
pub use set_sizes::{FEW_ITEMS, has_few_items, size_of};
use values::{MOST_ITEMS, MOST_LEVELS};
pub use windows::is_within_window;

// How many items and levels there are, and how many ticks a span has.
#[derive(Clone, Copy)]
pub struct Timed {
    pub items: usize,
    pub levels: usize,
    pub span: u32,
}

// The words of an item's timing: its period, its window, and the ticks of a job at each level.
pub const TIMING_WIDTH: usize = MOST_LEVELS + 2;

// Prices of a tick of a job of each item, such that the ticks of an admitted pattern come to no more than the budget; and what each
// item costs at least, its ticks at their price included. `ticks` are those that were weighed, or 0: parts of patterns are tested at them, and
// nothing is claimed of them. The prices were chosen for parts of which so many items are fixed.
#[derive(Clone, Copy)]
pub struct Lagrangian {
    pub prices: [u64; MOST_ITEMS],
    pub least: [u64; MOST_ITEMS],
    pub budget: u64,
    pub ticks: [u32; MOST_TICKS],
    pub fixed: usize,
}

impl TimedCore<'_> {
    // The relaxation with one tick weighed.
    pub fn relaxation_at(&self, tick: u32, weight: u64) -> Lagrangian
        ensures { Relaxes self.now.timed self.now.timings.now self.now.cost.now result }
    {
        let mut ticks = [0; MOST_TICKS];
        ticks[0] = tick;
        let mut weights = [0; MOST_TICKS];
        weights[0] = weight;
        self.lagrangian_of(0, &Multipliers { ticks, weights })
    }

    // A relaxation whose weighed ticks are chosen for a set.
    pub fn relaxation_of(&self, set: usize) -> Lagrangian
        ensures { Relaxes self.now.timed self.now.timings.now self.now.cost.now result }
    {
        let weighed = self.fitted(&Part::of_set(set), None);
        self.lagrangian_of(0, &weighed)
    }

    // The relaxation of the same ticks as another's, with the weights that are best for a part.
    pub fn relaxation_from(&self, relaxed: &Lagrangian, part: &Part) -> Lagrangian
        ensures relaxes { Relaxes self.now.timed self.now.timings.now self.now.cost.now result }
        ensures fixed_value { result.fixed ≡ part.now.fixed }
    {
        let weighed = self.fitted(part, Some(relaxed.ticks));
        self.lagrangian_of(part.fixed, &weighed)
    }
}
