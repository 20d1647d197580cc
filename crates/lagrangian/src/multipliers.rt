// Ticks that are weighed, and the prices that follow from their weights.
ghost use Rattle.lagrangian.specs.Lagrangians.{WithinBudget};

use crate::cores::TimedCore;
use crate::prices::Prices;

// How many ticks are weighed at most. Tick 0, by which nothing is due, stands where a place is free.
pub const MOST_TICKS: usize = 8;

// The ticks that are weighed, and their weights.
#[derive(Clone, Copy)]
pub(crate) struct Multipliers {
    pub(crate) ticks: [u32; MOST_TICKS],
    pub(crate) weights: [u64; MOST_TICKS],
}

impl TimedCore<'_> {
    // The prices of ticks with weights.
    pub(crate) fn prices_of(&self, weighed: &Multipliers) -> Prices
        ensures { WithinBudget self.now.timed self.now.timings.now result.prices result.budget }
    {
        let mut known = Prices::free();
        for (tick, weight) in weighed.ticks.iter().zip(&weighed.weights) {
            known = self.with_tick(known, *tick, *weight);
        }
        known
    }
}
