// A core whose jobs are due at given ticks, with the timings and the costs of its items.
ghost use Rattle.std.specs.Prelude.{◌<◌};
ghost use Rattle.assignment.specs.Limits.{most_levels};
ghost use Rattle.lagrangian.specs.TimedItems.{TimedReady};

use crate::{TIMING_WIDTH, Timed};

// The timings and the costs are those of the items, a row for each.
#[derive(Drop)]
pub struct TimedCore<'a> {
    pub timed: Timed,
    pub timings: &'a [u32],
    pub cost: &'a [u64],
    pub ghost ready: { TimedReady timed timings.now cost.now },
}

impl TimedCore<'_> {
    // The ticks of a job of an item at a level.
    pub(crate) fn ticks(&self, item: usize, level: usize) -> u32
        requires is_item { item < self.now.timed.items }
        requires is_level { level < most_levels }
    {
        self.timings[item * TIMING_WIDTH + 2 + level]
    }
}
