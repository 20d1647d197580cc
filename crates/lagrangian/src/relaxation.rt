// The Lagrangian relaxation of one core: what each item costs at least, its ticks at their price included.
ghost use Rattle.std.specs.Prelude.{◌≡◌, ◌+◌, ◌<◌, ◌≤◌};
ghost use Rattle.lagrangian.specs.Lagrangians.{most_price, Relaxes};
ghost use Rattle.lagrangian.specs.PricedLevels.{Cheapest};

use crate::cores::TimedCore;
use crate::multipliers::Multipliers;
use crate::windows::is_within_window;
use crate::{Lagrangian, TIMING_WIDTH};
use values::{MOST_ITEMS, STRIDE};

// More than an item costs at any level at which a job has its ticks within its window, whatever the prices are: 2^57.
const MOST_PRICED: u64 = 0x200_0000_0000_0000;

// A level of an item, and what it costs with the ticks of a job there at their price.
#[derive(Clone, Copy)]
pub(crate) struct PricedLevel {
    pub(crate) level: usize,
    pub(crate) cost: u64,
}

impl TimedCore<'_> {
    // The cheaper of the best so far and a level, where a job has its ticks within its window there.
    fn cheaper_level(&self, best: PricedLevel, level: usize, item: usize, price: u64) -> PricedLevel
        requires is_item { item < self.now.timed.items }
        requires is_level { level < self.now.timed.levels }
        requires low_price { price ≤ most_price }
        requires cheapest { Cheapest item price self.now.timings.now self.now.cost.now level best }
        ensures { Cheapest item price self.now.timings.now self.now.cost.now (level + 1) result }
    {
        if !is_within_window(item, level, self.timings) {
            return best;
        }
        let ticks = self.timings[item * TIMING_WIDTH + 2 + level];
        let cost = self.cost[item * STRIDE + level] + price * ticks as u64;
        if cost < best.cost {
            return PricedLevel { level, cost };
        }
        best
    }

    // The cheapest level of an item at a price, of those at which a job has its ticks within its window. Where there is none, it is the
    // first, at more than any level costs.
    pub(crate) fn cheapest_level(&self, item: usize, price: u64) -> PricedLevel
        requires is_item { item < self.now.timed.items }
        requires low_price { price ≤ most_price }
        ensures { Cheapest item price self.now.timings.now self.now.cost.now self.now.timed.levels result }
    {
        let mut best = PricedLevel {
            level: 0,
            cost: MOST_PRICED,
        };
        for level in 0..self.timed.levels {
            best = self.cheaper_level(best, level, item, price);
        }
        best
    }

    // The Lagrangian of ticks with weights, chosen for parts of which so many items are fixed.
    pub(crate) fn lagrangian_of(&self, fixed: usize, weighed: &Multipliers) -> Lagrangian
        ensures relaxes { Relaxes self.now.timed self.now.timings.now self.now.cost.now result }
        ensures fixed_value { result.fixed ≡ fixed }
    {
        let known = self.prices_of(weighed);
        let prices = known.prices;
        let mut least = [0; MOST_ITEMS];
        for i in 0..self.timed.items {
            least[i] = self.cheapest_level(i, prices[i]).cost;
        }
        Lagrangian {
            prices,
            least,
            budget: known.budget,
            ticks: weighed.ticks,
            fixed,
        }
    }
}
