// Prices of ticks such that what an admitted pattern's ticks come to stays within a budget.
ghost use Rattle.std.specs.Prelude.{ℕ, ◌+◌, ◌*◌, ◌<◌, ◌≤◌, List};
ghost use Rattle.ranges.specs.Limits.{most_span};
ghost use Rattle.assignment.specs.Limits.{most_items};
ghost use Rattle.lagrangian.specs.declared.Timed.{Timed};
ghost use Rattle.lagrangian.specs.TimedItems.{TimedItems};
ghost use Rattle.lagrangian.specs.Lagrangians.{most_price, WithinBudget};
ghost use Rattle.lagrangian.specs.PriceColumns.{most_weight, FewJobs, JobsBy, Raised, LowPrices};

use crate::cores::TimedCore;
use crate::{TIMING_WIDTH, Timed};
use demand::jobs_due;
use values::MOST_ITEMS;

// Within these limits all sums fit 64 bits: 2^40, 2^44 and 2^58.
const MOST_WEIGHT: u64 = 0x100_0000_0000;

const MOST_PRICE: u64 = 0x1000_0000_0000;

const MOST_BUDGET: u64 = 0x400_0000_0000_0000;

// The price of a tick of a job of each item, and what the ticks of an admitted pattern come to at most.
#[derive(Clone, Copy)]
pub(crate) struct Prices {
    pub(crate) prices: [u64; MOST_ITEMS],
    pub(crate) budget: u64,
}

impl Prices {
    // No tick has a price.
    pub(crate) fn free() -> Prices
        ensures { (timed : Timed) (timings : List ℕ) → WithinBudget timed timings result.prices result.budget }
    {
        Prices {
            prices: [0; MOST_ITEMS],
            budget: 0,
        }
    }
}

// How many jobs of each item are due by a tick.
pub fn jobs_by(timed: Timed, tick: u32, timings: &[u32]) -> [u32; MOST_ITEMS]
    requires timed_items { TimedItems timed timings.now }
    requires tick_le_span { tick ≤ timed.span }
    ensures { JobsBy tick timings.now timed.items result }
{
    let mut jobs = [0; MOST_ITEMS];
    for i in 0..timed.items {
        jobs[i] = jobs_due(
            timings[i * TIMING_WIDTH],
            timings[i * TIMING_WIDTH + 1],
            tick,
        );
    }
    jobs
}

// A price raised by a weight for each job, as far as prices go.
fn raised_price(price: u64, weight: u64, jobs: u32) -> u64
    requires { (price ≤ most_price) × (weight ≤ most_weight) × (jobs ≤ most_span) }
    ensures { (result ≤ price + weight * jobs) × (result ≤ most_price) }
{
    (price + weight * jobs as u64).min(MOST_PRICE)
}

// The prices of so many items raised by a weight for each of their jobs.
fn raised_prices(
    items: usize,
    prices: [u64; MOST_ITEMS],
    weight: u64,
    jobs: [u32; MOST_ITEMS],
) -> [u64; MOST_ITEMS]
    requires le_most_items { (items ≤ most_items) × (weight ≤ most_weight) }
    requires low_prices { LowPrices prices }
    requires few_jobs { FewJobs jobs }
    ensures { Raised weight jobs prices items result }
{
    let mut raised = prices;
    for i in 0..items {
        raised[i] = raised_price(prices[i], weight, jobs[i]);
    }
    raised
}

impl TimedCore<'_> {
    // With one tick more, at a weight: each price rises by the weight for each job due by the tick, the budget by the weight for each tick
    // up to it. A tick after the span, and a weight or a budget above its limit, change nothing.
    pub(crate) fn with_tick(&self, known: Prices, tick: u32, weight: u64) -> Prices
        requires { WithinBudget self.now.timed self.now.timings.now known.prices known.budget }
        ensures { WithinBudget self.now.timed self.now.timings.now result.prices result.budget }
    {
        if weight == 0 || self.timed.span < tick || MOST_WEIGHT < weight {
            return known;
        }
        let budget = known.budget + weight * tick as u64;
        if MOST_BUDGET < budget {
            return known;
        }
        let jobs = jobs_by(self.timed, tick, self.timings);
        Prices {
            prices: raised_prices(self.timed.items, known.prices, weight, jobs),
            budget,
        }
    }
}
