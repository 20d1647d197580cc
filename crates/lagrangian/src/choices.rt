// The levels that are cheapest at given prices, for the items of a set.
ghost use Rattle.std.specs.Prelude.{◌^◌, ◌<◌, ◌≤◌};
ghost use Rattle.assignment.specs.Keys.{key_base};
ghost use Rattle.assignment.specs.Limits.{most_items, most_levels};
ghost use Rattle.lagrangian.specs.TimedItems.{TimedReady};
ghost use Rattle.lagrangian.specs.Lagrangians.{most_price};
ghost use Rattle.lagrangian.specs.PriceColumns.{LowPrices};

use crate::Timed;
use crate::cores::TimedCore;
use values::{KEY_BASE, MOST_ITEMS};

pub fn is_in_set(items: usize, set: usize, item: usize) -> bool
    requires { (item < items) × (items ≤ most_items) }
{
    (set >> (items - 1 - item)) & 1 == 1
}

impl TimedCore<'_> {
    // The choice of an item in a key: its cheapest level, where it is in the set.
    fn choice_in_set(&self, set: usize, item: usize, price: u64) -> u64
        requires is_item { item < self.now.timed.items }
        requires low_price { price ≤ most_price }
        ensures { result ≤ most_levels }
    {
        if !is_in_set(self.timed.items, set, item) {
            return 0;
        }
        self.cheapest_level(item, price).level as u64 + 1
    }
    // The key of the levels that are cheapest at these prices, for the items of a set.
    pub fn cheapest_key(&self, set: usize, prices: &[u64; MOST_ITEMS]) -> u64
        requires { LowPrices prices.now }
        ensures { result < key_base ^ self.now.timed.items }
    {
        let mut key = 0;
        for item in 0..self.timed.items {
            key = key * KEY_BASE + self.choice_in_set(set, item, prices[item]);
        }
        key
    }
}
