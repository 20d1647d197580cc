// Long lists of choices: those of one set more are spread over all loads, and only those are kept that no other beats.
ghost use Rattle.std.specs.Prelude.{suc, ◌+◌, ◌≤◌, ◌<◌, length};
ghost use Rattle.choice_lists.specs.ListedSets.{SetAdded};
ghost use Rattle.choice_lists.specs.Spread.{Cleared, ItemFits, ItemSpread, LevelSpread, SumsSmall};
ghost use Rattle.choice_lists.specs.Sweep.{Swept};

use crate::points::{Offers, Part, sum_of};
use knapsack::{Choice, Front};
use values::{ENTRIES, Worth};

// The choice with each point of the list, where it is the best so far of its load.
fn spread_level(capacity: usize, choice: Choice, list: &[Choice], spread: &mut [Worth])
    requires sums_small { SumsSmall capacity choice 0 (length list.now) list.now }
    requires long { capacity < length spread.old }
    ensures { LevelSpread capacity choice 0 (length list.now) list.now spread.old spread.new }
{
    for point in list {
        let sum = sum_of(choice, *point);
        if sum.load <= capacity {
            let worth = Worth {
                cost: sum.cost,
                key: sum.key,
            };
            spread[sum.load] = spread[sum.load].min(worth);
        }
    }
}

// The item at each level.
fn spread_item(front: Front, list: &[Choice], offers: Offers, spread: &mut [Worth])
    requires item_fits { ItemFits front 0 (length list.now) offers.load.now offers.cost.now list.now }
    requires long { front.core.capacity < length spread.old }
    requires cleared { Cleared front.core.capacity spread.old }
    ensures { ItemSpread front 0 (length list.now) offers.entry.load.now offers.entry.cost.now list.now
        front.core.levels spread.new }
{
    for l in 0..front.core.levels {
        let choice = front.choice_at(offers.load, offers.cost, l);
        if choice.load <= front.core.capacity {
            spread_level(front.core.capacity, choice, list, spread);
        }
    }
}

// The choices that come before all of smaller load become points, from the point `from` on. Answers where they end.
fn sweep(capacity: usize, from: usize, spread: &[Worth], points: &mut [Choice]) -> usize
    requires long { capacity < length spread.now }
    requires room { from + suc capacity ≤ length points.old }
    ensures { Swept capacity from spread.now points.old points.new result }
{
    let mut best = Worth::NONE;
    let mut to = from;
    for (load, worth) in spread[..=capacity].iter().enumerate() {
        if *worth < best {
            points[to] = Choice {
                load,
                cost: worth.cost,
                key: worth.key,
            };
            best = *worth;
            to += 1;
        }
    }
    to
}

// The list of a set with the item, behind the first `used` points, from that of the set without it: spread over all loads,
// and swept. Answers where it ends.
pub(crate) fn list_long(
    front: Front,
    part: Part,
    used: usize,
    offers: Offers,
    points: &mut [Choice],
) -> usize
    requires item_fits { ItemFits front part.from part.to offers.load.now offers.cost.now points.old }
    requires room { used + suc front.core.capacity ≤ length points.old }
    ensures { SetAdded front part.from part.to used offers.entry.load.now offers.entry.cost.now points.old points.new result }
{
    let mut spread = [Worth::NONE; ENTRIES];
    let list = &points[part.from..part.to];
    spread_item(front, list, offers, &mut spread);
    sweep(front.core.capacity, used, &spread, points)
}
