// Short lists of choices: those of one set more are written as they come.
ghost use Rattle.choice_lists.specs.Appended.{ItemAppended, ItemRoom, LevelAppended, LevelRoom};

use crate::points::{Offers, Part, sum_of};
use knapsack::{Choice, Front};

// The choice with each point of the list becomes a point, from the point `start` on, where the capacity takes both.
// Answers where they end.
fn append_level(
    capacity: usize,
    choice: Choice,
    part: Part,
    start: usize,
    points: &mut [Choice],
) -> usize
    requires { LevelRoom capacity choice part.from part.to start points.old }
    ensures { LevelAppended capacity choice part.from part.to start points.old points.new result }
{
    let mut end = start;
    // An index, since the slice that is read is written behind the list.
    for p in part.from..part.to {
        let sum = sum_of(choice, points[p]);
        if sum.load <= capacity {
            points[end] = sum;
            end += 1;
        }
    }
    end
}

// The item at each level.
pub(crate) fn append_item(
    front: Front,
    part: Part,
    used: usize,
    offers: Offers,
    points: &mut [Choice],
) -> usize
    requires { ItemRoom front part.from part.to used offers.load.now offers.cost.now points.old }
    ensures { ItemAppended front part.from part.to used offers.entry.load.now offers.entry.cost.now points.old
        front.core.levels points.new result }
{
    let mut end = used;
    for l in 0..front.core.levels {
        let choice = front.choice_at(offers.load, offers.cost, l);
        if choice.load <= front.core.capacity {
            end = append_level(front.core.capacity, choice, part, end, points);
        }
    }
    end
}
