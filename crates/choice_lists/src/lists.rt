// The choices of levels for each set of the first few items, as lists: only choices are left out that another one beats,
// whatever stands behind.
ghost use Rattle.std.specs.Prelude.{◌≡◌, suc, ◌-◌, ◌≤◌, ◌<◌, OnErr, OnOk, length, set};
ghost use Rattle.choice_lists.specs.Listed.{FrontListed, nothing};
ghost use Rattle.choice_lists.specs.ListedFront.{front_at, ListsFit, most_listed, most_starts};
ghost use Rattle.choice_lists.specs.ListedSets.{NextSetFits, SetAdded, SetFits, SetsFit, SetsGoing, WithItem};
ghost use Rattle.assignment.specs.Limits.{most_items};
ghost use Rattle.knapsack.specs.Offered.{Affordable};

use crate::long::list_long;
use crate::points::{NOTHING, Offers, Part};
use crate::short::append_item;
use knapsack::{Choice, Core, Front};
use values::{keys_of, sets_of};

// At most so many items have lists.
const MOST_LISTED: usize = 6;

// Where the list of each set of these starts, and where the last one ends.
pub const STARTS: usize = (1 << MOST_LISTED) + 1;

// Points and starts stay two slices in what follows: of a struct that lends both, each contract would also have to say that it
// still lends the same two.

// There is no room for the lists of all sets.
#[derive(Clone, Copy)]
struct NoRoom;

// The list of a set with the item, behind the first `used` points, from that of the set without it, in the way that takes
// less time. Answers where it ends.
fn list_set(front: Front, part: Part, used: usize, offers: Offers, points: &mut [Choice]) -> usize
    requires { SetFits front part.from part.to used offers.load.now offers.cost.now points.old }
    ensures { SetAdded front part.from part.to used offers.entry.load.now offers.entry.cost.now points.old points.new result }
{
    if part.is_short(front.core) {
        append_item(front, part, used, offers, points)
    } else {
        list_long(front, part, used, offers, points)
    }
}

// The list of the set with the item and set number k of the `count` items behind it.
fn list_next(
    front: Front,
    count: usize,
    k: usize,
    offers: Offers,
    points: &mut [Choice],
    starts: &mut [usize],
) -> Result<(), NoRoom>
    requires { NextSetFits front count k offers.load.now offers.cost.now points.old starts.old }
    ensures { OnOk result (SetsGoing front count offers.entry.load.now offers.entry.cost.now (suc k) points.new starts.new) }
{
    let at = sets_of(count) + k;
    let part = Part {
        from: starts[k],
        to: starts[k + 1],
    };
    let used = starts[at];
    if points.len() - used < part.most_points(front.core) {
        return Err(NoRoom);
    }
    starts[at + 1] = list_set(front, part, used, offers, points);
    Ok(())
}

// The lists of all sets with the item, from those of the sets of the `count` items behind it.
fn list_sets(
    front: Front,
    count: usize,
    offers: Offers,
    points: &mut [Choice],
    starts: &mut [usize],
) -> Result<(), NoRoom>
    requires { SetsFit front count offers.load.now offers.cost.now points.old starts.old }
    ensures { OnOk result (WithItem front count offers.entry.load.now offers.entry.cost.now points.new starts.new) }
{
    for k in 0..sets_of(count) {
        list_next(front, count, k, offers, points, starts)?;
    }
    Ok(())
}

// The one set of no item, with the one choice of nothing.
fn list_none(points: &mut [Choice], starts: &mut [usize])
    requires some_points { 0 < length points.old }
    requires in_bounds { 1 < length starts.old }
    ensures points_after { points.new ≡ set points.old 0 nothing }
    ensures starts_after { starts.new ≡ set (set starts.old 0 0) 1 1 }
{
    points[0] = NOTHING;
    starts[0] = 0;
    starts[1] = 1;
}

// The item before the last c of the first n of all items, on a core.
fn front_at(core: Core, n: usize, c: usize, items: usize) -> Front
    requires { (c < n) × (n ≤ items) × (items ≤ most_items) }
    ensures { result ≡ front_at core n c items }
{
    let places = items - n + c;
    Front {
        core,
        item: n - 1 - c,
        places,
        digit: keys_of(places),
    }
}

// The lists of all sets of the first n items.
fn list_items(
    core: Core,
    n: usize,
    items: usize,
    offers: Offers,
    points: &mut [Choice],
    starts: &mut [usize],
) -> Result<(), NoRoom>
    requires { ListsFit core n items offers.load.now offers.cost.now points.old starts.old }
    ensures front_listed { OnOk result (FrontListed core offers.entry.load.now offers.entry.cost.now
        n (items - n) points.new starts.new) }
    ensures some_items { OnErr result (0 < n) }
{
    list_none(points, starts);
    for c in 0..n {
        let front = front_at(core, n, c, items);
        list_sets(front, c, offers, points, starts)?;
    }
    Ok(())
}

// The lists of all sets of as many of the first items as fit. Answers how many these are.
pub fn list_front(
    core: Core,
    items: usize,
    load: &[u64],
    cost: &[u64],
    points: &mut [Choice],
    starts: &mut [usize],
) -> usize
    requires le_most_items { items ≤ most_items }
    requires affordable { Affordable items core.levels core.capacity load.now cost.now }
    requires some_points { 0 < length points.old }
    requires most_starts_in_bounds { most_starts ≤ length starts.old }
    ensures upper_bound { (result ≤ items) × (result ≤ most_listed) }
    ensures front_listed { FrontListed core load.now cost.now result (items - result) points.new starts.new }
{
    let offers = Offers { load, cost };
    let mut n = items.min(MOST_LISTED);
    while list_items(core, n, items, offers, points, starts).is_err() {
        n -= 1;
    }
    n
}
