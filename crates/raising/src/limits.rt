// Up to where a set is searched.
ghost use Rattle.std.specs.Prelude.{ℕ, ◌*◌, ◌≤◌, ◌<◌};
ghost use Rattle.assignment.specs.Limits.{most_cost, most_items};
ghost use Rattle.assignment.specs.Words.{no_cost};
ghost use Rattle.raising.specs.RaisedTables.{most_tries};
ghost use Rattle.raising.specs.TimedSites.{LimitReady, LimitAt, LimitOf};

use lagrangian::{has_few_items, size_of};
use set_tables::MOST_CORE_COST;
use values::Worth;

// How often a set is tried at most.
pub(crate) const TRIES: u32 = 20;

// With so many tries left the cost of a set's entry is most often its least: a pattern of that cost is looked for, with the least key.
pub(crate) const KEY_TRY: u32 = 2;

// The limit of this cost and key; none where no core may cost so much.
fn limit_at(cost: u64, key: u64) -> Worth
    ensures { LimitAt cost key result }
{
    if MOST_CORE_COST < cost {
        return Worth::NONE;
    }
    Worth { cost, key }
}

// Where the tries left and the items of a set come to so many, a try would go as far above the entry as the entry is net of idle energy: it goes as
// far as there is.
const FEWEST_HALVINGS: usize = 22;

// Sets with so many items are searched in shorter steps: the time of a search grows steeply with the distance from the least value.
const MANY_ITEMS: usize = 10;

// What an entry costs net of the idle energy that is later taken off: the distance to the least value is some part of it.
fn net_of_idle(size: usize, whole: u64, low: u64) -> u64
    requires { (size ≤ most_items) × (whole ≤ most_cost) }
    ensures { result ≤ low }
{
    low.saturating_sub(size.saturating_sub(1) as u64 * whole)
}

// How far above its entry a set with many items is searched: with every second try twice as far, in between half as far again.
fn room_of_many(size: usize, left: u32, net: u64) -> u64
    requires { (10 ≤ size) × (size ≤ most_items) × (left ≤ most_tries) × (net ≤ no_cost) }
    ensures { result ≤ 2 * net }
{
    let steps = 2 * size + left as usize - 18;
    let halvings = steps / 2;
    if steps % 2 == 0 {
        return net >> halvings;
    }
    (net >> (halvings + 1)) + (net >> (halvings + 2))
}

// Up to where a set is searched, from its entry on: each try goes above the entry twice as far as the one before it, and for a set of one
// item less twice as far too, since it takes less time; with many items in shorter steps. The last try but one does not go above the entry,
// and the last goes as far as there is.
pub(crate) fn limit_of(items: usize, whole: u64, set: usize, left: u32, low: u64, key: u64) -> Worth
    requires limit_ready { LimitReady items left low key }
    requires whole_le_most_cost { whole ≤ most_cost }
    ensures { LimitOf items left low key result }
{
    if has_few_items(items, set) {
        return Worth::NONE;
    }
    if left < KEY_TRY {
        return Worth::NONE;
    }
    if left == KEY_TRY {
        return limit_at(low + 1, key);
    }
    let size = size_of(items, set);
    let net = net_of_idle(size, whole, low);
    if MANY_ITEMS <= size {
        return limit_at(low + room_of_many(size, left, net) + 1, key);
    }
    let halvings = left as usize + size;
    if halvings <= FEWEST_HALVINGS {
        return Worth::NONE;
    }
    limit_at(low + (net >> (halvings - FEWEST_HALVINGS)) + 1, key)
}

// Before the first round a search goes one part in 32 above the entry.
const FIRST_SHIFT: usize = 5;

// Up to where a set is searched before the first round, whichever it is.
pub(crate) fn first_limit(low: u64, key: u64) -> Worth
    requires { low ≤ no_cost }
    ensures { (n tries : ℕ) → LimitReady n tries low key → 1 < tries → LimitOf n tries low key result }
{
    limit_at(low + (low >> FIRST_SHIFT) + 1, key)
}
