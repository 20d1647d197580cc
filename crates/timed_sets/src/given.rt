// What a given pattern is worth.
ghost use Rattle.std.specs.Prelude.{Bool, List, ◌≡◌, ℕ, ◌/◌, ◌%◌, ◌^◌, ◌≤◌};
ghost use Rattle.assignment.specs.Keys.{key_base};
ghost use Rattle.assignment.specs.Limits.{most_items};
ghost use Rattle.lagrangian.specs.TimedItems.{TimedReady};
ghost use Rattle.timed_parts.specs.Nodes.{Stands};
ghost use Rattle.timed_sets.specs.Found.{OneFrom, SmallWorth};

use crate::search::with_whole;
use lagrangian::{TIMING_WIDTH, Timed, is_within_window};
use timed_parts::Node;
use values::{KEY_BASE, STRIDE, Worth, keys_of, sets_of};

// The choice at a place of a key, counted from the last.
pub(crate) fn choice_at(key: u64, place: usize) -> usize
    requires { place ≤ most_items }
    ensures { result ≡ key / key_base ^ place % key_base }
{
    (key / keys_of(place) % KEY_BASE) as usize
}

// What the pattern that a key stands for is worth, where it goes on from the node and the core admits it; else none, as a
// table has it: the lesser of that and of another worth is the other.
pub(crate) fn worth_along(
    timed: Timed,
    node: Node,
    key: u64,
    timings: &[u32],
    cost: &[u64],
) -> Worth
    requires timed_ready { TimedReady timed timings.now cost.now }
    requires by_index { (q : List ℕ) × (T : List Bool) × Stands timed timings.now cost.now node q T }
    ensures by_index_2 { (q : List ℕ) (T : List Bool) → Stands timed timings.now cost.now node q T →
        OneFrom timed timings.now cost.now q T result }
    ensures small_worth { SmallWorth timed result }
{
    let i = node.item;
    if i == timed.items {
        return with_whole(timed, node, Worth::NONE, timings);
    }
    let place = timed.items - i - 1;
    let half = sets_of(place);
    if node.rest < half {
        return worth_along(timed, node.passed_over(), key, timings, cost);
    }
    let choice = choice_at(key, place);
    if choice == 0 {
        return Worth::NONE;
    }
    let l = choice - 1;
    if timed.levels <= l {
        return Worth::NONE;
    }
    if !is_within_window(i, l, timings) {
        return Worth::NONE;
    }
    let child = node.at_level(l).run_at(
        half,
        timings[i * TIMING_WIDTH + 2 + l],
        cost[i * STRIDE + l],
    );
    worth_along(timed, child, key, timings, cost)
}
