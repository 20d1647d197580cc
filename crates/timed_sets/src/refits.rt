// A relaxation for the patterns that go on from a node: what was chosen for the whole set bounds them less and less well, the more
// items have their level.
ghost use Rattle.std.specs.Prelude.{Bool, true, List, ◌≡◌, ℕ, ◌≤◌, ◌<◌};
ghost use Rattle.assignment.specs.Limits.{most_items};
ghost use Rattle.lagrangian.specs.Lagrangians.{Relaxes};
ghost use Rattle.lagrangian.specs.TimedItems.{TimedReady};
ghost use Rattle.timed_parts.specs.Nodes.{Stands};

use lagrangian::{FEW_ITEMS, Lagrangian, Part, Timed, TimedCore, has_few_items};
use timed_parts::{Bounded, Node};

// Whether the weights are to be fitted to the node: once for all levels of the next item, and not where few items are open.
pub(crate) fn is_refit_due(bounded: Bounded, node: Node) -> bool
    requires { (bounded.timed.items ≤ most_items) × (node.item ≤ bounded.timed.items) }
    ensures { result ≡ true → bounded.relaxed.fixed < node.item }
{
    if 0 < node.level {
        return false;
    }
    if node.item <= bounded.relaxed.fixed {
        return false;
    }
    if bounded.timed.items < node.item + FEW_ITEMS {
        return false;
    }
    !has_few_items(bounded.timed.items, node.rest)
}

// The relaxation of the same ticks, with the weights that are best for what goes on from the node.
pub(crate) fn refitted(
    timed: Timed,
    relaxed: Lagrangian,
    node: Node,
    timings: &[u32],
    cost: &[u64],
) -> Lagrangian
    requires timed_ready { TimedReady timed timings.now cost.now }
    requires by_index { (q : List ℕ) × (T : List Bool) × Stands timed timings.now cost.now node q T }
    ensures relaxes { Relaxes timed timings.now cost.now result }
    ensures fixed_value { result.fixed ≡ node.item }
{
    let core = TimedCore {
        timed,
        timings,
        cost,
    };
    let ticks = node.ticks;
    let part = Part {
        fixed: node.item,
        open: node.rest,
        ticks,
    };
    core.relaxation_from(&relaxed, &part)
}
