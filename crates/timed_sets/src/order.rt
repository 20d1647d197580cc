// Levels that are not tried, since two items that are alike but for their windows could exchange theirs.
ghost use Rattle.std.specs.Prelude.{true, false, ◌≡◌, ◌+◌, ◌*◌, ◌≤◌, ◌<◌, length, get_or};
ghost use Rattle.assignment.specs.Limits.{most_items};
ghost use Rattle.lagrangian.specs.TimedCores.{timing_at, timing_width};
ghost use Rattle.timed_parts.specs.Nodes.{SmallNode};
ghost use Rattle.timed_sets.specs.Exchange.{LevelOutOfOrder, NotRun};
ghost use Rattle.timed_sets.specs.PartnerColumns.{numbers_of};

use crate::given::choice_at;
use crate::partners::is_due_sooner;
use lagrangian::{TIMING_WIDTH, is_within_window};
use timed_parts::Node;

// Whether the node's level keeps its item and the item's partner in order: not where the partner is due sooner and has more ticks, nor
// where it is due no sooner and has a higher level with no more ticks.
fn is_in_order(node: Node, timings: &[u32], partners: &[Option<usize>]) -> bool
    requires small_node { SmallNode node }
    requires level_in_bounds { node.item * timing_width + 2 + node.level < length timings.now }
    requires partners_len { (length partners.now ≡ most_items) × (get_or (numbers_of partners.now) node.item 0 ≤ node.item) }
    ensures { result ≡ false → LevelOutOfOrder timings.now (numbers_of partners.now) node }
{
    let Some(partner) = partners[node.item] else {
        return true;
    };
    let its = timings[node.item * TIMING_WIDTH + 2 + node.level];
    let partners_ticks = node.ticks[partner];
    if is_due_sooner(partner, node.item, timings) {
        return partners_ticks <= its;
    }
    if its < partners_ticks {
        return true;
    }
    choice_at(node.key, node.item - partner - 1) <= node.level + 1
}

// Whether the node's item may run at the node's level: a job has its ticks within its window there, and the item and its partner are in
// order.
pub(crate) fn may_run(node: Node, timings: &[u32], partners: &[Option<usize>]) -> bool
    requires small_node { SmallNode node }
    requires level_in_bounds { node.item * timing_width + 2 + node.level < length timings.now }
    requires partners_len { (length partners.now ≡ most_items) × (get_or (numbers_of partners.now) node.item 0 ≤ node.item) }
    ensures level_bound { result ≡ true →
        (timing_at timings.now node.item).ticks node.level ≤ (timing_at timings.now node.item).window }
    ensures not_run { result ≡ false → NotRun timings.now (numbers_of partners.now) node }
{
    is_within_window(node.item, node.level, timings) && is_in_order(node, timings, partners)
}
