// The search through the patterns that go on from a part.
ghost use Rattle.std.specs.Prelude.{Bool, List, ℕ, ◌≡◌, length};
ghost use Rattle.lagrangian.specs.TimedItems.{TimedItems};
ghost use Rattle.timed_sets.specs.Searches.{SearchReady, StandsIn, FoundIn};
ghost use Rattle.timed_parts.specs.Nodes.{Stands};
ghost use Rattle.timed_sets.specs.Found.{SmallWorth, FoundFrom, worth_at};
ghost use Rattle.assignment.specs.Limits.{most_items};

use crate::order::may_run;
use crate::refits::{is_refit_due, refitted};
use lagrangian::{TIMING_WIDTH, Timed};
use timed_parts::{Bounded, Node, is_admitted};
use values::{MOST_ITEMS, STRIDE, Worth, sets_of};

// A whole pattern, where it comes before the best so far and the core admits it.
pub(crate) fn with_whole(timed: Timed, node: Node, best: Worth, timings: &[u32]) -> Worth
    requires timed_items { TimedItems timed timings.now }
    requires ticks_len { length node.ticks ≡ most_items }
    ensures by_index { (cost partners q : List ℕ) (T : List Bool) → node.item ≡ timed.items → Stands timed timings.now cost node q T →
        FoundFrom timed timings.now cost partners node q T best result }
    ensures small_worth { SmallWorth timed (worth_at node) → SmallWorth timed best → SmallWorth timed result }
{
    if is_admitted(timed, node, timings) {
        return best.min(Worth {
            cost: node.cost,
            key: node.key,
        });
    }
    best
}

// What a search of one set reads: the timings and costs of the items, what leaves parts of patterns out, which are a relaxation, a table
// of lower values and rows of due jobs, and the partner of each item. Its facts are a clause of its methods and no ghost field, since that
// a value comes no later than another may have several proofs.
#[derive(Clone, Copy)]
pub(crate) struct Search<'a> {
    pub(crate) bounded: Bounded,
    pub(crate) timings: &'a [u32],
    pub(crate) cost: &'a [u64],
    pub(crate) lowcosts: &'a [u64],
    pub(crate) lowkeys: &'a [u64],
    pub(crate) rows: &'a [u32],
    pub(crate) partners: [Option<usize>; MOST_ITEMS],
}

impl Search<'_> {
    // The least of the best so far and of the values of all admitted patterns that go on from the node with the items in order; it may be
    // the value of another one.
    pub(crate) fn least_from(&self, node: Node, best: Worth) -> Worth
        requires ready { SearchReady self.now }
        requires stands { (q : List ℕ) × (T : List Bool) × StandsIn self.now node q T }
        requires small_worth { SmallWorth self.now.bounded.timed best }
        ensures found { (q : List ℕ) (T : List Bool) → StandsIn self.now node q T → FoundIn self.now node q T best result }
        ensures small_worth_2 { SmallWorth self.now.bounded.timed result }
    {
        if !self.is_promising(node, best) {
            return best;
        }
        let timed = self.bounded.timed;
        let timings = self.timings;
        let cost = self.cost;
        if is_refit_due(self.bounded, node) {
            let relaxed = refitted(timed, self.bounded.relaxed, node, timings, cost);
            let refit = Search {
                bounded: Bounded { timed, relaxed },
                ..*self
            };
            return refit.least_from(node, best);
        }
        let i = node.item;
        if i == timed.items {
            return with_whole(timed, node, best, timings);
        }
        let half = sets_of(timed.items - i - 1);
        if node.rest < half {
            return self.least_from(node.passed_over(), best);
        }
        let l = node.level;
        if l == timed.levels {
            return best;
        }
        if !may_run(node, timings, &self.partners) {
            return self.least_from(node.next_level(), best);
        }
        let child = node.run_at(
            half,
            timings[i * TIMING_WIDTH + 2 + l],
            cost[i * STRIDE + l],
        );
        let here = self.least_from(child, best);
        self.least_from(node.next_level(), here)
    }
}
