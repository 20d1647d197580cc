// What leaves a part of a pattern out of the search.
ghost use Rattle.std.specs.Prelude.{Bool, false, List, ◌≡◌, ℕ, ◌≤◌};
ghost use Rattle.assignment.specs.Words.{no_cost};
ghost use Rattle.timed_sets.specs.Searches.{SearchReady, StandsIn, NothingBeforeIn};

use crate::search::Search;
use timed_parts::{Node, is_overdue, relaxed_is_cheaper};
use values::{NO_COST, Worth, keys_of};

impl Search<'_> {
    // Whether what the node is worth and the table's value of the items still to come come before the best so far.
    fn bound_comes_first(&self, node: Node, best: Worth) -> bool
        requires ready { SearchReady self.now }
        requires stands { (q : List ℕ) × (T : List Bool) × StandsIn self.now node q T }
        ensures { (q : List ℕ) (T : List Bool) → StandsIn self.now node q T → result ≡ false →
            NothingBeforeIn self.now node q T best }
    {
        let timed = self.bounded.timed;
        let lowcosts = self.lowcosts;
        let lowkeys = self.lowkeys;
        let low = lowcosts[node.rest];
        // The table's entries are numbers, in which none is a cost from there on.
        if NO_COST <= low {
            return false;
        }
        let bound = Worth {
            cost: node.cost + low,
            key: node.key * keys_of(timed.items - node.item) + lowkeys[node.rest],
        };
        bound < best
    }

    // Whether something that goes on from the node can come before the best so far: not where a bound of it does not, and not where the
    // node is overdue. That is tested once for all levels of the next item: from one level to the next only the best so far may change.
    pub(crate) fn is_promising(&self, node: Node, best: Worth) -> bool
        requires ready { SearchReady self.now }
        requires stands { (q : List ℕ) × (T : List Bool) × StandsIn self.now node q T }
        requires cost_le_no_cost { best.cost ≤ no_cost }
        ensures { (q : List ℕ) (T : List Bool) → StandsIn self.now node q T → result ≡ false →
            NothingBeforeIn self.now node q T best }
    {
        if 0 < node.level {
            return true;
        }
        if !self.bound_comes_first(node, best) {
            return false;
        }
        if !relaxed_is_cheaper(self.bounded, node, best) {
            return false;
        }
        !is_overdue(self.bounded.timed, node, self.rows)
    }
}
