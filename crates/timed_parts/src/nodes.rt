// The steps from one part of a pattern to the next.
ghost use Rattle.std.specs.Prelude.{◌≡◌, ◌+◌, ◌*◌, ◌≤◌};
ghost use Rattle.assignment.specs.Limits.{most_cost};
ghost use Rattle.timed_parts.specs.Nodes.{passed_over, run_at, next_level, at_level, SmallNode};

use crate::Node;
use values::KEY_BASE;

impl Node {
    // The core does not run the item.
    pub fn passed_over(self) -> Node
        requires { SmallNode self }
        ensures { result ≡ passed_over self }
    {
        Node {
            item: self.item + 1,
            level: 0,
            key: self.key * KEY_BASE,
            ..self
        }
    }

    // The core runs the item, number `half` of the sets, at the level, with so many ticks a job, at this cost.
    pub fn run_at(self, half: usize, ticks: u32, cost: u64) -> Node
        requires small_node { SmallNode self }
        requires half_le_rest { (half ≤ self.rest) × (cost ≤ most_cost) }
        ensures { result ≡ run_at self half ticks cost }
    {
        let mut column = self.ticks;
        column[self.item] = ticks;
        Node {
            item: self.item + 1,
            level: 0,
            rest: self.rest - half,
            cost: self.cost + cost,
            key: self.key * KEY_BASE + (self.level as u64 + 1),
            ticks: column,
        }
    }

    pub fn next_level(self) -> Node
        requires { SmallNode self }
        ensures { result ≡ next_level self }
    {
        Node {
            level: self.level + 1,
            ..self
        }
    }

    pub fn at_level(self, level: usize) -> Node
        ensures { result ≡ at_level self level }
    {
        Node { level, ..self }
    }
}
