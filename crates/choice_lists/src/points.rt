// The points of the lists, one list after the other in one slice.
ghost use Rattle.std.specs.Prelude.{◌≡◌, ◌*◌, ◌-◌, ◌^◌, ◌≤◌, ◌<◌};
ghost use Rattle.choice_lists.specs.ListedSets.{Enough, Short};
ghost use Rattle.choice_lists.specs.Spread.{SumFits, sum_of};
ghost use Rattle.assignment.specs.Limits.{most_capacity};
ghost use Rattle.laws.specs.Tests.{Decides};

use knapsack::{Choice, Core};

// The choice of no item.
pub const NOTHING: Choice = Choice {
    load: 0,
    cost: 0,
    key: 0,
};

// So many points are written as they come: to spread them over all loads and to sweep these takes longer.
const SHORT: usize = 256;

// The loads and costs of all items at every level.
#[derive(Clone, Copy)]
pub(crate) struct Offers<'a> {
    pub(crate) load: &'a [u64],
    pub(crate) cost: &'a [u64],
}

// The points of one list.
#[derive(Clone, Copy)]
pub(crate) struct Part {
    pub(crate) from: usize,
    pub(crate) to: usize,
    ghost ordered: { from ≤ to },
}

impl Part {
    // Whether an item at every level before these points makes a short list.
    pub(crate) fn is_short(self, core: Core) -> bool
        requires { core.levels * (self.to - self.from) < 2 ^ 64 }
        ensures { Decides result (Short core self.from self.to) }
    {
        core.levels * (self.to - self.from) <= SHORT
    }

    // The most points that the list of an item before these points may have.
    pub(crate) fn most_points(self, core: Core) -> usize
        requires from_bound { core.levels * (self.to - self.from) < 2 ^ 64 }
        requires capacity_le_most_capacity { core.capacity ≤ most_capacity }
        ensures { Enough core self.from self.to result }
    {
        if self.is_short(core) {
            core.levels * (self.to - self.from)
        } else {
            core.capacity + 1
        }
    }
}

// Two choices of different items in one.
pub(crate) fn sum_of(a: Choice, b: Choice) -> Choice
    requires { SumFits a b }
    ensures { result ≡ sum_of a b }
{
    Choice {
        load: a.load + b.load,
        cost: a.cost + b.cost,
        key: a.key + b.key,
    }
}
