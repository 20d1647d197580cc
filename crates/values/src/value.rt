// What a part of a plan is worth.
ghost use Rattle.std.specs.Prelude.{◌≡◌, ◌≤◌, ◌<◌, length, MatchOption};
ghost use Rattle.assignment.specs.Entries.{Lowered};
ghost use Rattle.assignment.specs.Words.{no_cost};
ghost use Rattle.values.specs.Worths.{lesser_worth, worth_of};

// 2^62: a cost from here on stands for none. The entries of tables are numbers, since an Option<u64> would take twice the room.
pub const NO_COST: u64 = 0x4000_0000_0000_0000;

// A cost and a key, as two numbers. The least comes first: the lower cost, of equal costs the smaller key.
#[derive(Clone, Copy, PartialEq, Eq, PartialOrd, Ord)]
pub struct Worth {
    pub cost: u64,
    pub key: u64,
}

impl Worth {
    // Stands for none.
    pub const NONE: Worth = Worth {
        cost: NO_COST,
        key: 0,
    };

    // This, unless it stands for none.
    pub fn found(self) -> Option<Worth>
        ensures { MatchOption result (no_cost ≤ self.cost) (λ w. (w ≡ self) × (self.cost < no_cost)) }
    {
        (self.cost < NO_COST).then_some(self)
    }

    // The one that comes first, and this where both are equal.
    #[tactic(auto, unfolding(crate::specs::Worths::lesser_worth, crate::specs::Worths::is_first), using(crate::specs::WorthLaws::min_is_lesser))]
    pub fn lesser(self, other: Worth) -> Worth
        ensures { result ≡ lesser_worth self other }
    {
        self.min(other)
    }

    // Lowers entry s of a table, a slice of costs and one of keys, to this, where it comes first.
    pub fn lower(self, s: usize, costs: &mut [u64], keys: &mut [u64])
        requires s_in_bounds { s < length costs.old }
        requires s_in_bounds_2 { s < length keys.old }
        ensures { Lowered s (worth_of self) costs.old keys.old costs.new keys.new }
    {
        let entry = Worth {
            cost: costs[s],
            key: keys[s],
        };
        if self < entry {
            costs[s] = self.cost;
            keys[s] = self.key;
        }
    }
}
