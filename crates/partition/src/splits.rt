// The splits of sets in two parts, one for each of two tables. A set is a number below 2^items, the first item its most
// significant digit; a table is a slice of costs and one of keys.
ghost use Rattle.std.specs.Prelude.{true, ◌≡◌, ℕ, ◌^◌, ◌≤◌, ◌↔◌, get_or, EachIndex, IsTrue};
ghost use Rattle.assignment.specs.Words.{no_cost};
ghost use Rattle.partition.specs.Splits.{in_neither, in_top, in_rest, sum_at, LoweredFrom, NoSplit, PlacesFit, SplitsReady, SumFits, SumsFit};
ghost use Rattle.values.specs.Worths.{worth_of};

use values::{NO_COST, Worth};

// The tables of the two parts: an entry of the one and an entry of the other add up to what a split is worth.
#[derive(Clone, Copy)]
pub(crate) struct Parts<'a> {
    pub(crate) tops: &'a [u64],
    pub(crate) topkeys: &'a [u64],
    pub(crate) rests: &'a [u64],
    pub(crate) restkeys: &'a [u64],
}

impl Parts<'_> {
    // What it is worth to have the set t in the one part, and r in the other.
    #[tactic(auto, unfolding(crate::specs::Splits::sum_at))]
    pub(crate) fn sum(&self, t: usize, r: usize) -> Worth
        requires costs_fit { SumFits t r self.now.tops.now self.now.rests.now }
        requires keys_fit { SumFits t r self.now.topkeys.now self.now.restkeys.now }
        ensures { worth_of result
            ≡ sum_at self.now.tops.now self.now.topkeys.now self.now.rests.now self.now.restkeys.now t r }
    {
        Worth {
            cost: self.tops[t] + self.rests[r],
            key: self.topkeys[t] + self.restkeys[r],
        }
    }
}

// The sets that add some of the last items to the set s, `size` in number. The parts of each add some of those items to the sets
// t, of the one table, and r, of the other. The set s has the items of both: adding them up at each split would take longer.
#[derive(Clone, Copy)]
pub(crate) struct Split {
    pub(crate) size: usize,
    pub(crate) s: usize,
    pub(crate) t: usize,
    pub(crate) r: usize,
}

impl Split {
    // The half of these sets that is without the next item.
    fn in_neither(self) -> Split
        ensures { result ≡ in_neither self }
    {
        Split {
            size: self.size / 2,
            ..self
        }
    }

    // The half that has it, with it in the one part.
    fn in_top(self) -> Split
        requires { PlacesFit self }
        ensures { result ≡ in_top self }
    {
        let half = self.size / 2;
        Split {
            size: half,
            s: self.s + half,
            t: self.t + half,
            ..self
        }
    }

    // The same half, with it in the other part.
    fn in_rest(self) -> Split
        requires { PlacesFit self }
        ensures { result ≡ in_rest self }
    {
        let half = self.size / 2;
        Split {
            size: half,
            s: self.s + half,
            r: self.r + half,
            ..self
        }
    }

    // Lowers the entry of one set to the sum of those of its parts.
    fn lower_one(self, parts: &Parts, costs: &mut [u64], keys: &mut [u64])
        requires size_value { self.size ≡ 1 }
        requires splits_ready { SplitsReady self parts.now.tops.now parts.now.topkeys.now
            parts.now.rests.now parts.now.restkeys.now costs.old keys.old }
        ensures { LoweredFrom 0 self
            (sum_at parts.now.tops.now parts.now.topkeys.now parts.now.rests.now parts.now.restkeys.now)
            costs.old keys.old costs.new keys.new }
    {
        parts.sum(self.t, self.r).lower(self.s, costs, keys);
    }

    // The same for one item more: a set is without it, or has it in one of its parts. It stands beside `lower_four`, since no const
    // parameter counts down from one size to the next.
    #[inline]
    fn lower_pair(self, parts: &Parts, costs: &mut [u64], keys: &mut [u64])
        requires size_value { self.size ≡ 2 }
        requires splits_ready { SplitsReady self parts.now.tops.now parts.now.topkeys.now
            parts.now.rests.now parts.now.restkeys.now costs.old keys.old }
        ensures { LoweredFrom 1 self
            (sum_at parts.now.tops.now parts.now.topkeys.now parts.now.rests.now parts.now.restkeys.now)
            costs.old keys.old costs.new keys.new }
    {
        self.in_neither().lower_one(parts, costs, keys);
        self.in_top().lower_one(parts, costs, keys);
        self.in_rest().lower_one(parts, costs, keys);
    }

    // The same for two items more.
    fn lower_four(self, parts: &Parts, costs: &mut [u64], keys: &mut [u64])
        requires size_value { self.size ≡ 4 }
        requires splits_ready { SplitsReady self parts.now.tops.now parts.now.topkeys.now
            parts.now.rests.now parts.now.restkeys.now costs.old keys.old }
        ensures { LoweredFrom 2 self
            (sum_at parts.now.tops.now parts.now.topkeys.now parts.now.rests.now parts.now.restkeys.now)
            costs.old keys.old costs.new keys.new }
    {
        // A copy, which no write to the entries can change: it is read once, and not for each set.
        let parts = *parts;
        self.in_neither().lower_pair(&parts, costs, keys);
        self.in_top().lower_pair(&parts, costs, keys);
        self.in_rest().lower_pair(&parts, costs, keys);
    }

    // Whether no split of these sets has two parts with a value.
    fn has_no_split(self, parts: &Parts) -> bool
        requires { SumsFit self.size self.t self.r parts.now.tops.now parts.now.rests.now }
        ensures { result ≡ true → NoSplit self parts.now.tops.now parts.now.rests.now }
    {
        let Split { size, t, r, .. } = self;
        let tops = parts.tops;
        let rests = parts.rests;
        are_none(&tops[t..t + size]) || are_none(&rests[r..r + size])
    }

    // Lowers the entries of all these sets, each to its splits. The last two items are written out, which saves most of the calls.
    pub(crate) fn lower_all(self, parts: &Parts, costs: &mut [u64], keys: &mut [u64])
        requires { SplitsReady self parts.now.tops.now parts.now.topkeys.now
            parts.now.rests.now parts.now.restkeys.now costs.old keys.old }
        ensures { (k : ℕ) → self.size ≡ 2 ^ k →
            LoweredFrom k self
            (sum_at parts.now.tops.now parts.now.topkeys.now parts.now.rests.now parts.now.restkeys.now)
            costs.old keys.old costs.new keys.new }
    {
        if self.has_no_split(parts) {
            return;
        }
        if self.size == 4 {
            self.lower_four(parts, costs, keys);
        } else if self.size == 2 {
            self.lower_pair(parts, costs, keys);
        } else if self.size == 1 {
            self.lower_one(parts, costs, keys);
        } else {
            self.in_neither().lower_all(parts, costs, keys);
            self.in_top().lower_all(parts, costs, keys);
            self.in_rest().lower_all(parts, costs, keys);
        }
    }
}

// Whether all of these costs stand for none.
fn are_none(costs: &[u64]) -> bool
    ensures { IsTrue result ↔ EachIndex costs.now (λ x. no_cost ≤ get_or costs.now x 0) }
{
    costs.iter().all(|&cost| NO_COST <= cost)
}
