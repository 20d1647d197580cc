// The search of a set up to a limit.
ghost use Rattle.std.specs.Prelude.{true, false, ◌≡◌, ◌^◌, ◌<◌, get_or};
ghost use Rattle.assignment.specs.Words.{no_cost};
ghost use Rattle.lagrangian.specs.Lagrangians.{Relaxes};
ghost use Rattle.raising.specs.TimedSites.{timed_of, LimitOf, TriesAfter};
ghost use Rattle.raising.specs.Tables.{TableRaised, TableTried};

use crate::limits::{KEY_TRY, limit_of};
use crate::offer::Offer;
use crate::table::Table;
use lagrangian::Lagrangian;
use timed_parts::Bounded;
use timed_sets::{has_sooner_partner, least_up_to};
use values::{NO_COST, Worth};

// Whether a search is to find keys too: where there is no limit, where only a key is looked for, and where a search for costs alone would try
// no fewer levels.
fn wants_key(offer: &Offer, set: usize, left: u32, most: Worth) -> bool
    ensures { result ≡ false → (2 < left) × (most.cost < no_cost) }
{
    if left <= KEY_TRY {
        return true;
    }
    if NO_COST <= most.cost {
        return true;
    }
    !has_sooner_partner(offer.site.timed(), set, offer.timings, offer.cost)
}

// The key of an entry: what was found, or where only the cost was looked for the least of the set.
fn key_after(keyed: bool, found: u64, least: u64) -> u64
    ensures { (keyed ≡ true → result ≡ found) × (keyed ≡ false → result ≡ least) }
{
    if keyed { found } else { least }
}

// How often a set may still be tried, once it was searched for its cost alone: the key is still to be found.
fn left_after_cost(left: u32, most: Worth, found: Worth) -> u32
    requires { 2 < left }
    ensures { (0 < result) × (result < left) }
{
    if found.cost < most.cost {
        return KEY_TRY;
    }
    left - 1
}

// How often a set may still be tried, once it was searched up to a limit: not at all where its least value was found.
#[tactic(auto, using(values::specs::WorthLaws::less_first))]
fn left_after(keyed: bool, left: u32, most: Worth, found: Worth) -> u32
    requires left_nonzero { 0 < left }
    requires lt_left { most.cost < no_cost → 1 < left }
    requires lt_left_2 { keyed ≡ false → 2 < left }
    ensures { TriesAfter keyed left most found result }
{
    if !keyed {
        return left_after_cost(left, most, found);
    }
    if NO_COST <= most.cost {
        return 0;
    }
    if found < most {
        return 0;
    }
    left - 1
}

impl Table {
    // Searches a set up to a limit, for its least value or a higher entry.
    pub(crate) fn search_up_to(
        &mut self,
        offer: &Offer,
        set: usize,
        most: Worth,
        relaxed: Lagrangian,
    )
        requires set_bound { set < 2 ^ offer.now.site.items }
        requires nonzero { 0 < get_or self.old.left set 0 }
        requires relaxes { Relaxes (timed_of offer.now.site) offer.now.timings.now offer.now.cost.now relaxed }
        requires limit_of { LimitOf offer.now.site.items (get_or self.old.left set 0) (get_or self.old.costs set 0)
            (get_or offer.now.weights.now set 0) most }
        requires raised { TableRaised offer.now self.old }
        ensures { TableTried offer.now self.old self.new }
    {
        let keyed = wants_key(offer, set, self.left[set], most);
        let bounded = Bounded {
            timed: offer.site.timed(),
            relaxed,
        };
        let found = least_up_to(
            bounded,
            set,
            keyed,
            most,
            offer.timings,
            offer.cost,
            &self.costs,
            &self.keys,
        );
        self.costs[set] = found.cost;
        self.keys[set] = key_after(keyed, found.key, offer.weights[set]);
        self.left[set] = left_after(keyed, self.left[set], most, found);
    }

    // Searches a set up to the limit of its next try.
    fn search_set(&mut self, offer: &Offer, set: usize, relaxed: Lagrangian)
        requires set_bound { set < 2 ^ offer.now.site.items }
        requires nonzero { 0 < get_or self.old.left set 0 }
        requires relaxes { Relaxes (timed_of offer.now.site) offer.now.timings.now offer.now.cost.now relaxed }
        requires raised { TableRaised offer.now self.old }
        ensures { TableTried offer.now self.old self.new }
    {
        let most = limit_of(
            offer.site.items,
            offer.site.whole,
            set,
            self.left[set],
            self.costs[set],
            offer.weights[set],
        );
        self.search_up_to(offer, set, most, relaxed);
    }

    // Tries a set; its relaxation raises the others' entries.
    pub(crate) fn try_set(&mut self, offer: &Offer, set: usize)
        requires set_bound { set < 2 ^ offer.now.site.items }
        requires nonzero { 0 < get_or self.old.left set 0 }
        requires raised { TableRaised offer.now self.old }
        ensures { TableTried offer.now self.old self.new }
    {
        let relaxed = offer.relaxation_of(set);
        self.lift(offer, relaxed);
        self.search_set(offer, set, relaxed);
    }
}
