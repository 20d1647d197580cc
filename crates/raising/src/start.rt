// The table that the rounds begin with.
ghost use Rattle.std.specs.Prelude.{◌≡◌, get_or, replicate};
ghost use Rattle.partition.specs.Tables.{most_sets};
ghost use Rattle.raising.specs.LowestTables.{LowestReady, LowestTable};
ghost use Rattle.raising.specs.RaisedTables.{most_tries};
ghost use Rattle.raising.specs.Tables.{TableRaised};

use crate::offer::Offer;
use crate::table::Table;
use core_tables::fill_sizes;
use set_tables::drop_unserved;
use timed_parts::fewest_column;
use values::sets_of;

impl Table {
    // The lowest entry of each set: what is later taken off its cost, and the least key that a pattern of the set can have.
    fn fill_lowest(&mut self, offer: &Offer)
        requires { LowestReady offer.now.site.items offer.now.site.whole self.old.costs self.old.keys }
        ensures lowest { LowestTable offer.now.site.items offer.now.site.whole self.new.costs self.new.keys }
        ensures same_left { self.new.left ≡ self.old.left }
    {
        let site = offer.site;
        fill_sizes(site.items, &mut self.costs);
        self.keys = *offer.weights;
        for set in 1..sets_of(site.items) {
            self.costs[set] = (self.costs[set] - 1) * site.whole;
        }
    }

    // Fills the table that the rounds begin with: the lowest entries, lifted, and none where a set cannot be served. Two relaxations lift
    // them: by the first, ticks of jobs are free; by the second, each has the price of an idle tick, since so much does it save.
    pub(crate) fn fill_start(&mut self, offer: &Offer)
        requires costs_value { get_or self.old.costs 0 0 ≡ 0 }
        requires untried { self.old.left ≡ replicate most_sets most_tries }
        ensures { TableRaised offer.now self.new }
    {
        let site = offer.site;
        self.fill_lowest(offer);
        let free = offer.relaxation_at(0);
        self.lift(offer, free);
        let weighed = offer.relaxation_at(site.whole / site.span as u64);
        self.lift(offer, weighed);
        let timed = site.timed();
        let fewest = fewest_column(timed, offer.timings);
        drop_unserved(timed, fewest, 0, 0, false, offer.timings, &mut self.costs);
    }
}
