// Which ticks to weigh, and how much, so that the relaxation bounds the cost of a part of a pattern well: they are those of the linear
// relaxation that are met with nothing left, with what a tick more of each would save. Whatever is chosen, the prices stay within their
// budget, and nothing is claimed of it.
ghost use Rattle.std.specs.Prelude.{◌<◌, ◌≤◌, IfSome};
ghost use Rattle.lagrangian.specs.PriceColumns.{most_ticks};

use crate::cores::TimedCore;
use crate::level_mixes::Variable;
use crate::means::add_means;
use crate::multipliers::{MOST_TICKS, Multipliers};
use crate::parts::Part;
use crate::weights::weights_in;
use simplex::Dictionary;

impl TimedCore<'_> {
    // The tick to be weighed next: the one that is given for a place or, where none are given, the one that is exceeded most.
    fn next_tick(
        &self,
        part: &Part,
        given: Option<[u32; MOST_TICKS]>,
        place: usize,
        shares: &Dictionary<Variable>,
    ) -> Option<u32>
        requires { place < most_ticks }
        ensures { IfSome result (λ tick. tick ≤ self.now.timed.span) }
    {
        let Some(ticks) = given else {
            let mut means = part.means();
            add_means(shares, &mut means);
            return self.exceeded_tick(&means);
        };
        let tick = ticks[place];
        if tick == 0 || self.timed.span < tick {
            return None;
        }
        Some(tick)
    }

    // The weights that bound a part's cost best: of the given ticks or, where none are given, of those that are exceeded one after the
    // other.
    pub(crate) fn fitted(&self, part: &Part, given: Option<[u32; MOST_TICKS]>) -> Multipliers {
        // Filled where it stands: it is large, and all of it would be copied where a function answered it.
        let mut shares = Dictionary::new(Variable::Left { place: 0 });
        self.add_items(part, &mut shares);
        let mut ticks = given.unwrap_or([0; MOST_TICKS]);
        for place in 0..MOST_TICKS {
            let Some(tick) = self.next_tick(part, given, place, &shares) else {
                break;
            };
            ticks[place] = tick;
            self.add_row_of_tick(part, place, tick, &mut shares);
            shares.restore();
        }
        let weights = weights_in(&shares, &ticks);
        Multipliers { ticks, weights }
    }
}
