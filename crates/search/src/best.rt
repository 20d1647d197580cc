// What the best plan of all is worth.
ghost use Rattle.std.specs.Prelude.{◌≡◌};
ghost use Rattle.search.specs.Found.{found_value};
ghost use Rattle.search.specs.Limits.{SearchReady};
ghost use Rattle.partition.specs.HalvesTables.{HalvesReady, least_over_halves};
ghost use Rattle.values.specs.Worths.{worth_of};

use crate::Shape;
use partition::{Halves, fill_best, least_on_one, least_over_halves};
use values::{MOST_SETS, Worth};

// What the best plan is worth, from the table of one core. Of an odd number of cores the lower half has one more; no half has
// more than two, so that one table of two cores serves both. `near` gets the keys of plans that cost little more, where it has room
// for them and there is more than one core.
pub fn least_of_table(
    shape: Shape,
    refusal: &[u64],
    must: &[bool],
    corecosts: &[u64],
    corekeys: &[u64],
    near: &mut [u64],
) -> Worth
    requires { SearchReady shape refusal.now must.now corecosts.now corekeys.now }
    ensures { worth_of result
        ≡ found_value shape refusal.now must.now corecosts.now corekeys.now }
{
    let n = shape.items;
    let above = shape.cores / 2;
    let below = shape.cores - above;
    let mut costs = [0u64; MOST_SETS];
    let mut keys = [0u64; MOST_SETS];
    fill_best(
        n,
        shape.levels,
        below,
        corecosts,
        corekeys,
        &mut costs,
        &mut keys,
    );
    if above == 0 {
        return least_on_one(n, refusal, must, &mut costs, &mut keys);
    }
    let shift = (below * shape.levels) as u64;
    let halves = Halves { items: n, shift };
    if above == 1 {
        return least_over_halves(
            halves, corecosts, corekeys, refusal, must, &mut costs, &mut keys, near,
        );
    }
    least_over_equal_halves(halves, refusal, must, &mut costs, &mut keys, near)
}

// The same for two halves of as many cores, which have one table. Its copy is made in a function of its own: above, room for it would be
// filled with zeros in every call.
fn least_over_equal_halves(
    halves: Halves,
    refusal: &[u64],
    must: &[bool],
    costs: &mut [u64; MOST_SETS],
    keys: &mut [u64; MOST_SETS],
    near: &mut [u64],
) -> Worth
    requires { HalvesReady halves.items halves.shift costs.old keys.old refusal.now must.now costs.old keys.old }
    ensures { worth_of result ≡ least_over_halves halves.items halves.shift costs.old keys.old
        refusal.now must.now costs.old keys.old }
{
    let tops = *costs;
    let topkeys = *keys;
    least_over_halves(halves, &tops, &topkeys, refusal, must, costs, keys, near)
}
