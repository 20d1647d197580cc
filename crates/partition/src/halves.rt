// What the best plan is worth, by the values of all sets on the two halves of the cores.
ghost use Rattle.std.specs.Prelude.{◌≡◌};
ghost use Rattle.assignment.specs.Refusing.{every};
ghost use Rattle.partition.specs.HalvesTables.{OneReady, HalvesReady, kept_best, least_over_halves};
ghost use Rattle.values.specs.Worths.{worth_of};

use crate::cores::move_keys;
use crate::keeping::{least_parted, refuse};
use crate::near::note_plans;
use crate::splits::Parts;
use values::{MOST_SETS, Worth, sets_of};

// The items, and by how much choices on the upper cores are larger.
#[derive(Clone, Copy)]
pub struct Halves {
    pub items: usize,
    pub shift: u64,
}

// The upper cores take some items, and of all others the lower cores keep what is best. `near` gets the keys of plans that cost little
// more, one for each set on the upper cores, where it has room for them.
pub fn least_over_halves(
    halves: Halves,
    tops: &[u64],
    topkeys: &[u64],
    refusal: &[u64],
    must: &[bool],
    costs: &mut [u64],
    keys: &mut [u64],
    near: &mut [u64],
) -> Worth
    requires { HalvesReady halves.items halves.shift tops.now topkeys.now refusal.now must.now costs.old keys.old }
    ensures { worth_of result ≡ least_over_halves halves.items halves.shift tops.now topkeys.now
        refusal.now must.now costs.old keys.old }
{
    let mut moved = [0u64; MOST_SETS];
    move_keys(halves.items, halves.shift, topkeys, &mut moved);
    let all = sets_of(halves.items);
    refuse(all, 0, 0, refusal, must, costs, keys);
    let parts = Parts {
        tops,
        topkeys: &moved,
        rests: costs,
        restkeys: keys,
    };
    let least = least_parted(all, 0, 0, &parts);
    note_plans(all, least.cost, &parts, near);
    least
}

// The same on one core.
pub fn least_on_one(
    items: usize,
    refusal: &[u64],
    must: &[bool],
    costs: &mut [u64],
    keys: &mut [u64],
) -> Worth
    requires { OneReady items refusal.now must.now costs.old keys.old }
    ensures { worth_of result
        ≡ kept_best items refusal.now must.now costs.old keys.old (every items) }
{
    let all = sets_of(items);
    refuse(all, 0, 0, refusal, must, costs, keys);
    Worth {
        cost: costs[all - 1],
        key: keys[all - 1],
    }
}
