// Plans that cost little more than the least. Nothing is claimed of them: they tell a search what to look at next.
ghost use Rattle.partition.specs.Splits.{SumsReady};

use crate::splits::Parts;
use values::Worth;

// Plans are noted up to one part in 64 of their cost above the least.
const NEAR: u64 = 64;

// The key of a plan that costs little more than the least, else 0: the keys go into a lent buffer of numbers.
fn near_key(least: u64, plan: Worth) -> u64 {
    if least < plan.cost - plan.cost / NEAR {
        return 0;
    }
    plan.key
}

// For each set on the upper cores the key of the best plan with it there, where that costs little more than the least, else 0.
pub(crate) fn note_plans(all: usize, least: u64, parts: &Parts, near: &mut [u64])
    requires { SumsReady all 0 0 parts.now.tops.now parts.now.topkeys.now parts.now.rests.now
        parts.now.restkeys.now }
{
    if near.len() < all {
        return;
    }
    for t in 0..all {
        near[t] = near_key(least, parts.sum(t, all - 1 - t));
    }
}
