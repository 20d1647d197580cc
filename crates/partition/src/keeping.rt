// The choice of the items to keep.
ghost use Rattle.std.specs.Prelude.{◌≡◌, ℕ, ◌^◌};
ghost use Rattle.partition.specs.RefusedTables.{ItemReady, ItemRefused, RefuseReady, RefusedFrom};
ghost use Rattle.assignment.specs.Refusing.{every};
ghost use Rattle.partition.specs.Splits.{SumsReady, sum_at, least_from};
ghost use Rattle.values.specs.Worths.{worth_of};

use crate::splits::Parts;
use values::Worth;

// Lowers the value of every set with an item to that of the same set without it, where refusing the item comes first. From s
// on stand `half` sets without the item, and after them those with it.
fn refuse_item(half: usize, s: usize, refusal: u64, costs: &mut [u64], keys: &mut [u64])
    requires { ItemReady half s refusal costs.old keys.old }
    ensures { ItemRefused half s refusal half costs.old keys.old costs.new keys.new }
{
    for x in 0..half {
        let refused = Worth {
            cost: costs[s + x] + refusal,
            key: keys[s + x],
        };
        refused.lower(s + half + x, costs, keys);
    }
}

// The value of every set that adds some of the items from i on to the set s becomes that of keeping what is best of those
// items, and refusing the others. `size` is the number of these sets.
pub(crate) fn refuse(
    size: usize,
    i: usize,
    s: usize,
    refusal: &[u64],
    must: &[bool],
    costs: &mut [u64],
    keys: &mut [u64],
)
    requires { RefuseReady size i s refusal.now must.now costs.old keys.old }
    ensures { RefusedFrom size i s refusal.now must.now costs.old keys.old
        costs.new keys.new }
{
    if size == 1 {
        return;
    }
    let half = size / 2;
    refuse(half, i + 1, s, refusal, must, costs, keys);
    refuse(half, i + 1, s + half, refusal, must, costs, keys);
    if must[i] {
        return;
    }
    refuse_item(half, s, refusal[i], costs, keys);
}

// The least sum over the ways to part the last items in two, which are added to the sets t, of the one table, and r, of the
// other. `size` is the number of these ways.
pub(crate) fn least_parted(size: usize, t: usize, r: usize, parts: &Parts) -> Worth
    requires { SumsReady size t r parts.now.tops.now parts.now.topkeys.now parts.now.rests.now
        parts.now.restkeys.now }
    ensures { (k : ℕ) → size ≡ 2 ^ k →
        worth_of result ≡ least_from k
        (sum_at parts.now.tops.now parts.now.topkeys.now parts.now.rests.now parts.now.restkeys.now)
        t r (every k) }
{
    if size == 1 {
        return parts.sum(t, r);
    }
    let half = size / 2;
    let in_top = least_parted(half, t + half, r, parts);
    let in_rest = least_parted(half, t, r + half, parts);
    in_top.lesser(in_rest)
}
