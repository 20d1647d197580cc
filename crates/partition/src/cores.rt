// The least values of all sets on several cores, one core after the other.
ghost use Rattle.std.specs.Prelude.{◌≡◌, ◌^◌, ◌≤◌, length, get_or, drop};
ghost use Rattle.laws.specs.Lists.{list_of, onto};
ghost use Rattle.assignment.specs.Limits.{most_items};
ghost use Rattle.partition.specs.BestFilled.{BestReady, BestFilled};
ghost use Rattle.partition.specs.Cores.{CoreReady, CoreAdded};
ghost use Rattle.partition.specs.Moves.{WeightsBelow, MovesReady, MovedBelow};

use crate::splits::{Parts, Split};
use values::{KEY_BASE, MOST_SETS, NO_COST, sets_of};

// The weight of each set: the key with a digit 1 for each of its items.
pub fn fill_weights(items: usize, weights: &mut [u64])
    requires le_most_items { items ≤ most_items }
    requires in_bounds { 2 ^ items ≤ length weights.old }
    ensures { WeightsBelow items (2 ^ items) weights.new }
{
    let all = sets_of(items);
    weights[0] = 0;
    for x in 1..all {
        weights[x] = weights[x / 2] * KEY_BASE + (x % 2) as u64;
    }
}

// The keys of a table on other cores, where each choice is larger by `shift`.
pub(crate) fn move_keys(items: usize, shift: u64, keys: &[u64], moved: &mut [u64])
    requires { MovesReady items shift keys.now moved.old }
    ensures { MovedBelow items shift (2 ^ items) keys.now moved.new }
{
    let mut weights = [0u64; MOST_SETS];
    fill_weights(items, &mut weights);
    let all = sets_of(items);
    for x in 0..all {
        moved[x] = keys[x] + shift * weights[x];
    }
}

// Copies the entries of all sets.
fn copy_entries(items: usize, from: &[u64], to: &mut [u64])
    requires le_most_items { items ≤ most_items }
    requires in_bounds { 2 ^ items ≤ length from.now }
    requires in_bounds_2 { 2 ^ items ≤ length to.old }
    ensures { to.new ≡ onto (list_of (λ x. get_or from.now x 0) (2 ^ items)) to.old }
{
    let all = sets_of(items);
    to[..all].copy_from_slice(&from[..all]);
}

// One core more: the value of each set on some cores becomes that on these and one core, whose table is moved by `shift`.
fn add_core(
    items: usize,
    shift: u64,
    corecosts: &[u64],
    corekeys: &[u64],
    costs: &mut [u64],
    keys: &mut [u64],
)
    requires { CoreReady items shift corecosts.now corekeys.now costs.old keys.old }
    ensures { CoreAdded items shift corecosts.now corekeys.now costs.old keys.old
        costs.new keys.new }
{
    let mut moved = [0u64; MOST_SETS];
    move_keys(items, shift, corekeys, &mut moved);
    let mut next = [NO_COST; MOST_SETS];
    let mut nextkeys = [0u64; MOST_SETS];
    let all = Split {
        size: sets_of(items),
        s: 0,
        t: 0,
        r: 0,
    };
    let parts = Parts {
        tops: corecosts,
        topkeys: &moved,
        rests: costs,
        restkeys: keys,
    };
    all.lower_all(&parts, &mut next, &mut nextkeys);
    copy_entries(items, &next, costs);
    copy_entries(items, &nextkeys, keys);
}

// From the table of one core the value of every set on the first `cores` cores, in the entry of the set's number.
pub fn fill_best(
    items: usize,
    levels: usize,
    cores: usize,
    corecosts: &[u64],
    corekeys: &[u64],
    costs: &mut [u64],
    keys: &mut [u64],
)
    requires { BestReady items levels cores corecosts.now corekeys.now costs.old keys.old }
    ensures best_filled { BestFilled items levels cores corecosts.now corekeys.now costs.new keys.new }
    ensures costs_unchanged { drop (2 ^ items) costs.new ≡ drop (2 ^ items) costs.old }
    ensures keys_unchanged { drop (2 ^ items) keys.new ≡ drop (2 ^ items) keys.old }
{
    copy_entries(items, corecosts, costs);
    copy_entries(items, corekeys, keys);
    for c in 1..cores {
        let shift = (c * levels) as u64;
        add_core(items, shift, corecosts, corekeys, costs, keys);
    }
}
