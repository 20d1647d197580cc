// Items that are alike but for their windows.
ghost use Rattle.std.specs.Prelude.{true, false, ◌≡◌, ◌+◌, ◌*◌, ◌≤◌, ◌<◌, length};
ghost use Rattle.assignment.specs.Limits.{most_items};
ghost use Rattle.knapsack.specs.Offered.{entry_of};
ghost use Rattle.lagrangian.specs.TimedItems.{TimedReady};
ghost use Rattle.lagrangian.specs.TimedCores.{timing_at, timing_width};
ghost use Rattle.timed_sets.specs.Exchange.{DueNoSooner, Partner, Partners, SameLevels};
ghost use Rattle.timed_sets.specs.PartnerColumns.{numbers_of, PartnerOf};

use lagrangian::{TIMING_WIDTH, Timed, is_in_set};
use timed_parts::column_of;
use values::{MOST_ITEMS, STRIDE};

// Whether two items have the same ticks of a job and the same cost at a level.
fn is_same_at(timed: Timed, j: usize, i: usize, level: usize, timings: &[u32], cost: &[u64]) -> bool
    requires timed_ready { TimedReady timed timings.now cost.now }
    requires j_lt_timed { (j < timed.items) × (i < timed.items) × (level < timed.levels) }
    ensures level_value { result ≡ true → (timing_at timings.now j).ticks level ≡ (timing_at timings.now i).ticks level }
    ensures level_value_2 { result ≡ true → entry_of cost.now j level ≡ entry_of cost.now i level }
{
    if timings[j * TIMING_WIDTH + 2 + level] != timings[i * TIMING_WIDTH + 2 + level] {
        return false;
    }
    cost[j * STRIDE + level] == cost[i * STRIDE + level]
}

// The same at every level.
fn has_same_levels(timed: Timed, j: usize, i: usize, timings: &[u32], cost: &[u64]) -> bool
    requires timed_ready { TimedReady timed timings.now cost.now }
    requires j_lt_timed { (j < timed.items) × (i < timed.items) }
    ensures { result ≡ true → SameLevels timings.now cost.now timed.levels j i }
{
    (0..timed.levels).all(|level| is_same_at(timed, j, i, level, timings, cost))
}

// Whether item j is due sooner than item i.
pub(crate) fn is_due_sooner(j: usize, i: usize, timings: &[u32]) -> bool
    requires j_lt_most_items { (j < most_items) × (i < most_items) }
    requires timing_width_in_bounds { (j * timing_width + 1 < length timings.now) × (i * timing_width + 1 < length timings.now) }
    ensures j_bound { result ≡ true → (timing_at timings.now j).window < (timing_at timings.now i).window }
    ensures i_bound { result ≡ false → (timing_at timings.now i).window ≤ (timing_at timings.now j).window }
{
    timings[j * TIMING_WIDTH + 1] < timings[i * TIMING_WIDTH + 1]
}

// Whether item j may not be item i's partner because it is due sooner: for costs alone it may.
fn is_due_too_soon(keyed: bool, j: usize, i: usize, timings: &[u32]) -> bool
    requires j_lt_most_items { (j < most_items) × (i < most_items) }
    requires timing_width_in_bounds { (j * timing_width + 1 < length timings.now) × (i * timing_width + 1 < length timings.now) }
    ensures { keyed ≡ true → result ≡ false →
        (timing_at timings.now i).window ≤ (timing_at timings.now j).window }
{
    if !keyed {
        return false;
    }
    is_due_sooner(j, i, timings)
}

// Whether item j of the set is alike to item i, which comes after it; for keys it must be due no sooner too.
fn is_partner(
    timed: Timed,
    set: usize,
    keyed: bool,
    j: usize,
    i: usize,
    timings: &[u32],
    cost: &[u64],
) -> bool
    requires timed_ready { TimedReady timed timings.now cost.now }
    requires j_lt_i { (j < i) × (i < timed.items) }
    ensures partner { result ≡ true → Partner timed timings.now cost.now j i }
    ensures i_bound { keyed ≡ true → result ≡ true →
        (timing_at timings.now i).window ≤ (timing_at timings.now j).window }
{
    if !is_in_set(timed.items, set, j) {
        return false;
    }
    if timings[j * TIMING_WIDTH] != timings[i * TIMING_WIDTH] {
        return false;
    }
    if is_due_too_soon(keyed, j, i, timings) {
        return false;
    }
    has_same_levels(timed, j, i, timings, cost)
}

// The last such item before item i, its partner.
fn partner_of(
    timed: Timed,
    set: usize,
    keyed: bool,
    i: usize,
    timings: &[u32],
    cost: &[u64],
) -> Option<usize>
    requires timed_ready { TimedReady timed timings.now cost.now }
    requires i_lt_timed { i < timed.items }
    ensures { PartnerOf timed timings.now cost.now keyed i result }
{
    for j in (0..i).rev() {
        if is_partner(timed, set, keyed, j, i, timings, cost) {
            return Some(j);
        }
    }
    None
}

// The same of each item.
pub(crate) fn partners_in(
    timed: Timed,
    set: usize,
    keyed: bool,
    timings: &[u32],
    cost: &[u64],
) -> [Option<usize>; MOST_ITEMS]
    requires { TimedReady timed timings.now cost.now }
    ensures partners { Partners timed timings.now cost.now timed.items (numbers_of result) }
    ensures due_no_sooner { keyed ≡ true → DueNoSooner timings.now timed.items (numbers_of result) }
{
    column_of(timed.items, None, |item| {
        partner_of(timed, set, keyed, item, timings, cost)
    })
}

// Whether an item of the set has a partner in it that is due sooner.
fn has_sooner_at(timed: Timed, set: usize, i: usize, timings: &[u32], cost: &[u64]) -> bool
    requires timed_ready { TimedReady timed timings.now cost.now }
    requires i_lt_timed { i < timed.items }
{
    if !is_in_set(timed.items, set, i) {
        return false;
    }
    match partner_of(timed, set, false, i, timings, cost) {
        Some(partner) => is_due_sooner(partner, i, timings),
        None => false,
    }
}

// Whether some item has: then a search for costs alone tries fewer levels than one for keys too.
pub fn has_sooner_partner(timed: Timed, set: usize, timings: &[u32], cost: &[u64]) -> bool
    requires { TimedReady timed timings.now cost.now }
{
    (0..timed.items).any(|item| has_sooner_at(timed, set, item, timings, cost))
}
