// An item's first cheapest choice, of refusing it and of the levels of core 0.
ghost use Rattle.std.specs.Prelude.{ℕ, ◌≡◌, suc, ◌*◌, ◌≤◌, ◌<◌, length};
ghost use Rattle.assignment.specs.Assignment.{Item};
ghost use Rattle.assignment.specs.Limits.{most_levels};
ghost use Rattle.knapsack.specs.Offers.{Offer};
ghost use Rattle.knapsack.specs.Offered.{offer_at};
ghost use Rattle.values.specs.Items.{item_at};
ghost use Rattle.light.specs.Picks.{Cheaper, PickedBelow};

use knapsack::Core;
use values::STRIDE;

// A choice of an item, with what it puts on core 0 and what it costs.
#[derive(Clone, Copy)]
pub(crate) struct Pick {
    pub(crate) choice: u64,
    pub(crate) load: u64,
    pub(crate) cost: u64,
}

// Refusing an item, where it need not be kept.
fn refused(refusal: u64, must: bool) -> Option<Pick>
    ensures { (capacity : ℕ) (offer : Offer) (item : Item) → item.refusal ≡ refusal → item.must ≡ must →
        PickedBelow capacity offer item 0 result }
{
    if must {
        return None;
    }
    Some(Pick {
        choice: 0,
        load: 0,
        cost: refusal,
    })
}

// The level where a core takes its load and it is cheaper, else what was picked before.
fn cheaper(picked: Option<Pick>, level: Pick, capacity: u64) -> Option<Pick>
    ensures { Cheaper capacity picked level result }
{
    if capacity < level.load {
        return picked;
    }
    match picked {
        Some(before) if before.cost <= level.cost => picked,
        _ => Some(level),
    }
}

// The first cheapest choice of item i.
pub(crate) fn first_cheapest(
    core: Core,
    i: usize,
    load: &[u64],
    cost: &[u64],
    refusal: &[u64],
    must: &[bool],
) -> Option<Pick>
    requires levels_le_most_levels { core.levels ≤ most_levels }
    requires most_levels_in_bounds { suc i * most_levels ≤ length load.now }
    requires most_levels_in_bounds_2 { suc i * most_levels ≤ length cost.now }
    requires i_in_bounds { i < length refusal.now }
    requires i_in_bounds_2 { i < length must.now }
    ensures { PickedBelow core.capacity (offer_at load.now cost.now i)
        (item_at refusal.now must.now i) core.levels result }
{
    let capacity = core.capacity as u64;
    let mut picked = refused(refusal[i], must[i]);
    for l in 0..core.levels {
        let at = i * STRIDE + l;
        let level = Pick {
            choice: l as u64 + 1,
            load: load[at],
            cost: cost[at],
        };
        picked = cheaper(picked, level, capacity);
    }
    picked
}
