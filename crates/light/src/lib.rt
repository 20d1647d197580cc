// Light sites: where core 0 takes what each item would choose alone, that is the best plan, and no table is filled.
#![tactic(auto)]

mod picks;

ghost use Rattle.std.specs.Prelude.{ℕ, ◌<◌, IfSome};
ghost use Rattle.knapsack.specs.Offers.{load_options};
ghost use Rattle.knapsack.specs.Offered.{offers_of};
ghost use Rattle.values.specs.Items.{items_of};
ghost use Rattle.light.specs.Light.{OfferFits};
ghost use Rattle.values.specs.BestKeys.{BestKey};

use knapsack::Core;
use picks::first_cheapest;
use values::{KEY_BASE, Worth};

// The cost and the key of the first cheapest choices of all items, where core 0 takes them together.
pub fn light_plan(
    core: Core,
    items: usize,
    load: &[u64],
    cost: &[u64],
    refusal: &[u64],
    must: &[bool],
) -> Option<Worth>
    requires { OfferFits items core.levels core.capacity load.now cost.now refusal.now must.now }
    ensures { IfSome result (λ worth. (cores : ℕ) → 0 < cores → BestKey
        (load_options cores core.levels core.capacity (offers_of load.now cost.now items)
        (items_of refusal.now must.now items)) items worth) }
{
    let capacity = core.capacity as u64;
    let mut used = 0;
    let mut total = 0;
    let mut key = 0;
    for i in 0..items {
        let pick = first_cheapest(core, i, load, cost, refusal, must)?;
        used += pick.load;
        if capacity < used {
            return None;
        }
        total += pick.cost;
        key = key * KEY_BASE + pick.choice;
    }
    Some(Worth { cost: total, key })
}
