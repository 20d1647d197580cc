// Pricing a given plan.
ghost use Rattle.std.specs.Prelude.{◌≡◌};
ghost use Rattle.prices.specs.Outcomes.{price_outcome, PricingEnds};

use crate::amounts::{Price, price_of};
use instance::read_instance;
use plan_rules::plan_passes;
use refusals::Refusal;

// What the plan costs; the words are tested first, then the plan.
pub fn price(instance: &[u32], plan: &[u32]) -> Result<Price, Refusal>
    ensures value { result ≡ price_outcome instance.now plan.now }
    ensures promise { PricingEnds instance.now plan.now result }
{
    let inst = read_instance(instance)?;
    plan_passes(inst, plan)?;
    Ok(price_of(inst, plan))
}
