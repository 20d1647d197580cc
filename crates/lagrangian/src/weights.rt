// The weights of ticks, read off a dictionary: what one tick more of each would save.
use crate::level_mixes::Variable;
use crate::multipliers::MOST_TICKS;
use simplex::Dictionary;
use std::num::saturating_f64_to_u64;

// The nearest whole number, where there is one that is not below 0.
fn whole(x: f64) -> u64 {
    saturating_f64_to_u64(x + 0.5)
}

// The weights of the ticks: what one more of each would save.
pub(crate) fn weights_in(
    shares: &Dictionary<Variable>,
    ticks: &[u32; MOST_TICKS],
) -> [u64; MOST_TICKS] {
    let mut weights = [0; MOST_TICKS];
    for column in 1..shares.columns {
        if let Variable::Left { place } = shares.nonbasic[column] {
            if place < MOST_TICKS {
                weights[place] = whole(shares.entries[0][column] / ticks[place] as f64);
            }
        }
    }
    weights
}
