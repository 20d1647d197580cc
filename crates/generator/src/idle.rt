// Idle power: what is drawn, and which of the sites that were planned have it.
use crate::draw::Generator;
use crate::site_words::{level_count, power_of, word};
use crate::tally::Drawn;
use ranges::SETTINGS_WITH_IDLE;

// Every level's power is above the first of these, and none is above the second.
pub(crate) const BELOW_LEVELS: u32 = 2;

const MOST_OF_LEVELS: u32 = 18;

// None, below the power of every level, among the levels' powers, or above them all.
pub(crate) fn idle_power(rng: &mut Generator) -> u32 {
    match rng.below(4) {
        0 => 0,
        1 => rng.up_to(BELOW_LEVELS),
        2 => rng.up_to(MOST_OF_LEVELS),
        _ => MOST_OF_LEVELS + rng.up_to(22),
    }
}

// Counts a list that was accepted.
pub fn count_idle(words: &[u32], drawn: &mut Drawn) {
    if word(words, 0) < SETTINGS_WITH_IDLE {
        return;
    }
    let idle = word(words, 4);
    let least = power_of(words, 0);
    let largest = power_of(words, level_count(words).saturating_sub(1));
    drawn.idle_given.add(1);
    drawn.idle_below_levels.add_if(0 < idle && idle < least);
    drawn.idle_above_levels.add_if(largest < idle);
}
