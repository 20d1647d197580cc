// Start ticks: what is drawn, and which of the sites that were planned have them.
use crate::draw::Generator;
use crate::site_words::{start_ticks, word};
use crate::tally::Drawn;
use ranges::{MOST_START_TICKS, SETTINGS_WITH_START};

// None, few, as many as a short period has ticks, or mostly more than any period has.
pub(crate) fn any_start_ticks(rng: &mut Generator) -> u32 {
    match rng.below(8) {
        0 => 0,
        1..=4 => rng.up_to(2),
        5 | 6 => rng.up_to(8),
        _ => rng.up_to(MOST_START_TICKS),
    }
}

// Counts a list that was planned, with this much energy: 0 exactly where every task is refused.
pub fn count_start(words: &[u32], energy: u64, drawn: &mut Drawn) {
    if word(words, 0) == SETTINGS_WITH_START {
        let some = 0 < start_ticks(words);
        drawn.start_given.add(1);
        drawn.start_and_kept.add_if(some && 0 < energy);
        drawn.start_and_refused.add_if(some && energy == 0);
    }
}
