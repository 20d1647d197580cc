// What the gaps of a given table are worth.
ghost use Rattle.std.specs.Prelude.{◌≡◌};
ghost use Rattle.sleep.specs.Outcomes.{Gives, sleep_outcome};
ghost use Rattle.answers.specs.Answers.{checked_of};
ghost use Rattle.towhepamu.specs.CallOutcomes.{text_sleep_outcome};

use crate::choices::{CHOICES, words_of_bytes};
use answers::{Checked, checked_of};
use ranges::MOST_TEXT_WORDS;
use refusals::Verdict;
use sleep::sleep;
use text::words_of_text;

// The front of the plan decides, as in the check; it is not lent by `with_front`, since what a closure leaves in lent buffers is
// not known.
fn sleep_words(
    words: &[u32],
    plan: &[u8],
    table: &[u8],
    energy: u32,
    time: u32,
    energies: &mut [u64],
    sleeps: &mut [u32],
) -> Verdict
    ensures { Gives result energies.new sleeps.new
        (sleep_outcome words.now plan.now table.now energy time energies.old sleeps.old) }
{
    let mut choices = [0; CHOICES];
    let n = words_of_bytes(plan, &mut choices);
    sleep(words, &choices[..n], table, energy, time, energies, sleeps)
}

fn sleep_text(
    text: &[u8],
    plan: &[u8],
    table: &[u8],
    energy: u32,
    time: u32,
    energies: &mut [u64],
    sleeps: &mut [u32],
) -> Verdict
    ensures { Gives result energies.new sleeps.new
        (text_sleep_outcome text.now plan.now table.now energy time energies.old sleeps.old) }
{
    let mut words = [0; MOST_TEXT_WORDS as usize];
    let n = words_of_text(text, &mut words)?;
    sleep_words(&words[..n], plan, table, energy, time, energies, sleeps)
}

// Writes the least idle energy of each core and the number of its sleeps to the fronts of the lent lists.
pub fn towhepamu_sleep(
    text: &[u8],
    plan: &[u8],
    table: &[u8],
    switching_energy: u32,
    switching_time: u32,
    energies: &mut [u64],
    sleeps: &mut [u32],
) -> Checked
    ensures value { result ≡ checked_of (text_sleep_outcome text.now plan.now table.now switching_energy switching_time
        energies.old sleeps.old).answer }
    ensures energies_after { energies.new
        ≡ (text_sleep_outcome text.now plan.now table.now switching_energy switching_time
        energies.old sleeps.old).energies }
    ensures sleeps_after { sleeps.new
        ≡ (text_sleep_outcome text.now plan.now table.now switching_energy switching_time
        energies.old sleeps.old).sleeps }
{
    checked_of(sleep_text(
        text,
        plan,
        table,
        switching_energy,
        switching_time,
        energies,
        sleeps,
    ))
}
