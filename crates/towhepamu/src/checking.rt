// The checks of a given plan and table.
ghost use Rattle.std.specs.Prelude.{◌≡◌};
ghost use Rattle.answers.specs.Answers.{checked_of};
ghost use Rattle.towhepamu.specs.CallOutcomes.{text_slot_check_outcome, text_check_outcome};
ghost use Rattle.checks.specs.Outcomes.{slot_check_outcome, check_outcome};

use crate::choices::with_front;
use crate::words::with_words;
use answers::{Checked, checked_of};
use checks::{check_slots, check_table};
use refusals::Verdict;

fn check_words(words: &[u32], plan: &[u8], table: &[u8]) -> Verdict
    ensures { result ≡ check_outcome words.now plan.now table.now }
{
    with_front(plan, |choices| check_table(words, choices, table))
}

fn check_slots_of_words(words: &[u32], plan: &[u8], table: &[u8]) -> Verdict
    ensures { result ≡ slot_check_outcome words.now plan.now table.now }
{
    with_front(plan, |choices| check_slots(words, choices, table))
}

// Whether a table is as long as it must be for the instance that a text is, and its slots name tasks kept on their cores.
pub fn towhepamu_check_slots(text: &[u8], plan: &[u8], table: &[u8]) -> Checked
    ensures { result ≡ checked_of (text_slot_check_outcome text.now plan.now table.now) }
{
    checked_of(with_words(text, |words| { check_slots_of_words(words?, plan, table) }))
}

// Whether a table is one of the plan's for the instance that a text is.
pub fn towhepamu_check(text: &[u8], plan: &[u8], table: &[u8]) -> Checked
    ensures { result ≡ checked_of (text_check_outcome text.now plan.now table.now) }
{
    checked_of(with_words(text, |words| check_words(words?, plan, table)))
}
