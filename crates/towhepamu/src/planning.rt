// Planning the instance that a text is.
ghost use Rattle.std.specs.Prelude.{◌≡◌};
ghost use Rattle.answers.specs.Answers.{planned_of};
ghost use Rattle.towhepamu.specs.CallOutcomes.{text_plan_outcome};
ghost use Rattle.towhepamu.specs.OwnPlanLaws.{RoomForPlan};
ghost use Rattle.planner.specs.Outcomes.{plan_outcome};

use crate::choices::bytes_of_words;
use answers::{Planned, planned_of};
use instance::read_instance;
use planner::plan;
use prices::Price;
use ranges::{MOST_TASKS, MOST_TEXT_WORDS};
use refusals::Refusal;
use text::words_of_text;

// Plans an instance of n tasks in words of its own: the lent choices are written only once there is a plan.
fn plan_with_room(
    words: &[u32],
    n: usize,
    choices: &mut [u8],
    table: &mut [u8],
) -> Result<Price, Refusal>
    requires { RoomForPlan words.now n choices.old }
    ensures value { result ≡ (plan_outcome words.now choices.old table.old).answer }
    ensures choices_after { choices.new ≡ (plan_outcome words.now choices.old table.old).plan }
    ensures table_after { table.new ≡ (plan_outcome words.now choices.old table.old).table }
{
    let mut front = [0; MOST_TASKS as usize];
    let price = plan(words, &mut front[..n], table)?;
    bytes_of_words(&front[..n], choices);
    Ok(price)
}

fn plan_words(words: &[u32], choices: &mut [u8], table: &mut [u8]) -> Result<Price, Refusal>
    ensures value { result ≡ (plan_outcome words.now choices.old table.old).answer }
    ensures choices_after { choices.new ≡ (plan_outcome words.now choices.old table.old).plan }
    ensures table_after { table.new ≡ (plan_outcome words.now choices.old table.old).table }
{
    let n = read_instance(words)?.taskcount;
    let lent = choices.len();
    if lent < n {
        return Err(Refusal::ShortBuffer(n));
    }
    plan_with_room(words, n, choices, table)
}

fn plan_text(text: &[u8], plan: &mut [u8], table: &mut [u8]) -> Result<Price, Refusal>
    ensures value { result ≡ (text_plan_outcome text.now plan.old table.old).answer }
    ensures plan_after { plan.new ≡ (text_plan_outcome text.now plan.old table.old).plan }
    ensures table_after { table.new ≡ (text_plan_outcome text.now plan.old table.old).table }
{
    // Not lent by `with_words`: what its closure leaves in lent buffers is not known.
    let mut words = [0; MOST_TEXT_WORDS as usize];
    let n = words_of_text(text, &mut words)?;
    plan_words(&words[..n], plan, table)
}

// Writes the plan of least cost and its table to the fronts of the lent buffers.
pub fn towhepamu_plan(text: &[u8], plan: &mut [u8], table: &mut [u8]) -> Planned
    ensures value { result ≡ planned_of (text_plan_outcome text.now plan.old table.old).answer }
    ensures plan_after { plan.new ≡ (text_plan_outcome text.now plan.old table.old).plan }
    ensures table_after { table.new ≡ (text_plan_outcome text.now plan.old table.old).table }
{
    planned_of(plan_text(text, plan, table))
}
