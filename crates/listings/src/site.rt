// The listing of a site's text: read, planned and put into lines.
ghost use Rattle.std.specs.Prelude.{◌≡◌, ◌≤◌, length};
ghost use Rattle.laws.specs.Lists.{onto};
ghost use Rattle.instance.specs.Held.{problem_in};
ghost use Rattle.instance.specs.ReadLaws.{HoldsProblemOf};
ghost use Rattle.listings.specs.Listing.{most_listing, listing_of};
ghost use Rattle.listings.specs.Outcomes.{list_given, problem_list_outcome, words_list_outcome, list_outcome};

use instance::{Instance, read_instance};
use listing_lines::{put_plan, put_refusal};
use planner::plan;
use ranges::{MOST_TABLE, MOST_TASKS, MOST_TEXT_WORDS};
use refusals::Refusal;
use tables::table_size;
use text::words_of_text;

// Room for every listing.
pub const MOST_LISTING: usize = 51_200;

// Plans the instance that the words are, and puts its lines: nothing is put before there is a plan.
fn put_best(out: &mut [u8], words: &[u32], inst: Instance) -> Result<usize, Refusal>
    requires holds_problem_of { HoldsProblemOf words.now inst }
    requires most_listing_in_bounds { most_listing ≤ length out.old }
    ensures { list_given result out.new ≡ problem_list_outcome (problem_in inst) out.old }
{
    let mut choices = [0u32; MOST_TASKS as usize];
    let mut table = [0; MOST_TABLE as usize];
    let price = plan(words, &mut choices, &mut table)?;
    let n = inst.taskcount;
    let size = table_size(inst);
    let end = put_plan(out, 0, inst, price, &choices[..n], &table[..size]);
    Ok(end)
}

fn list_words(words: &[u32], out: &mut [u8]) -> Result<usize, Refusal>
    ensures { list_given result out.new ≡ words_list_outcome words.now out.old }
{
    let inst = read_instance(words)?;
    let lent = out.len();
    if lent < MOST_LISTING {
        return Err(Refusal::ShortBuffer(MOST_LISTING));
    }
    put_best(out, words, inst)
}

// Writes the listing of a text that has a plan to the front of a buffer.
pub fn list_plan(text: &[u8], out: &mut [u8]) -> Result<usize, Refusal>
    ensures value { result ≡ (list_outcome text.now out.old).answer }
    ensures out_after { out.new ≡ (list_outcome text.now out.old).out }
{
    let mut words = [0; MOST_TEXT_WORDS as usize];
    let n = words_of_text(text, &mut words)?;
    list_words(&words[..n], out)
}

// Writes what is printed for a text to the front of an array that has room for every listing: a refusal too has its line.
pub fn list_site(text: &[u8], out: &mut [u8; MOST_LISTING]) -> usize
    ensures value { result ≡ length (listing_of text.now) }
    ensures out_after { out.new ≡ onto (listing_of text.now) out.old }
{
    match list_plan(text, out) {
        Ok(n) => n,
        Err(refusal) => put_refusal(out, 0, refusal),
    }
}
