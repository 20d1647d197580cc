// The listing of the instance that a text is.
ghost use Rattle.std.specs.Prelude.{◌≡◌};
ghost use Rattle.listings.specs.Outcomes.{list_outcome};
ghost use Rattle.answers.specs.Answers.{listed_of};

use answers::{Listed, listed_of};
use listings::list_plan;

// Writes what the listing program prints for a text that has a plan to the front of the lent buffer.
pub fn towhepamu_list(text: &[u8], out: &mut [u8]) -> Listed
    ensures value { result ≡ listed_of (list_outcome text.now out.old).answer }
    ensures out_after { out.new ≡ (list_outcome text.now out.old).out }
{
    listed_of(list_plan(text, out))
}
