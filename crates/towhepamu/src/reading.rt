// Reading the instance that a text is.
ghost use Rattle.std.specs.Prelude.{◌≡◌};
ghost use Rattle.instance.specs.SiteFile.{problem_of};
ghost use Rattle.answers.specs.Answers.{site_of};
ghost use Rattle.towhepamu.specs.CallOutcomes.{text_read_outcome};

use crate::words::with_words;
use answers::{Site, no_site, site_of};
use instance::read_instance;

fn read_words(words: &[u32]) -> Site
    ensures { result ≡ site_of (problem_of words.now) }
{
    match read_instance(words) {
        Ok(inst) => site_of(inst),
        Err(refusal) => no_site(refusal),
    }
}

// Whether a text is an instance, and how large that is.
pub fn towhepamu_read(text: &[u8]) -> Site
    ensures { result ≡ site_of (text_read_outcome text.now) }
{
    with_words(text, |words| match words {
        Ok(words) => read_words(words),
        Err(refusal) => no_site(refusal),
    })
}
