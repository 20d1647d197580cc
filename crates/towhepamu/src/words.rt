// The words that a text is, lent to whoever goes on with them.
ghost use Rattle.towhepamu.specs.Lending.{IsReading};

use ranges::MOST_TEXT_WORDS;
use refusals::Refusal;
use text::words_of_text;

// Hands over the words of a text, or why it has none.
pub(crate) fn with_words<T, F: FnOnce(Result<&[u32], Refusal>) -> T>(text: &[u8], f: F) -> T
    requires { F.IsAlwaysCallable f }
    ensures { (reading : _) × IsReading text.now reading × F.post f reading result }
{
    let mut words = [0; MOST_TEXT_WORDS as usize];
    match words_of_text(text, &mut words) {
        Ok(n) => f(Ok(&words[..n])),
        Err(refusal) => f(Err(refusal)),
    }
}
