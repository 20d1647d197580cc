// Examples that need no site.
use crate::numbers::words_of;
use crate::texts::Shown;
use crate::{counts, listing, reading, runs, small, texts};
use std::io;

// What is done with a line.
#[derive(Clone, Copy, PartialEq, Eq)]
enum Example {
    // A text that is spelt, or given as runs of equal bytes.
    Spelt(Shown),
    Runs(Shown),
    // The instance of a list of words, of the small list with a word changed, or of its first words.
    Words,
    Varied,
    Cut,
    Count,
    OverDots,
}

// The example that a letter stands for.
fn example_of(letter: u8) -> Option<Example> {
    match letter {
        b't' => Some(Example::Spelt(Shown::Words)),
        b'b' => Some(Example::Spelt(Shown::FirstThree)),
        b'l' => Some(Example::Spelt(Shown::Listing)),
        b'r' => Some(Example::Runs(Shown::Words)),
        b'g' => Some(Example::Runs(Shown::Listing)),
        b'w' => Some(Example::Words),
        b'v' => Some(Example::Varied),
        b'c' => Some(Example::Cut),
        b'j' => Some(Example::Count),
        b'd' => Some(Example::OverDots),
        _ => None,
    }
}

pub(crate) fn run(rt: &impl Print, letter: u8, given: &[u8]) -> io::Result<()> {
    match example_of(letter) {
        Some(Example::Spelt(shown)) => texts::spelt(rt, shown, given),
        Some(example) => run_numbers(rt, example, words_of(given).list()),
        None => Ok(()),
    }
}

// The word at a place, 0 past the end.
fn word(words: &[u32], at: usize) -> u32 {
    words.get(at).copied().unwrap_or(0)
}

fn run_numbers(rt: &impl Print, example: Example, words: &[u32]) -> io::Result<()> {
    match example {
        Example::Spelt(_) => Ok(()),
        Example::Runs(shown) => runs::show(rt, shown, words),
        Example::Words => reading::words(rt, words),
        Example::Varied => small::varied(rt, word(words, 0), word(words, 1)),
        Example::Cut => small::cut(rt, word(words, 0)),
        Example::Count => counts::show(rt, words),
        Example::OverDots => listing::over_dots(rt, word(words, 0) as usize),
    }
}
