// A text that is spelt in a line, and what is shown of a text.
use crate::{listing, reading};
use std::io;

// The most letters of a text.
const MOST_LETTERS: usize = 256;

// What is shown of a text: its words, these in a buffer of three, or its listing.
#[derive(Clone, Copy, PartialEq, Eq)]
pub(crate) enum Shown {
    Words,
    FirstThree,
    Listing,
}

// The byte that a letter stands for.
fn byte_of(letter: u8) -> u8 {
    match letter {
        b'@'..=b'Z' => letter - b'@',
        b'_' => b' ',
        b'~' => 255,
        _ => letter,
    }
}

// A text of at most 256 letters.
pub(crate) fn spelt(rt: &impl Print, shown: Shown, letters: &[u8]) -> io::Result<()> {
    let mut bytes = [0u8; MOST_LETTERS];
    let Some(text) = bytes.get_mut(..letters.len()) else {
        return Ok(());
    };
    for (byte, letter) in text.iter_mut().zip(letters) {
        *byte = byte_of(*letter);
    }
    show(rt, shown, text)
}

pub(crate) fn show(rt: &impl Print, shown: Shown, text: &[u8]) -> io::Result<()> {
    match shown {
        Shown::Words => reading::text(rt, text),
        Shown::FirstThree => reading::text_into_three(rt, text),
        Shown::Listing => listing::listing(rt, text),
    }
}
