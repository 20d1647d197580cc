// Prints the listing of the text on standard input.
#![tactic(auto)]

use listings::{MOST_LISTING, list_site};
use printing::read_text;
use ranges::MOST_TEXT_BYTES;
use std::io;

// Prints the whole listing, or fails.
fn print_listing(rt: &impl Print, text: &[u8]) -> io::Result<()> {
    let mut out = [0u8; MOST_LISTING];
    let n = list_site(text, &mut out);
    rt.write_all(&out[..n])
}

// One byte more than a text may have is read, so that a text that is too long is refused and never cut. That standard error has a line
// is how a caller learns that there is no listing, or not all of it: the exit status is another only where that line fails.
fn main(rt: HostRuntime) -> io::Result<()> {
    let mut text = [0u8; MOST_TEXT_BYTES as usize + 1];
    match read_text(&mut rt.reader(), &mut text) {
        Ok(n) => match print_listing(&rt, &text[..n]) {
            Ok(()) => Ok(()),
            Err(_) => rt.eprintln("the listing cannot be written"),
        },
        Err(_) => rt.eprintln("standard input cannot be read"),
    }
}
