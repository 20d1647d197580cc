// Reads the examples, line by line. A line that begins with - is a heading, which is printed. One with S gives a site, which
// its second byte names; one with another capital letter is an example at such a site, and one with a small letter an example
// of its own. Any other line says something to the reader.
use crate::{alone, at_site};
use std::io;

// The text of the words of each site, at the byte that names it.
type Sites<'a> = [&'a [u8]; 256];

pub(crate) fn run(rt: &impl Print, text: &[u8]) -> io::Result<()> {
    let first = text.split(|byte| *byte == b'\n').next().unwrap_or(text);
    let mut sites = [first; 256];
    for line in text.split(|byte| *byte == b'\n') {
        run_line(rt, line, &mut sites)?;
    }
    Ok(())
}

fn run_line<'a>(rt: &impl Print, line: &'a [u8], sites: &mut Sites<'a>) -> io::Result<()> {
    match line {
        [b'-', ..] => printing::print_line(rt, line),
        [b'S', name, words @ ..] => {
            sites[usize::from(*name)] = words;
            Ok(())
        }
        [letter @ b'A'..=b'Z', name, given @ ..] => {
            at_site::run(rt, *letter, sites[usize::from(*name)], given)
        }
        [] | [b'A'..=b'Z'] => Ok(()),
        [letter, given @ ..] => alone::run(rt, *letter, given),
    }
}
