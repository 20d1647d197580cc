// What the programs have in common: a text is read into a buffer, and lines and lists are printed.
#![tactic(auto)]

ghost use Rattle.std.specs.Prelude.{◌≤◌, IfOk, length};

use std::fmt::Display;
use std::io;
use std::io::Read;

// Reads until the text is full or the input ends, since one read may give less; answers how many bytes were read.
pub fn read_text(input: &mut impl Read, text: &mut [u8]) -> io::Result<usize>
    ensures { IfOk result (λ n. n ≤ length text.new) }
{
    let mut n = 0;
    while n < text.len() {
        let more = input.read(&mut text[n..])?;
        if more == 0 {
            return Ok(n);
        }
        n += more;
    }
    Ok(n)
}

// A line of bytes that need not be text.
pub fn print_line(rt: &impl Print, bytes: &[u8]) -> io::Result<()> {
    rt.write_all(bytes)?;
    rt.write_all(b"\n")
}

// Each item after a space.
pub fn print_list<T: Display>(rt: &impl Print, items: &[T]) -> io::Result<()> {
    for item in items {
        print!(rt; " {item}")?;
    }
    Ok(())
}
