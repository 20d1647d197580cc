// Runs the calls on worked examples, which it reads from standard input, and prints what each one gives. The expected lines
// are worked out from the paper, by hand.
#![tactic(auto)]

mod alone;
mod at_site;
mod counts;
mod dispatching;
mod lines;
mod listing;
mod numbers;
mod plans;
mod reading;
mod runs;
mod show;
mod sleeping;
mod small;
mod texts;

use std::io;

// How much of the input is read.
const MOST_BYTES: usize = 65_536;

fn main(rt: HostRuntime) -> io::Result<()> {
    let mut text = [0u8; MOST_BYTES];
    let n = printing::read_text(&mut rt.reader(), &mut text)?;
    lines::run(&rt, &text[..n])
}
