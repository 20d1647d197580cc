// Prints what a call answered.
use refusals::{Refusal, Verdict};
use std::io;

pub(crate) fn refusal(rt: &impl Print, why: Refusal) -> io::Result<()> {
    let number = why.number();
    let place = why.place();
    println!(rt; "refused {number} {place}")
}

pub(crate) fn verdict(rt: &impl Print, verdict: Verdict, accepted: &str) -> io::Result<()> {
    match verdict {
        Ok(()) => rt.print(accepted),
        Err(why) => refusal(rt, why),
    }
}
