// The count of one job's slots.
use crate::numbers::slots_of;
use job_counts::{CountKind, Counted, count_job};
use ranges::Slot;
use std::io;

fn print_counted(rt: &impl Print, counted: Counted) -> io::Result<()> {
    let kind = match counted.kind {
        CountKind::Short => "short",
        CountKind::Right => "right",
        CountKind::Over => "over",
    };
    println!(rt; "{kind}, {} read", counted.read)
}

// A task's number, its window and its ticks, and the slots from a release to the next.
pub(crate) fn show(rt: &impl Print, given: &[u32]) -> io::Result<()> {
    let [number, window, ticks, row @ ..] = given else {
        return Ok(());
    };
    let slots = slots_of(row);
    let number = (*number % 256) as Slot;
    let counted = count_job(slots.list(), number, *window as usize, *ticks as usize);
    print_counted(rt, counted)
}
