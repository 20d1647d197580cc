// What the gaps of a table are worth.
use crate::show;
use printing::print_list;
use ranges::Slot;
use std::io;

// More entries than any line asks for.
const MOST_ENTRIES: usize = 8;

// The energy and the time of switching off and on.
#[derive(Clone, Copy)]
pub(crate) struct Switching {
    pub(crate) energy: u32,
    pub(crate) time: u32,
}

fn print_lists(rt: &impl Print, energies: &[u64], sleeps: &[u32]) -> io::Result<()> {
    rt.print("energies")?;
    print_list(rt, energies)?;
    rt.print(" sleeps")?;
    print_list(rt, sleeps)?;
    println!(rt)
}

// In lists of so many entries, which held 7 everywhere.
pub(crate) fn reckon(
    rt: &impl Print,
    words: &[u32],
    plan: &[u32],
    table: &[Slot],
    switching: Switching,
    rooms: (usize, usize),
) -> io::Result<()> {
    let mut all_energies = [7u64; MOST_ENTRIES];
    let mut all_sleeps = [7u32; MOST_ENTRIES];
    let Some(energies) = all_energies.get_mut(..rooms.0) else {
        return Ok(());
    };
    let Some(sleeps) = all_sleeps.get_mut(..rooms.1) else {
        return Ok(());
    };
    let Switching { energy, time } = switching;
    let verdict = sleep::sleep(words, plan, table, energy, time, energies, sleeps);
    show::verdict(rt, verdict, "")?;
    print_lists(rt, energies, sleeps)
}
