// What a plan costs, its table, and the checks of a table.
use crate::show;
use prices::Price;
use printing::print_list;
use ranges::Slot;
use std::io;

// The slots of the longest row.
const LONG_ROW: usize = ranges::MOST_SPAN as usize;

// More slots than any line asks for.
const MOST_SLOTS: usize = 64;

fn print_price(rt: &impl Print, price: Price) -> io::Result<()> {
    println!(rt;
        "energy {} penalty {} cost {}",
        price.energy, price.penalty, price.cost
    )
}

pub(crate) fn price(rt: &impl Print, words: &[u32], plan: &[u32]) -> io::Result<()> {
    match prices::price(words, plan) {
        Ok(price) => print_price(rt, price),
        Err(why) => show::refusal(rt, why),
    }
}

// Tables into a buffer with so much room, which held 77 everywhere, and prints the buffer.
pub(crate) fn table(rt: &impl Print, words: &[u32], room: u32, plan: &[u32]) -> io::Result<()> {
    let mut all = [77; MOST_SLOTS];
    let Some(slots) = all.get_mut(..room as usize) else {
        return Ok(());
    };
    show::verdict(rt, tables::tabulate(words, plan, slots), "table")?;
    print_list(rt, slots)?;
    println!(rt)
}

fn slots_with(slots: &[Slot], number: Slot) -> usize {
    slots.iter().filter(|slot| **slot == number).count()
}

// How many slots are idle, and how many each of two tasks has.
fn print_counts(rt: &impl Print, slots: &[Slot]) -> io::Result<()> {
    let idle = slots_with(slots, 0);
    let first = slots_with(slots, 1);
    let second = slots_with(slots, 2);
    println!(rt; "{idle} task 1 {first} task 2 {second}")
}

// Tables a long row, prints what it holds, and checks it.
pub(crate) fn long_table(rt: &impl Print, words: &[u32], plan: &[u32]) -> io::Result<()> {
    let mut slots = [77; LONG_ROW];
    show::verdict(rt, tables::tabulate(words, plan, &mut slots), "idle ")?;
    print_counts(rt, &slots)?;
    check(rt, words, plan, &slots)
}

pub(crate) fn check(
    rt: &impl Print,
    words: &[u32],
    plan: &[u32],
    table: &[Slot],
) -> io::Result<()> {
    show::verdict(rt, checks::check_table(words, plan, table), "accepted\n")
}

pub(crate) fn check_slots(
    rt: &impl Print,
    words: &[u32],
    plan: &[u32],
    table: &[Slot],
) -> io::Result<()> {
    show::verdict(rt, checks::check_slots(words, plan, table), "accepted\n")
}
