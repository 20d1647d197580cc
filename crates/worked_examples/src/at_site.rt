// Examples at a site, whose words are lent as text.
use crate::numbers::{slots_of, words_of};
use crate::sleeping::Switching;
use crate::{dispatching, plans, sleeping};
use dispatcher::DispatchState;
use ranges::Slot;
use std::io;

// What is done at a site.
#[derive(Clone, Copy, PartialEq, Eq)]
enum Example {
    Price,
    LongTable,
    Table,
    // The whole table, or its slots alone.
    Check,
    CheckSlots,
    Gaps,
    // Calls of the dispatcher from a fresh start on, or one in a given state.
    Calls,
    OneCall,
}

// The example that a letter stands for.
fn example_of(letter: u8) -> Option<Example> {
    match letter {
        b'P' => Some(Example::Price),
        b'L' => Some(Example::LongTable),
        b'T' => Some(Example::Table),
        b'C' => Some(Example::Check),
        b'H' => Some(Example::CheckSlots),
        b'G' => Some(Example::Gaps),
        b'D' => Some(Example::Calls),
        b'E' => Some(Example::OneCall),
        _ => None,
    }
}

pub(crate) fn run(rt: &impl Print, letter: u8, site: &[u8], given: &[u8]) -> io::Result<()> {
    match example_of(letter) {
        Some(example) => run_example(rt, example, words_of(site).list(), words_of(given).list()),
        None => Ok(()),
    }
}

fn run_example(rt: &impl Print, example: Example, words: &[u32], given: &[u32]) -> io::Result<()> {
    match example {
        Example::Price => plans::price(rt, words, given),
        Example::LongTable => plans::long_table(rt, words, given),
        Example::Table => table(rt, words, given),
        Example::Check => with_table(given, |plan, table| plans::check(rt, words, plan, table)),
        Example::CheckSlots => with_table(
            given,
            |plan, table| plans::check_slots(rt, words, plan, table),
        ),
        Example::Gaps => gaps(rt, words, given),
        Example::Calls => calls(rt, words, given),
        Example::OneCall => one_call(rt, words, given),
    }
}

// The first number says how many after it are a plan; those after the plan are a table, reports or ticks left.
fn plan_and_rest(given: &[u32]) -> Option<(&[u32], &[u32])> {
    let (choices, after) = given.split_first()?;
    after.split_at_checked(*choices as usize)
}

fn table(rt: &impl Print, words: &[u32], given: &[u32]) -> io::Result<()> {
    match given {
        [room, plan @ ..] => plans::table(rt, words, *room, plan),
        [] => Ok(()),
    }
}

// Shows what comes of a plan and the table after it.
fn with_table<F: FnOnce(&[u32], &[Slot]) -> io::Result<()>>(
    given: &[u32],
    show: F,
) -> io::Result<()>
    requires { F.IsAlwaysCallable show }
{
    match plan_and_rest(given) {
        Some((plan, table)) => show(plan, slots_of(table).list()),
        None => Ok(()),
    }
}

// Switching energy, switching time, and how many entries each of two lists has.
fn gaps(rt: &impl Print, words: &[u32], given: &[u32]) -> io::Result<()> {
    let [energy, time, energies, sleeps, planned @ ..] = given else {
        return Ok(());
    };
    let switching = Switching {
        energy: *energy,
        time: *time,
    };
    let rooms = (*energies as usize, *sleeps as usize);
    with_table(planned, |plan, table| {
        sleeping::reckon(rt, words, plan, table, switching, rooms)
    })
}

// A core.
fn calls(rt: &impl Print, words: &[u32], given: &[u32]) -> io::Result<()> {
    let [core, planned @ ..] = given else {
        return Ok(());
    };
    match plan_and_rest(planned) {
        Some((plan, reports)) => dispatching::calls(rt, words, *core, plan, reports),
        None => Ok(()),
    }
}

// A core, a report, a tick and a last task.
fn one_call(rt: &impl Print, words: &[u32], given: &[u32]) -> io::Result<()> {
    let [core, report, tick, last, planned @ ..] = given else {
        return Ok(());
    };
    match plan_and_rest(planned) {
        Some((plan, left)) => {
            let state = DispatchState {
                tick: *tick,
                left: dispatching::left_of(left),
                last: *last,
            };
            dispatching::one_call(rt, words, *core, plan, state, *report)
        }
        None => Ok(()),
    }
}
