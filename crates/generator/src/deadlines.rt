// Deadlines: what is drawn, and which of the sites that were planned have early ones.
use crate::draw::Generator;
use crate::site_words::{deadline_of, deadlines_at, level_count, period_of, task_count, ticks_at};
use crate::tally::Drawn;
use crate::words::Words;
use ranges::Slot;

// What a deadline is held against: the period, or a job's ticks at the lowest or at the highest level.
#[derive(Clone, Copy)]
enum Bound {
    Period,
    LowestLevel,
    HighestLevel,
}

// The period, any number, a small one, just enough for a job of so many ticks, enough for some ticks more, or not enough.
fn any_deadline(period: u32, ticks: u32, rng: &mut Generator) -> u32 {
    match rng.below(8) {
        0 => period,
        1 | 2 => rng.up_to(period),
        3 => rng.up_to(3),
        4 => ticks,
        5 => ticks.wrapping_add(rng.up_to(3)),
        6 => ticks.wrapping_add(rng.up_to(ticks)),
        _ => ticks.wrapping_sub(1),
    }
}

// A deadline for a task, whose jobs have the ticks of some level: from 1 to the period.
fn draw_deadline(words: &[u32], number: Slot, rng: &mut Generator) -> u32 {
    let period = period_of(words, number);
    let level = rng.up_to(level_count(words)).wrapping_sub(1);
    let ticks = ticks_at(words, number, level);
    any_deadline(period, ticks, rng).max(1).min(period)
}

// The count, and a deadline for each of so many tasks.
fn push_each(words: &mut Words, tasks: u32, rng: &mut Generator) {
    words.push(tasks);
    for number in 1..=(tasks % 256) as Slot {
        let deadline = draw_deadline(words.list(), number, rng);
        words.push(deadline);
    }
}

// None in half of the lists, in some a count of 0, else one for each task.
pub(crate) fn push_deadlines(words: &mut Words, tasks: u32, rng: &mut Generator) {
    match rng.below(16) {
        0..=7 => {}
        8 => words.push(0),
        _ => push_each(words, tasks, rng),
    }
}

fn above_last_period(words: &[u32]) -> u32 {
    let last = (task_count(words) % 256) as Slot;
    period_of(words, last).wrapping_add(1)
}

// The deadlines with another count, without the last word, or with a last word that is 0 or above the last period; where there
// are none, a count alone, or the same done to the tasks.
pub(crate) fn spoil_deadlines(words: &mut Words, rng: &mut Generator) {
    let from = deadlines_at(words.list());
    let end = words.len();
    let last = end.saturating_sub(1);
    match rng.below(4) {
        0 => {
            words.put(from, rng.below(6));
            words.end_at(end.max(from.wrapping_add(1)));
        }
        1 => words.end_at(last),
        2 => words.put(last, 0),
        _ => {
            let above = above_last_period(words.list());
            words.put(last, above);
        }
    }
}

fn ticks_held_against(words: &[u32], number: Slot, bound: Bound) -> u32 {
    match bound {
        Bound::Period => period_of(words, number),
        Bound::LowestLevel => ticks_at(words, number, 0),
        Bound::HighestLevel => ticks_at(words, number, level_count(words).wrapping_sub(1)),
    }
}

// Whether a deadline is below such ticks, though they are within the period.
fn is_below(words: &[u32], number: Slot, bound: Bound) -> bool {
    let ticks = ticks_held_against(words, number, bound);
    deadline_of(words, number) < ticks && ticks <= period_of(words, number)
}

fn some_below(words: &[u32], bound: Bound) -> bool {
    let tasks = (task_count(words) % 256) as Slot;
    (1..=tasks).any(|number| is_below(words, number, bound))
}

// Whether some task is due before its period ends.
pub fn has_early_deadlines(words: &[u32]) -> bool {
    some_below(words, Bound::Period)
}

// The list without its deadlines.
pub fn end_of_tasks(words: &[u32]) -> usize {
    deadlines_at(words)
}

// Counts a list that was planned and has early deadlines.
pub fn count_deadlines(words: &[u32], drawn: &mut Drawn) {
    drawn.early_deadlines.add(1);
    let lowest = some_below(words, Bound::LowestLevel);
    drawn.early_for_lowest_level.add_if(lowest);
    let highest = some_below(words, Bound::HighestLevel);
    drawn.early_for_every_level.add_if(highest);
}
