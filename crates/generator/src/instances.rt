// Instances as words: 0 to 4 tasks, 1 to 3 cores, 1 to 4 levels. Numbers are small, so that costs are often equal and cores
// are often exactly full; periods divide 24, so that a table has at most 72 slots.
use crate::deadlines::{push_deadlines, spoil_deadlines};
use crate::draw::Generator;
use crate::idle::{BELOW_LEVELS, idle_power};
use crate::site_words::deadlines_at;
use crate::start::any_start_ticks;
use crate::words::{WORDS_ROOM, Words};
use ranges::{MAY_NOT_BE_REFUSED, SETTINGS_WITH_IDLE, SETTINGS_WITH_START, SETTINGS_WITHOUT_IDLE};

const PERIODS: [u32; 8] = [1, 2, 3, 4, 6, 8, 12, 24];

// How many times their period cycles are: the first three exactly, the others at most. Most fit with ease, some only at
// high speeds, some never.
const TIMES: [u32; 16] = [1, 2, 3, 8, 40, 4, 4, 2, 2, 2, 1, 1, 1, 1, 1, 1];

// The largest penalty, 0 for a task that may not be refused.
const PENALTIES: [u32; 8] = [0, 0, 4, 4, 20, 20, 200, 200];

// Mostly three or four tasks, now and then none.
const TASKS: [u32; 16] = [0, 1, 1, 2, 2, 2, 3, 3, 3, 3, 3, 4, 4, 4, 4, 4];

// Words that are in few ranges.
const ODD_WORDS: [u32; 8] = [0, 0, 5, 6, 13, 4095, 4095, 100_000_001];

#[derive(Clone, Copy)]
struct Task {
    period: u32,
    cycles: u32,
    penalty: u32,
}

// The number of settings, the two weights, the cores; in half of the lists idle power, and in half of these start ticks.
fn push_settings(words: &mut Words, rng: &mut Generator) {
    words.push(SETTINGS_WITHOUT_IDLE);
    words.push(rng.up_to(3));
    words.push(rng.up_to(3));
    words.push(rng.up_to(3));
    let drawn = rng.below(4);
    if drawn < 2 {
        return;
    }
    words.put(0, SETTINGS_WITH_IDLE);
    words.push(idle_power(rng));
    if drawn == 2 {
        return;
    }
    words.put(0, SETTINGS_WITH_START);
    words.push(any_start_ticks(rng));
}

// The number of levels, and levels whose speeds rise by 1 to 3, and powers by 1 to 4.
fn push_levels(words: &mut Words, rng: &mut Generator) {
    let count = rng.up_to(4);
    words.push(count);
    let mut speed: u32 = 0;
    let mut power = BELOW_LEVELS;
    for _ in 0..count {
        speed = speed.wrapping_add(rng.up_to(3));
        power = power.wrapping_add(rng.up_to(4));
        words.push(speed);
        words.push(power);
    }
}

// Cycles that fill the period exactly at some speed, or up to some times the period.
fn draw_cycles(period: u32, rng: &mut Generator) -> u32 {
    let drawn = rng.below(16);
    let cycles = period.wrapping_mul(TIMES[drawn as usize]);
    if drawn < 3 {
        return cycles;
    }
    rng.up_to(cycles)
}

fn draw_penalty(rng: &mut Generator) -> u32 {
    match rng.one_of(&PENALTIES) {
        0 => MAY_NOT_BE_REFUSED,
        most => rng.up_to(most),
    }
}

fn draw_task(rng: &mut Generator) -> Task {
    let period = rng.one_of(&PERIODS);
    let cycles = draw_cycles(period, rng);
    let penalty = draw_penalty(rng);
    Task {
        period,
        cycles,
        penalty,
    }
}

// The number of tasks, and the tasks, of which one in five equals the one before it.
fn push_tasks(words: &mut Words, count: u32, rng: &mut Generator) {
    words.push(count);
    let mut before = None;
    for _ in 0..count {
        let task = match before {
            Some(task) if rng.below(5) == 0 => task,
            _ => draw_task(rng),
        };
        words.push(task.period);
        words.push(task.cycles);
        words.push(task.penalty);
        before = Some(task);
    }
}

fn draw_accepted(rng: &mut Generator) -> Words {
    let mut words = Words::new();
    push_settings(&mut words, rng);
    push_levels(&mut words, rng);
    let tasks = rng.one_of(&TASKS);
    push_tasks(&mut words, tasks, rng);
    push_deadlines(&mut words, tasks, rng);
    words
}

fn put_odd_word(words: &mut Words, rng: &mut Generator) {
    let word = rng.one_of(&ODD_WORDS);
    words.put(rng.below(32) as usize, word);
}

// 4,095 for the last period.
fn put_long_period(words: &mut Words) {
    let end = deadlines_at(words.list());
    words.put(end.wrapping_sub(3), 4095);
}

// The list with a word too many, another length, 4,095 for the last period, deadlines damaged, or a word changed: mostly one
// that reading refuses.
fn spoil(words: &mut Words, rng: &mut Generator) {
    match rng.below(12) {
        0 => words.push(rng.below(5)),
        1 => words.end_at(rng.below(WORDS_ROOM as u32) as usize),
        2 | 3 => put_long_period(words),
        4..=7 => spoil_deadlines(words, rng),
        _ => put_odd_word(words, rng),
    }
}

// Draws an instance, one in ten spoilt.
pub fn draw_instance(rng: &mut Generator) -> Words {
    let mut words = draw_accepted(rng);
    if rng.below(10) == 0 {
        spoil(&mut words, rng);
    }
    words
}
