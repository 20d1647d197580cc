// Where the words of a list stand that is not refused: its sections, each after its count.
use ranges::Slot;

// Two words for each level: its speed, its power.
const LEVEL_WORDS: usize = 2;

// Three words for each task: its period, its cycles, its penalty.
const TASK_WORDS: usize = 3;

// The word at a place of the list, 0 past its end.
pub(crate) fn word(words: &[u32], at: usize) -> u32 {
    words.get(at).copied().unwrap_or(0)
}

// The place of the levels' count.
fn levels_at(words: &[u32]) -> usize {
    1 + word(words, 0) as usize
}

pub(crate) fn level_count(words: &[u32]) -> u32 {
    word(words, levels_at(words))
}

// The place of the speed of a level, from 0.
fn speed_at(words: &[u32], level: u32) -> usize {
    levels_at(words)
        .wrapping_add(1)
        .wrapping_add(LEVEL_WORDS * level as usize)
}

pub(crate) fn speed_of(words: &[u32], level: u32) -> u32 {
    word(words, speed_at(words, level))
}

pub(crate) fn power_of(words: &[u32], level: u32) -> u32 {
    word(words, speed_at(words, level).wrapping_add(1))
}

// The place of the tasks' count, after the settings and the levels.
fn tasks_at(words: &[u32]) -> usize {
    speed_at(words, level_count(words))
}

pub(crate) fn task_count(words: &[u32]) -> u32 {
    word(words, tasks_at(words))
}

// The place of the period of the task with this number, from 1.
fn period_at(words: &[u32], number: Slot) -> usize {
    let before = TASK_WORDS * number as usize;
    tasks_at(words).wrapping_add(before).wrapping_sub(2)
}

pub(crate) fn period_of(words: &[u32], number: Slot) -> u32 {
    word(words, period_at(words, number))
}

// The fifth setting, 0 where there are fewer.
pub(crate) fn start_ticks(words: &[u32]) -> u32 {
    if word(words, 0) < ranges::SETTINGS_WITH_START {
        return 0;
    }
    word(words, 5)
}

// The ticks of a job of a task at a level, from 0, reckoned here once more.
pub(crate) fn ticks_at(words: &[u32], number: Slot, level: u32) -> u32 {
    let cycles = word(words, period_at(words, number).wrapping_add(1));
    let speed = speed_of(words, level);
    let busy = if speed == 0 {
        0
    } else {
        cycles.div_ceil(speed)
    };
    busy.wrapping_add(start_ticks(words))
}

// The place of the deadlines' count, which is where the tasks end.
pub(crate) fn deadlines_at(words: &[u32]) -> usize {
    let tasks = TASK_WORDS * task_count(words) as usize;
    tasks_at(words).wrapping_add(1).wrapping_add(tasks)
}

// A task's deadline: its period where the list ends before, or the deadlines count 0.
pub(crate) fn deadline_of(words: &[u32], number: Slot) -> u32 {
    let count = deadlines_at(words);
    if word(words, count) == 0 {
        return period_of(words, number);
    }
    word(words, count.wrapping_add(number as usize))
}
