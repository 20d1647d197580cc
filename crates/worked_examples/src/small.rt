// A small list with a word changed, and its first words.
use crate::reading;
use std::io;

// One core, two levels, one task: word by word
// 0 count, 1 energy weight, 2 penalty weight, 3 cores, 4 levels, 5 speed, 6 power, 7 speed, 8 power, 9 tasks, 10 period,
// 11 cycles, 12 penalty.
const SMALL: [u32; 13] = [3, 1, 1, 1, 2, 10, 20, 30, 40, 1, 6, 1, 1];

// The list with one word changed.
pub(crate) fn varied(rt: &impl Print, at: u32, word: u32) -> io::Result<()> {
    print!(rt; "{at} is {word}: ")?;
    let mut list = SMALL;
    if let Some(changed) = list.get_mut(at as usize) {
        *changed = word;
    }
    reading::words(rt, &list)
}

// The list's first words.
pub(crate) fn cut(rt: &impl Print, n: u32) -> io::Result<()> {
    print!(rt; "{n} words: ")?;
    match SMALL.get(..n as usize) {
        Some(front) => reading::words(rt, front),
        None => Ok(()),
    }
}
