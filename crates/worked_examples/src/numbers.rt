// The numbers of a line.
ghost use Rattle.std.specs.Prelude.{◌≤◌};

use ranges::Slot;

// More than any line has.
pub(crate) const MOST_NUMBERS: usize = 64;

// The numbers that a line has, in a buffer with room for more.
#[derive(Drop)]
pub(crate) struct Numbers<T> {
    all: [T; MOST_NUMBERS],
    len: usize,
    ghost fits: { len ≤ 64 },
}

impl<T> Numbers<T> {
    pub(crate) fn list(&self) -> &[T] {
        &self.all[..self.len]
    }
}

// The words of a text; none where they are not read.
pub(crate) fn words_of(text: &[u8]) -> Numbers<u32> {
    let mut all = [0; MOST_NUMBERS];
    let len = match text::words_of_text(text, &mut all) {
        Ok(n) => n.min(MOST_NUMBERS),
        Err(_) => 0,
    };
    Numbers { all, len }
}

// The numbers as slots, none where they are more than there is room for.
pub(crate) fn slots_of(numbers: &[u32]) -> Numbers<Slot> {
    let mut all = [0; MOST_NUMBERS];
    if MOST_NUMBERS < numbers.len() {
        return Numbers { all, len: 0 };
    }
    for (slot, number) in all.iter_mut().zip(numbers) {
        *slot = (*number % 256) as Slot;
    }
    Numbers {
        all,
        len: numbers.len(),
    }
}
