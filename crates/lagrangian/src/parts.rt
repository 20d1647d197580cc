// Parts of patterns, for which weights are chosen.
use values::MOST_ITEMS;

// The first `fixed` items have these ticks to a job; those of the set `open`, which come after them, are still to have a level. A set of which
// no item has its level is such a part.
#[derive(Clone, Copy)]
pub struct Part {
    pub fixed: usize,
    pub open: usize,
    pub ticks: [u32; MOST_ITEMS],
}

impl Part {
    pub(crate) fn of_set(set: usize) -> Part {
        Part {
            fixed: 0,
            open: set,
            ticks: [0; MOST_ITEMS],
        }
    }
}
