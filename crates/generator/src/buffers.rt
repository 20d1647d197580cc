// Buffers: how much of one is lent, and what kind of table stands in one.
ghost use Rattle.std.specs.Prelude.{◌≤◌};

use crate::draw::Generator;
use ranges::Slot;

// Room for one choice of each task.
pub const PLAN_ROOM: usize = ranges::MOST_TASKS as usize;

// Room for the table of a drawn instance.
pub const TABLE_ROOM: usize = 128;

pub type Choices = [u32; PLAN_ROOM];

pub type Table = [Slot; TABLE_ROOM];

// Room for a result of `size` elements: all there is, exactly enough, or now and then too little.
pub fn draw_room(size: usize, most: usize, rng: &mut Generator) -> usize
    ensures { result ≤ most }
{
    let drawn = rng.below(64);
    if most <= size {
        return most;
    }
    match drawn {
        0..=31 => most,
        32 => size.saturating_sub(1),
        33 => most.min(rng.below(4) as usize),
        _ => size,
    }
}

// Whether a core other than the first is busy in some slot.
pub fn uses_other_cores(table: &[Slot], span: usize) -> bool {
    table.iter().skip(span).any(|slot| *slot != 0)
}

// Whether a core is busy in each slot of its row.
pub fn has_full_row(table: &[Slot], span: usize) -> bool {
    0 < span
        && table
            .chunks(span)
            .any(|row| row.iter().all(|slot| *slot != 0))
}
