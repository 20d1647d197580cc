// Tables that are not made by earliest deadline first: task after task takes the free slots that its jobs' windows have left.
ghost use Rattle.std.specs.Prelude.{◌<◌};

use crate::buffers::{TABLE_ROOM, Table};
use crate::draw::Generator;
use crate::site_words::{deadline_of, level_count, period_of, ticks_at};
use ranges::Slot;

// The slot of its window that a job tries first: from there it goes on and round, or it tries all from the end.
#[derive(Clone, Copy)]
enum First {
    Slot(u32),
    Last,
}

impl First {
    // The slot of a window that is tried after x others.
    fn slot_after(self, x: u32, window: u32) -> u32
        requires { x < window }
    {
        match self {
            First::Slot(first) => first.wrapping_add(x) % window,
            First::Last => window - 1 - x,
        }
    }
}

// The task that comes first, the slot of a window that each job tries first, and whether the windows go on after the due ticks, up
// to the next release: then the check may have to refuse the table.
#[derive(Clone, Copy)]
struct Order {
    turn: u32,
    first: First,
    late: bool,
}

// A kept task: its number, its row's first slot, and the slot of a window that it tries first.
#[derive(Clone, Copy)]
struct Kept {
    number: Slot,
    row: u32,
    period: u32,
    window: u32,
    ticks: u32,
    first: First,
}

// Takes a slot where it is free; answers whether it was.
fn take_slot(table: &mut Table, at: usize, number: Slot) -> bool {
    let is_free = at < TABLE_ROOM && table[at] == 0;
    if is_free {
        table[at] = number;
    }
    is_free
}

// A job of a task: it takes free slots of its window until it has its ticks, or has tried them all.
fn fill_window(table: &mut Table, task: Kept, release: u32) {
    let mut left = task.ticks;
    for x in 0..task.window {
        let slot = task.first.slot_after(x, task.window);
        let at = release.wrapping_add(slot) as usize;
        if 0 < left && take_slot(table, at, task.number) {
            left -= 1;
        }
    }
}

// All jobs of a task.
fn fill_row(table: &mut Table, task: Kept, span: u32) {
    if task.period == 0 {
        return;
    }
    for release in (0..span).step_by(task.period as usize) {
        fill_window(table, task, task.row.wrapping_add(release));
    }
}

fn window_of(words: &[u32], number: Slot, late: bool) -> u32 {
    if late {
        return period_of(words, number);
    }
    deadline_of(words, number)
}

// The task with this number, from 1, and this choice, unless it is refused.
fn kept_task(words: &[u32], span: u32, choice: u32, number: Slot, order: Order) -> Option<Kept> {
    let place = choice.checked_sub(1)?;
    let levels = level_count(words);
    let core = place.checked_div(levels)?;
    let level = place.checked_rem(levels)?;
    Some(Kept {
        number,
        row: core.wrapping_mul(span),
        period: period_of(words, number),
        window: window_of(words, number, order.late),
        ticks: ticks_at(words, number, level),
        first: order.first,
    })
}

// All tasks, from task `turn` on and round.
fn fill_tasks(table: &mut Table, words: &[u32], span: u32, plan: &[u32], order: Order) {
    let numbered = (1..=Slot::MAX).zip(plan).cycle();
    for (number, choice) in numbered.skip(order.turn as usize).take(plan.len()) {
        if let Some(task) = kept_task(words, span, *choice, number, order) {
            fill_row(table, task, span);
        }
    }
}

fn draw_first(rng: &mut Generator) -> First {
    if rng.below(2) == 0 {
        return First::Last;
    }
    First::Slot(rng.below(24))
}

// Fills an idle table for a plan, in an order that is drawn. A job may get fewer slots than it has ticks.
pub fn fill_table(table: &mut Table, words: &[u32], span: u32, plan: &[u32], rng: &mut Generator) {
    let order = Order {
        turn: rng.below(4),
        first: draw_first(rng),
        late: rng.below(4) == 0,
    };
    fill_tasks(table, words, span, plan, order);
}
