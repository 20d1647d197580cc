// The count of one job's slots, which ends at the first slot too many.
#![tactic(auto)]

ghost use Rattle.std.specs.Prelude.{◌≡◌, ◌⊎◌, ◌≤◌, ◌<◌, true, false};
ghost use Rattle.job_counts.specs.JobCounts.{count_job, kind_number, CountEnds};

use ranges::Slot;

// Whether a job has fewer slots than it must have, as many, or one too many.
#[derive(Clone, Copy)]
pub enum CountKind {
    Short,
    Right,
    Over,
}

// What the count of a job answers, and how many slots it read.
#[derive(Clone, Copy)]
pub struct Counted {
    pub kind: CountKind,
    pub read: usize,
}

// Whether a slot at x is one too many for a job that is due before `window` and still needs `left`.
fn is_one_too_many(left: usize, window: usize, x: usize) -> bool
    ensures too_many { result ≡ true → (left ≡ 0) ⊎ (window ≤ x) }
    ensures needed { result ≡ false → (0 < left) × (x < window) }
{
    left == 0 || window <= x
}

// The slots are those of a row from the job's release to the next; `window` of them are before its due tick.
pub fn count_job(slots: &[Slot], number: Slot, window: usize, ticks: usize) -> Counted
    ensures value { result ≡ count_job slots.now number window ticks }
    ensures promise { CountEnds slots.now number window ticks (kind_number result.kind) result.read }
{
    let mut left = ticks;
    for (x, slot) in slots.iter().enumerate() {
        if *slot == number {
            if is_one_too_many(left, window, x) {
                return Counted {
                    kind: CountKind::Over,
                    read: x + 1,
                };
            }
            left -= 1;
        }
    }
    let kind = if left == 0 {
        CountKind::Right
    } else {
        CountKind::Short
    };
    Counted {
        kind,
        read: slots.len(),
    }
}
