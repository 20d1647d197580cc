// Levels at which a job has its ticks within its window.
ghost use Rattle.std.specs.Prelude.{◌≡◌, ◌+◌, ◌*◌, ◌<◌, length, nat_le, slice_index};
ghost use Rattle.assignment.specs.Limits.{most_items};
ghost use Rattle.lagrangian.specs.TimedCores.{timing_width};

use crate::TIMING_WIDTH;

// Whether a job has its ticks within its window at a level.
pub fn is_within_window(item: usize, level: usize, timings: &[u32]) -> bool
    requires { (item < most_items) × (item * timing_width + 2 + level < length timings.now) }
    ensures { result ≡ nat_le (slice_index timings.now (item * timing_width + 2 + level)) (slice_index timings.now (item * timing_width + 1)) }
{
    timings[item * TIMING_WIDTH + 2 + level] <= timings[item * TIMING_WIDTH + 1]
}
