// What the gaps of one core's row are worth, in one pass over its slots.
ghost use Rattle.std.specs.Prelude.{◌≡◌, not, ◌+◌, ◌*◌, ◌≤◌, eqb, length};
ghost use Rattle.gaps.specs.Sleeping.{row_slept};
ghost use Rattle.ranges.specs.Limits.{most_idle_power, most_span};
ghost use Rattle.sleep.specs.Rows.{busy_in};
ghost use Rattle.sleep.specs.RowWalks.{most_idle_energy, GapReckoned, with_gap, Bounded, Passes, WalkedTo};

use gaps::{SleepCosts, Slept};
use ranges::Slot;

// How far along a row: how many idle slots came before the first busy one, where one was met, how many have come since the last,
// and what the gaps between busy slots come to.
#[derive(Clone, Copy)]
struct Walk {
    leading: Option<u64>,
    run: u64,
    slept: Slept,
}

// What a core draws in a gap, asleep where that is allowed and cheaper.
fn gap_slept(costs: SleepCosts, gap: u64) -> Slept
    requires { costs.idle * gap ≤ most_idle_energy }
    ensures { GapReckoned costs gap result }
{
    let awake = costs.idle * gap;
    if costs.time <= gap {
        if costs.energy < awake {
            return Slept {
                energy: costs.energy,
                sleeps: 1,
            };
        }
    }
    Slept {
        energy: awake,
        sleeps: 0,
    }
}

// What earlier gaps and a further one come to.
fn with_gap(slept: Slept, costs: SleepCosts, gap: u64) -> Slept
    requires energy_bound { slept.energy + costs.idle * gap ≤ most_idle_energy }
    requires sleeps_bound { slept.sleeps ≤ most_span }
    ensures { result ≡ with_gap costs slept gap }
{
    let further = gap_slept(costs, gap);
    Slept {
        energy: slept.energy + further.energy,
        sleeps: slept.sleeps + further.sleeps,
    }
}

// One slot further.
fn past_slot(walk: Walk, costs: SleepCosts, slot: Slot) -> Walk
    requires { Bounded costs walk }
    ensures { Passes costs walk (not (eqb slot 0)) result }
{
    if slot == 0 {
        return Walk {
            run: walk.run + 1,
            ..walk
        };
    }
    match walk.leading {
        None => Walk {
            leading: Some(walk.run),
            run: 0,
            slept: walk.slept,
        },
        Some(leading) => Walk {
            leading: Some(leading),
            run: 0,
            slept: with_gap(walk.slept, costs, walk.run),
        },
    }
}

fn walk_row(row: &[Slot], costs: SleepCosts) -> Walk
    requires row_len_bound { length row.now ≤ most_span }
    requires idle_le_most_idle_power { costs.idle ≤ most_idle_power }
    ensures { WalkedTo costs (busy_in row.now) (length row.now) result }
{
    let mut walk = Walk {
        leading: None,
        run: 0,
        slept: Slept {
            energy: 0,
            sleeps: 0,
        },
    };
    for &slot in row {
        walk = past_slot(walk, costs, slot);
    }
    walk
}

// The row repeats: its last idle slots and its leading ones are one gap. A row without a busy slot has no gap.
pub(crate) fn row_slept(row: &[Slot], costs: SleepCosts) -> Slept
    requires row_len_bound { length row.now ≤ most_span }
    requires idle_le_most_idle_power { costs.idle ≤ most_idle_power }
    ensures { result ≡ row_slept costs (busy_in row.now) (length row.now) }
{
    let all = walk_row(row, costs);
    match all.leading {
        None => all.slept,
        Some(leading) => with_gap(all.slept, costs, leading + all.run),
    }
}
