// The least idle energy and the sleeps of each core, for a table that passes the check.
ghost use Rattle.std.specs.Prelude.{◌≡◌, ◌≤◌, ◌<◌, length, Ok};
ghost use Rattle.instance.specs.Held.{Sound, problem_in};
ghost use Rattle.laws.specs.Lists.{onto};
ghost use Rattle.tables.specs.Tables.{table_size};
ghost use Rattle.sleep.specs.CoreSleeps.{core_slept, least_energies, sleep_counts, switching_passes};
ghost use Rattle.sleep.specs.Outcomes.{Gives, sleep_outcome, sleep_outcome_of, SleepingEnds};

use crate::rows::row_slept;
use checks::table_passes;
use gaps::{SleepCosts, Slept};
use instance::{Instance, read_instance};
use ranges::{MOST_SWITCHING_ENERGY, MOST_SWITCHING_TIME, Slot};
use refusals::{Refusal, Verdict};

// The switching words: what a core draws for a gap that it sleeps in, and how long such a gap is at least.
#[derive(Clone, Copy)]
struct Switching {
    energy: u32,
    time: u32,
}

impl Switching {
    // 11, the energy before the time.
    fn passes(self) -> Verdict
        ensures { result ≡ switching_passes self.energy self.time }
    {
        if MOST_SWITCHING_ENERGY < self.energy {
            return Err(Refusal::SwitchingWord(0));
        }
        if MOST_SWITCHING_TIME < self.time {
            return Err(Refusal::SwitchingWord(1));
        }
        Ok(())
    }
}

// What the row of core k, counted from 0, comes to.
fn core_slept(inst: Instance, table: &[Slot], switching: Switching, k: usize) -> Slept
    requires sound { Sound inst }
    requires table_len { length table.now ≡ table_size (problem_in inst) }
    requires k_bound { k < (problem_in inst).cores }
    ensures { result ≡ core_slept (problem_in inst) table.now switching.energy switching.time k }
{
    let costs = SleepCosts {
        idle: inst.idle as u64,
        energy: switching.energy as u64,
        time: switching.time as u64,
    };
    let span = inst.span as usize;
    let from = k * span;
    let to = from + span;
    row_slept(&table[from..to], costs)
}

// Writes what each core comes to, to the fronts of both lists.
fn fill_slept(
    inst: Instance,
    table: &[Slot],
    switching: Switching,
    energies: &mut [u64],
    sleeps: &mut [u32],
)
    requires sound { Sound inst }
    requires table_len { length table.now ≡ table_size (problem_in inst) }
    requires inst_in_bounds { (problem_in inst).cores ≤ length energies.old }
    requires inst_in_bounds_2 { (problem_in inst).cores ≤ length sleeps.old }
    ensures energies_after { energies.new ≡ onto (least_energies (problem_in inst) table.now switching.energy switching.time) energies.old }
    ensures sleeps_after { sleeps.new ≡ onto (sleep_counts (problem_in inst) table.now switching.energy switching.time) sleeps.old }
{
    let cores = inst.cores as usize;
    for k in 0..cores {
        let slept = core_slept(inst, table, switching, k);
        energies[k] = slept.energy;
        sleeps[k] = slept.sleeps;
    }
}

// Reckons for an instance that was read.
fn sleep_read(
    inst: Instance,
    plan: &[u32],
    table: &[Slot],
    switching: Switching,
    energies: &mut [u64],
    sleeps: &mut [u32],
) -> Verdict
    requires { Sound inst }
    ensures { Gives result energies.new sleeps.new
        (sleep_outcome_of (Ok (problem_in inst)) plan.now table.now switching.energy switching.time energies.old sleeps.old) }
{
    switching.passes()?;
    let cores = inst.cores as usize;
    if energies.len() < cores {
        return Err(Refusal::ShortBuffer(cores));
    }
    if sleeps.len() < cores {
        return Err(Refusal::ShortBuffer(cores));
    }
    table_passes(inst, plan, table)?;
    fill_slept(inst, table, switching, energies, sleeps);
    Ok(())
}

// Writes the least idle energy of each core and the number of its sleeps to the fronts of the lent lists.
pub fn sleep(
    instance: &[u32],
    plan: &[u32],
    table: &[Slot],
    switching_energy: u32,
    switching_time: u32,
    energies: &mut [u64],
    sleeps: &mut [u32],
) -> Verdict
    ensures value { result ≡ (sleep_outcome instance.now plan.now table.now switching_energy switching_time
        energies.old sleeps.old).answer }
    ensures energies_after { energies.new
        ≡ (sleep_outcome instance.now plan.now table.now switching_energy switching_time
        energies.old sleeps.old).energies }
    ensures sleeps_after { sleeps.new
        ≡ (sleep_outcome instance.now plan.now table.now switching_energy switching_time
        energies.old sleeps.old).sleeps }
    ensures promise { SleepingEnds instance.now plan.now table.now switching_energy switching_time
        energies.old sleeps.old result energies.new sleeps.new }
{
    sleep_read(
        read_instance(instance)?,
        plan,
        table,
        Switching {
            energy: switching_energy,
            time: switching_time,
        },
        energies,
        sleeps,
    )
}
