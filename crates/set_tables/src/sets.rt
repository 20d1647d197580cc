// The sets that the cores run of a plan.
ghost use Rattle.std.specs.Prelude.{cond, ◌≡◌, ◌^◌, ◌≤◌, ◌<◌};
ghost use Rattle.assignment.specs.Keys.{key_base};
ghost use Rattle.assignment.specs.Limits.{most_items};
ghost use Rattle.set_tables.specs.CoreSets.{core_set_number, runs_on};

use values::{KEY_BASE, keys_of};

// Whether this choice has the core run its item.
fn runs_on(levels: usize, core: usize, choice: usize) -> bool
    requires { 1 ≤ levels }
    ensures { cond result 1 0 ≡ runs_on levels core choice }
{
    choice != 0 && (choice - 1) / levels == core
}

// The number of the set that a core runs of the plan that a key stands for.
pub fn core_set(items: usize, levels: usize, core: usize, key: u64) -> usize
    requires le_most_items { items ≤ most_items }
    requires le_levels { 1 ≤ levels }
    requires key_bound { key < key_base ^ items }
    ensures { result ≡ core_set_number items levels core key }
{
    let mut power = keys_of(items);
    let mut rest = key;
    let mut set = 0;
    for _i in 0..items {
        power /= KEY_BASE;
        set = set * 2 + usize::from(runs_on(levels, core, (rest / power) as usize));
        rest %= power;
    }
    set
}
