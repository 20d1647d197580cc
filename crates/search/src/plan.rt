// The plan that a key stands for.
ghost use Rattle.std.specs.Prelude.{◌≡◌, ◌^◌, ◌≤◌, ◌<◌, length};
ghost use Rattle.laws.specs.Lists.{onto};
ghost use Rattle.assignment.specs.Keys.{key_base, digits};
ghost use Rattle.assignment.specs.Limits.{most_items};

use values::{KEY_BASE, keys_of};

pub fn write_plan(items: usize, key: u64, plan: &mut [u32])
    requires le_most_items { items ≤ most_items }
    requires key_bound { key < key_base ^ items }
    requires in_bounds { items ≤ length plan.old }
    ensures { plan.new ≡ onto (digits items key) plan.old }
{
    let mut power = keys_of(items);
    let mut rest = key;
    for i in 0..items {
        power /= KEY_BASE;
        plan[i] = (rest / power) as u32;
        rest %= power;
    }
}
