// How many sets and how many keys there are.
ghost use Rattle.std.specs.Prelude.{◌≡◌, ◌^◌, ◌≤◌};
ghost use Rattle.assignment.specs.Keys.{key_base};
ghost use Rattle.assignment.specs.Limits.{most_items};

// What one place more in a key is worth: more than any choice, of which there are at most 32.
pub const KEY_BASE: u64 = 33;

// The number of sets of so many items.
pub fn sets_of(items: usize) -> usize
    requires { items ≤ most_items }
    ensures { result ≡ 2 ^ items }
{
    1 << items
}

// One more than the largest key of a plan for so many items.
pub fn keys_of(items: usize) -> u64
    requires { items ≤ most_items }
    ensures { result ≡ key_base ^ items }
{
    KEY_BASE.pow(items as u32)
}
