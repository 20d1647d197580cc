// How many items a set has.
ghost use Rattle.std.specs.Prelude.{◌≤◌};
ghost use Rattle.assignment.specs.Limits.{most_items};

use crate::choices::is_in_set;

pub const FEW_ITEMS: usize = 6;

// How many of the items a set has.
pub fn size_of(items: usize, set: usize) -> usize
    requires { items ≤ most_items }
    ensures { result ≤ items }
{
    (0..items)
        .filter(|item| is_in_set(items, set, *item))
        .count()
}

// Whether a set has so few of the items that it is searched in less time than it takes to find good bounds for it.
pub fn has_few_items(items: usize, set: usize) -> bool
    requires { items ≤ most_items }
{
    size_of(items, set) < FEW_ITEMS
}
