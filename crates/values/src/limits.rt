// The limits of the search, as in `assignment`, and the sizes that follow from them.
pub const MOST_ITEMS: usize = 12;

pub const MOST_CORES: usize = 4;

pub const MOST_LEVELS: usize = 8;

// From an item's levels to the next one's, in the slices of loads and costs.
pub const STRIDE: usize = MOST_LEVELS;

pub const MOST_CAPACITY: usize = 4096;

// Of an item at a level, and of its refusal: 2^55.
pub const MOST_COST: u64 = 0x80_0000_0000_0000;

// The sets of `MOST_ITEMS` items.
pub const MOST_SETS: usize = 1 << MOST_ITEMS;

// The entries of a knapsack: one for each load up to the largest capacity.
pub const ENTRIES: usize = MOST_CAPACITY + 1;
