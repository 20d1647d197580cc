// Gaps of a row that repeats, and what it is worth to sleep through them. It has no code but the two structs; the definitions and laws
// stand in specs/.
#![tactic(auto)]

// What a gap costs: idle power for each of its ticks where the core stays awake; the switching energy where it sleeps, which takes
// at least the switching time.
#[derive(Clone, Copy)]
pub struct SleepCosts {
    pub idle: u64,
    pub energy: u64,
    pub time: u64,
}

// What gaps come to: the energy drawn in them, and how many of them are slept through.
#[derive(Clone, Copy)]
pub struct Slept {
    pub energy: u64,
    pub sleeps: u32,
}
