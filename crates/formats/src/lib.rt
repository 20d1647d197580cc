// Taking words from a list, each tested as it is taken: the first that fails its test ends the taking.
#![tactic(auto)]

mod reader;

pub use reader::WordReader;
