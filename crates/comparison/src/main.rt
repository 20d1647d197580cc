// Compares the planner with a second one, that tries every plan, on instances drawn by a fixed generator.
//
// The numbers that it prints are the generator's, and nobody works them out by hand: they show that no comparison is empty.
// Those under the last heading must be 0, whatever is drawn.
#![tactic(auto)]

mod compare;
mod planners;

use generator::Generator;
use generator::tally::Counts;
use std::io;

const INSTANCES: u32 = 20_000;

fn main(rt: HostRuntime) -> io::Result<()> {
    let mut rng = Generator::new(1);
    let mut counts = Counts::default();
    for _ in 0..INSTANCES {
        let words = generator::draw_instance(&mut rng);
        compare::compare(words.list(), &mut rng, &mut counts);
    }
    rt.print(counts)
}
