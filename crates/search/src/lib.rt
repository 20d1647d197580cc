// The exact search for the cheapest plan, from the table of one core: the cost and the key of running each set of items on it.
// It knows nothing of loads or of a capacity.
#![tactic(auto)]

mod best;
mod plan;

ghost use Rattle.std.specs.Prelude.{◌≤◌, length};
ghost use Rattle.search.specs.Found.{Searched};
ghost use Rattle.search.specs.Limits.{SearchReady};

pub use best::least_of_table;
pub use plan::write_plan;

// How many items there are, and how many cores and levels for each.
#[derive(Clone, Copy)]
pub struct Shape {
    pub items: usize,
    pub cores: usize,
    pub levels: usize,
}

// Finds the cheapest plan, of equally cheap ones the first, writes its choices and answers its cost. None where no plan keeps every
// item that must be kept, with nothing on a core that it does not admit.
pub fn cheapest_plan(
    shape: Shape,
    refusal: &[u64],
    must: &[bool],
    corecosts: &[u64],
    corekeys: &[u64],
    plan: &mut [u32],
) -> Option<u64>
    requires search_ready { SearchReady shape refusal.now must.now corecosts.now corekeys.now }
    requires shape_in_bounds { shape.items ≤ length plan.old }
    ensures { Searched shape refusal.now must.now corecosts.now corekeys.now
        plan.old plan.new result }
{
    let best = least_of_table(shape, refusal, must, corecosts, corekeys, &mut []).found()?;
    write_plan(shape.items, best.key, plan);
    Some(best.cost)
}
