// The listing of a plan.
ghost use Rattle.std.specs.Prelude.{◌≡◌, length};
ghost use Rattle.instance.specs.Held.{Sound, problem_in};
ghost use Rattle.instance.specs.Node.{task_count};
ghost use Rattle.prices.specs.Prices.{price_of};
ghost use Rattle.tables.specs.Tables.{table_size};
ghost use Rattle.listing_lines.specs.ListingLines.{plan_lines};
ghost use Rattle.listing_lines.specs.Placing.{Room, Put};

use crate::bytes::Lines;
use instance::Instance;
use prices::Price;

// Puts the lines of a plan at a position of the buffer, and answers the position after them.
pub fn put_plan(
    out: &mut [u8],
    at: usize,
    inst: Instance,
    price: Price,
    plan: &[u32],
    table: &[u8],
) -> usize
    requires sound { Sound inst }
    requires price_value { price ≡ price_of (problem_in inst) plan.now }
    requires plan_len { length plan.now ≡ task_count (problem_in inst) }
    requires table_len { length table.now ≡ table_size (problem_in inst) }
    requires room { Room out.old at (plan_lines (problem_in inst) plan.now table.now) }
    ensures { Put out.old at (plan_lines (problem_in inst) plan.now table.now) out.new result }
{
    let mut lines = Lines { out, at };
    lines.span(inst.span as u64);
    lines.cost(price);
    lines.tasks(inst, plan);
    lines.cores(inst, table);
    lines.at
}
