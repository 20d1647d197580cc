// Every plan is priced, in choice order, and the first of least cost is kept.
ghost use Rattle.std.specs.Prelude.{◌≡◌, ◌≤◌, IfOk, length};

use crate::fits::unfit_core;
use crate::site::{Site, site_of};
use crate::tried::Tried;
use instance::Instance;
use ranges::Slot;
use refusals::Refusal;

const MOST_TASKS: usize = ranges::MOST_TASKS as usize;

// More than the plans of four tasks on three cores with four levels, which are 13 * 13 * 13 * 13.
const MOST_PLANS: u64 = 30_000;

// Prices one more plan, that comes later in choice order; the first of least cost stands in `best`. A plan that pricing finds to
// fit is taken where it fits tick by tick; where pricing finds a core that does not fit, it is the lowest tick by tick too.
fn try_plan(words: &[u32], inst: &Instance, choices: &[u32], best: &mut [u32], so_far: &mut Tried)
    requires alike { length best.now ≡ length choices.now }
    requires few { length choices.now ≤ 12 }
{
    match prices::price(words, choices) {
        Ok(price) => {
            if unfit_core(inst, choices).is_some() {
                so_far.count_other_fit();
            } else if so_far.count_price(price) {
                best.copy_from_slice(choices);
            }
        }
        Err(Refusal::CoreOverloaded(core)) => {
            if unfit_core(inst, choices).is_none_or(|lowest| lowest as usize != core) {
                so_far.count_other_fit();
            }
        }
        Err(_) => {}
    }
}

// Steps to the next plan in choice order, the last choice the fastest; false after the last plan.
fn step(choices: &mut [u32], most: u32) -> bool {
    for choice in choices.iter_mut().rev() {
        if *choice < most {
            *choice += 1;
            return true;
        }
        *choice = 0;
    }
    false
}

fn try_all(words: &[u32], inst: &Instance, most: u32, plan: &mut [u32]) -> Tried
    requires { length plan.now ≤ 12 }
{
    let mut so_far = Tried::none();
    let mut all = [0; MOST_TASKS];
    let choices = &mut all[..plan.len()];
    for tried in 1..=MOST_PLANS {
        try_plan(words, inst, choices, plan, &mut so_far);
        so_far.tried = tried;
        if !step(choices, most) {
            so_far.complete = true;
            break;
        }
    }
    so_far
}

// The sizes of an instance that is not refused before it is planned into so much room.
fn site_with_room(words: &[u32], plan_room: usize, table_room: usize) -> Result<Site, Refusal>
    ensures lent { IfOk result (λ site. site.tasks ≤ plan_room) }
    ensures few { IfOk result (λ site. site.tasks ≤ 12) }
{
    let site = site_of(words)?;
    if plan_room.min(MOST_TASKS) < site.tasks {
        return Err(Refusal::ShortBuffer(site.tasks));
    }
    if table_room < site.slots {
        return Err(Refusal::ShortBuffer(site.slots));
    }
    Ok(site)
}

// Plans into lent buffers.
pub fn plan(words: &[u32], plan: &mut [u32], table: &mut [Slot]) -> Tried {
    match site_with_room(words, plan.len(), table.len()) {
        Ok(site) => plan_site(words, site, &mut plan[..site.tasks], table),
        Err(why) => Tried::refused(why),
    }
}

fn plan_site(words: &[u32], site: Site, plan: &mut [u32], table: &mut [Slot]) -> Tried
    requires { length plan.now ≤ 12 }
{
    let inst = match instance::read_instance(words) {
        Ok(inst) => inst,
        Err(why) => return Tried::refused(why),
    };
    let tried = try_all(words, &inst, site.most, plan);
    if tried.answer.is_ok() {
        let _ = tables::tabulate(words, plan, table);
    }
    tried
}
