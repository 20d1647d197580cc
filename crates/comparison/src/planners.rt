// Both planners, each with buffers of its own.
ghost use Rattle.std.specs.Prelude.{◌≤◌};

use exhaustive::{Site, Tried};
use generator::tally::{Counts, Faults};
use generator::{Choices, Generator, PLAN_ROOM, TABLE_ROOM, Table, draw_room};
use prices::Price;
use ranges::Slot;
use refusals::Refusal;

pub(crate) type Answer = Result<Price, Refusal>;

// How many elements of each buffer are lent.
#[derive(Clone, Copy)]
pub(crate) struct Rooms {
    plan: usize,
    table: usize,
    ghost plan_fits: { plan ≤ 12 },
    ghost table_fits: { table ≤ 128 },
}

impl Rooms {
    pub(crate) fn all() -> Rooms {
        Rooms {
            plan: PLAN_ROOM,
            table: TABLE_ROOM,
        }
    }

    // Room for what is planned at a site, or for nothing where it is refused.
    pub(crate) fn draw(site: Result<Site, Refusal>, rng: &mut Generator) -> Rooms {
        let (tasks, slots) = match site {
            Ok(site) => (site.tasks, site.slots),
            Err(_) => (0, 0),
        };
        let plan = draw_room(tasks, PLAN_ROOM, rng);
        let table = draw_room(slots, TABLE_ROOM, rng);
        Rooms { plan, table }
    }
}

// What a planner answers, and what it leaves in its buffers.
#[derive(Clone, Copy)]
pub(crate) struct Planned<A> {
    pub(crate) answer: A,
    pub(crate) plan: Choices,
    pub(crate) table: Table,
}

// Lends a planner so much of buffers that held numbers which no planner puts there.
fn plan_into<A, F: FnOnce(&[u32], &mut [u32], &mut [Slot]) -> A>(
    planner: F,
    words: &[u32],
    rooms: Rooms,
) -> Planned<A>
    requires { F.IsAlwaysCallable planner }
{
    let mut plan = [7_777_777; PLAN_ROOM];
    let mut table = [77; TABLE_ROOM];
    let answer = planner(words, &mut plan[..rooms.plan], &mut table[..rooms.table]);
    Planned {
        answer,
        plan,
        table,
    }
}

fn search(words: &[u32], plan: &mut [u32], table: &mut [Slot]) -> Answer {
    planner::plan(words, plan, table)
}

// By the planner that is compared.
pub(crate) fn plan_by_search(words: &[u32], rooms: Rooms) -> Planned<Answer> {
    plan_into(search, words, rooms)
}

fn count_tried(tried: Tried, counts: &mut Counts) {
    counts.plans.tried.add(tried.tried);
    counts.plans.priced.add(tried.priced);
    counts.plans.several_least.add_if(1 < tried.cheapest);
    counts.faults.plans_untried.add_if(!tried.complete);
    counts.faults.fits_differ.add(tried.fits_differ);
}

// A refusal's number and place, energy, penalty and cost: 0 for those that an answer of its kind lacks.
fn numbers_of(answer: Answer) -> [u64; 5] {
    match answer {
        Ok(price) => [0, 0, price.energy, price.penalty, price.cost],
        Err(why) => [why.number(), why.place(), 0, 0, 0],
    }
}

// The same of the planner that tries every plan. Of what it refuses an instance for by itself the numbers are written out, so that they
// are compared with the paper's.
fn numbers_of_trying(answer: Answer) -> [u64; 5] {
    match answer {
        Err(Refusal::NoPlan) => [5, 0, 0, 0, 0],
        Err(Refusal::ShortBuffer(needed)) => [6, needed as u64, 0, 0, 0],
        _ => numbers_of(answer),
    }
}

// Counts the numbers in which two answers differ, the second that of the planner that tries every plan.
fn count_differences(answer: Answer, own: Answer, faults: &mut Faults) {
    let [refusal, place, energy, penalty, cost] = numbers_of(answer);
    let [own_refusal, own_place, own_energy, own_penalty, own_cost] = numbers_of_trying(own);
    faults.refusals.add_if(refusal != own_refusal);
    faults.places.add_if(place != own_place);
    faults.energies.add_if(energy != own_energy);
    faults.penalties.add_if(penalty != own_penalty);
    faults.costs.add_if(cost != own_cost);
}

// Has the planner that tries every plan do the same, and counts what differs.
pub(crate) fn compare_with_trying(
    words: &[u32],
    rooms: Rooms,
    planned: &Planned<Answer>,
    counts: &mut Counts,
) {
    let own = plan_into(exhaustive::plan, words, rooms);
    counts.faults.plan_buffers.add_if(planned.plan != own.plan);
    counts
        .faults
        .table_buffers
        .add_if(planned.table != own.table);
    count_differences(planned.answer, own.answer.answer, &mut counts.faults);
    count_tried(own.answer, counts);
}
