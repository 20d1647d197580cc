// Has both planners plan an instance, compares what they answer and what they leave in the buffers, and looks at the answer.
use crate::planners::{Answer, Planned, Rooms, compare_with_trying, plan_by_search};
use exhaustive::{Site, site_of};
use generator::tally::{Counts, Drawn, Plans};
use generator::{
    Choices, Generator, Table, count_deadlines, count_idle, count_start, end_of_tasks,
    has_early_deadlines, has_full_row, uses_other_cores,
};
use prices::Price;
use refusals::Refusal;
use trials::Trials;

// What kind of plan it is: which cores are used, by the table, and which tasks are kept or refused, by the price.
fn count_plan(site: Site, price: Price, table: &Table, plans: &mut Plans) {
    let span = site.span as usize;
    if let Some(rows) = table.get(..site.slots) {
        plans.other_cores.add_if(uses_other_cores(rows, span));
        plans.full_rows.add_if(has_full_row(rows, span));
    }
    let has_tasks = 0 < site.tasks;
    plans.keeping_all.add_if(has_tasks && price.penalty == 0);
    plans.refusing_all.add_if(has_tasks && price.energy == 0);
}

// Whether the plan is another where the list ends after the tasks, in a buffer that held the same.
fn differs_without_deadlines(words: &[u32], plan: &Choices) -> bool {
    match words.get(..end_of_tasks(words)) {
        Some(list) => *plan != plan_by_search(list, Rooms::all()).plan,
        None => false,
    }
}

// What was planned: whether idle power, start ticks and early deadlines were given.
fn count_planned(words: &[u32], price: Price, plan: &Choices, drawn: &mut Drawn) {
    drawn.planned.add(1);
    count_idle(words, drawn);
    count_start(words, price.energy, drawn);
    if has_early_deadlines(words) {
        count_deadlines(words, drawn);
        drawn
            .deadlines_decide
            .add_if(differs_without_deadlines(words, plan));
    }
}

fn count_refused(why: Refusal, drawn: &mut Drawn) {
    match why {
        Refusal::WordCount(_) => drawn.word_counts.add(1),
        Refusal::WordRange(_) => drawn.word_ranges.add(1),
        Refusal::SpanTooLong(_) => drawn.long_spans.add(1),
        Refusal::NoPlan => drawn.no_plans.add(1),
        Refusal::ShortBuffer(_) => drawn.short_buffers.add(1),
        _ => {}
    }
}

// A plan's table passes the check, and no drawing is cheaper. Where there is no plan, there is no drawing either.
fn look_at_tables(
    words: &[u32],
    site: Site,
    planned: &Planned<Answer>,
    rng: &mut Generator,
    counts: &mut Counts,
) {
    let trials = Trials {
        words,
        tasks: site.tasks,
        span: site.span,
        slots: site.slots,
        most: site.most,
        least: planned.answer.ok().map(|price| price.cost),
    };
    match planned.answer {
        Ok(_) => {
            if let Some(plan) = planned.plan.get(..site.tasks) {
                trials.try_answered(plan, &planned.table, rng, counts);
            }
            trials.try_drawn_plans(rng, counts);
        }
        Err(Refusal::NoPlan) => trials.try_drawn_plans(rng, counts),
        Err(_) => {}
    }
}

pub(crate) fn compare(words: &[u32], rng: &mut Generator, counts: &mut Counts) {
    let site = site_of(words);
    let rooms = Rooms::draw(site, rng);
    let planned = plan_by_search(words, rooms);
    counts.drawn.instances.add(1);
    compare_with_trying(words, rooms, &planned, counts);
    match planned.answer {
        Ok(price) => count_planned(words, price, &planned.plan, &mut counts.drawn),
        Err(why) => count_refused(why, &mut counts.drawn),
    }
    if let Ok(site) = site {
        if let Ok(price) = planned.answer {
            count_plan(site, price, &planned.table, &mut counts.plans);
        }
        look_at_tables(words, site, &planned, rng, counts);
    }
}
