// Tables for plans that are drawn, and other tables for the plan that was answered. One that passes the check is a drawing,
// and no drawing is cheaper than the answered plan.
#![tactic(auto)]

use generator::tally::Counts;
use generator::{Generator, PLAN_ROOM, TABLE_ROOM, Table, fill_table};

// An instance of so many tasks, with the ticks of its span, the slots of a table and the largest choice of a plan; and what its
// answered plan costs, where there is one.
#[derive(Clone, Copy)]
pub struct Trials<'a> {
    pub words: &'a [u32],
    pub tasks: usize,
    pub span: u32,
    pub slots: usize,
    pub most: u32,
    pub least: Option<u64>,
}

impl Trials<'_> {
    fn passes_check(&self, plan: &[u32], table: &Table) -> bool {
        match table.get(..self.slots) {
            Some(rows) => checks::check_table(self.words, plan, rows).is_ok(),
            None => false,
        }
    }

    // Whether a table is not the plan's own.
    fn is_other(&self, plan: &[u32], table: &Table) -> bool {
        let mut own = [0; TABLE_ROOM];
        let _ = tables::tabulate(self.words, plan, &mut own);
        *table != own
    }

    // What a drawing's plan costs. Where no plan was answered, each is too cheap.
    fn count_price(&self, plan: &[u32], counts: &mut Counts) {
        match prices::price(self.words, plan) {
            Ok(price) => {
                let is_cheaper = self.least.is_none_or(|least| price.cost < least);
                counts.faults.cheaper_drawings.add_if(is_cheaper);
            }
            Err(_) => counts.faults.unfit_drawings.add(1),
        }
    }

    // Fills a table for a plan in some way, and has it checked.
    fn try_plan(&self, plan: &[u32], rng: &mut Generator, counts: &mut Counts) {
        let mut table = [0; TABLE_ROOM];
        fill_table(&mut table, self.words, self.span, plan, rng);
        counts.tables.tried.add(1);
        if self.passes_check(plan, &table) {
            counts.tables.drawings.add(1);
            counts
                .tables
                .other_drawings
                .add_if(self.is_other(plan, &table));
            self.count_price(plan, counts);
        }
    }

    // Draws a choice for each task.
    fn draw_plan(&self, plan: &mut [u32], rng: &mut Generator) {
        for choice in plan {
            *choice = rng.up_to(self.most.wrapping_add(1)).saturating_sub(1);
        }
    }

    // Tables for three plans drawn at random.
    pub fn try_drawn_plans(&self, rng: &mut Generator, counts: &mut Counts) {
        let mut choices = [0; PLAN_ROOM];
        for _ in 0..3 {
            if let Some(plan) = choices.get_mut(..self.tasks) {
                self.draw_plan(plan, rng);
                self.try_plan(plan, rng, counts);
            }
        }
    }

    // Two other tables for the plan that was answered, and whether its own fails the check.
    pub fn try_answered(
        &self,
        plan: &[u32],
        table: &Table,
        rng: &mut Generator,
        counts: &mut Counts,
    ) {
        let fails = !self.passes_check(plan, table);
        counts.faults.tables_fail.add_if(fails);
        for _ in 0..2 {
            self.try_plan(plan, rng, counts);
        }
    }
}
