// What is counted of the instances, plans and tables that are drawn, and how it is printed.
ghost use Rattle.std.specs.Prelude.{◌≡◌, ◌+◌, ◌%◌, ◌^◌, cond};

use std::fmt;

// How often something was seen.
#[derive(Clone, Copy, Default)]
pub struct Count(pub u64);

impl Count {
    pub fn add(&mut self, n: u64)
        ensures { self.new.0 ≡ (self.old.0 + n) % 2 ^ 64 }
    {
        self.0 = self.0.wrapping_add(n);
    }

    pub fn add_if(&mut self, holds: bool)
        ensures { self.new.0 ≡ (self.old.0 + cond holds 1 0) % 2 ^ 64 }
    {
        self.add(u64::from(holds));
    }
}

// The instances that were drawn, and what kind they are of.
#[derive(Clone, Copy, Default)]
pub struct Drawn {
    pub instances: Count,
    pub planned: Count,
    // Refused with 2 to 6.
    pub word_counts: Count,
    pub word_ranges: Count,
    pub long_spans: Count,
    pub no_plans: Count,
    pub short_buffers: Count,
    // What was planned with settings that count 4 or 5, and of that what has idle power above 0 and below every level's power, and
    // what has it above every level's.
    pub idle_given: Count,
    pub idle_below_levels: Count,
    pub idle_above_levels: Count,
    // What was planned with settings that count 5, and of that what has start ticks above 0 and keeps a task, and what has them and
    // keeps none.
    pub start_given: Count,
    pub start_and_kept: Count,
    pub start_and_refused: Count,
    // What was planned with a deadline before its period's end; and of that what has one below a job's ticks at the lowest level,
    // or at every level, though these are within the period, and what has another plan without the deadlines.
    pub early_deadlines: Count,
    pub early_for_lowest_level: Count,
    pub early_for_every_level: Count,
    pub deadlines_decide: Count,
}

// The plans that the second planner tried, and what the answered ones are like.
#[derive(Clone, Copy, Default)]
pub struct Plans {
    pub tried: Count,
    pub priced: Count,
    pub several_least: Count,
    pub keeping_all: Count,
    pub refusing_all: Count,
    pub other_cores: Count,
    pub full_rows: Count,
}

// The tables that were drawn.
#[derive(Clone, Copy, Default)]
pub struct Tables {
    pub tried: Count,
    pub drawings: Count,
    pub other_drawings: Count,
}

// What may never be seen.
#[derive(Clone, Copy, Default)]
pub struct Faults {
    pub plans_untried: Count,
    pub fits_differ: Count,
    // The numbers in which two answers differ.
    pub refusals: Count,
    pub places: Count,
    pub energies: Count,
    pub penalties: Count,
    pub costs: Count,
    pub plan_buffers: Count,
    pub table_buffers: Count,
    pub tables_fail: Count,
    pub unfit_drawings: Count,
    pub cheaper_drawings: Count,
}

#[derive(Clone, Copy, Default)]
pub struct Counts {
    pub drawn: Drawn,
    pub plans: Plans,
    pub tables: Tables,
    pub faults: Faults,
}

impl fmt::Display for Count {
    fn fmt<W: fmt::Write>(&self, f: &mut fmt::Formatter<W>) -> fmt::Result {
        write!(f, "{}", self.0)
    }
}

impl fmt::Display for Drawn {
    fn fmt<W: fmt::Write>(&self, f: &mut fmt::Formatter<W>) -> fmt::Result {
        let lines = [
            (self.instances, "instances"),
            (self.planned, "planned"),
            (self.word_counts, "refused with 2"),
            (self.word_ranges, "refused with 3"),
            (self.long_spans, "refused with 4"),
            (self.no_plans, "refused with 5, no plan"),
            (self.short_buffers, "refused with 6, a short buffer"),
            (self.idle_given, "planned with settings that count 4 or 5"),
            (
                self.idle_below_levels,
                "of them with idle power below every level's power, but not 0",
            ),
            (
                self.idle_above_levels,
                "of them with idle power above every level's power",
            ),
            (self.start_given, "planned with settings that count 5"),
            (
                self.start_and_kept,
                "of them with start ticks and a kept task",
            ),
            (
                self.start_and_refused,
                "of them with start ticks and no kept task",
            ),
            (
                self.early_deadlines,
                "planned with a deadline before its period's end",
            ),
            (
                self.early_for_lowest_level,
                "of them with a deadline below a job's ticks at the lowest level",
            ),
            (
                self.early_for_every_level,
                "of them with a deadline below a job's ticks at every level",
            ),
            (
                self.deadlines_decide,
                "of them with another plan without the deadlines",
            ),
        ];
        write_lines(f, "drawn", &lines)
    }
}

impl fmt::Display for Plans {
    fn fmt<W: fmt::Write>(&self, f: &mut fmt::Formatter<W>) -> fmt::Result {
        let lines = [
            (self.tried, "tried"),
            (self.priced, "of them not refused"),
            (self.several_least, "instances with several of least cost"),
            (self.keeping_all, "answered that keep all tasks"),
            (self.refusing_all, "answered that refuse all tasks"),
            (self.other_cores, "answered that use another core than 1"),
            (self.full_rows, "answered with a core that is never idle"),
        ];
        write_lines(f, "plans", &lines)
    }
}

impl fmt::Display for Tables {
    fn fmt<W: fmt::Write>(&self, f: &mut fmt::Formatter<W>) -> fmt::Result {
        let lines = [
            (self.tried, "tried"),
            (self.drawings, "of them pass the check"),
            (
                self.other_drawings,
                "of these are not earliest deadline first",
            ),
        ];
        write_lines(f, "other tables", &lines)
    }
}

impl fmt::Display for Faults {
    fn fmt<W: fmt::Write>(&self, f: &mut fmt::Formatter<W>) -> fmt::Result {
        let lines = [
            (self.plans_untried, "instances with plans left untried"),
            (
                self.fits_differ,
                "plans of which pricing finds another core not to fit",
            ),
            (self.refusals, "refusals differ"),
            (self.places, "places differ"),
            (self.energies, "energies differ"),
            (self.penalties, "penalties differ"),
            (self.costs, "costs differ"),
            (self.plan_buffers, "plan buffers differ"),
            (self.table_buffers, "table buffers differ"),
            (self.tables_fail, "answered tables fail the check"),
            (
                self.unfit_drawings,
                "other tables pass the check for a plan that does not fit",
            ),
            (
                self.cheaper_drawings,
                "other tables pass the check and are cheaper",
            ),
        ];
        write_lines(f, "must all be 0", &lines)
    }
}

// Every count with its name, a line for each.
impl fmt::Display for Counts {
    fn fmt<W: fmt::Write>(&self, f: &mut fmt::Formatter<W>) -> fmt::Result {
        write!(
            f,
            "{}{}{}{}",
            self.drawn, self.plans, self.tables, self.faults
        )
    }
}

// A heading, and each count with its name.
fn write_lines<W: fmt::Write>(
    f: &mut fmt::Formatter<W>,
    heading: &str,
    lines: &[(Count, &str)],
) -> fmt::Result {
    writeln!(f, "-- {heading}")?;
    for (count, name) in lines {
        writeln!(f, "{count} {name}")?;
    }
    Ok(())
}
