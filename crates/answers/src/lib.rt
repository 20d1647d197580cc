// What the calls of a program in C return: the paper's numbers.
#![tactic(auto)]

ghost use Rattle.std.specs.Prelude.{◌≡◌, Ok, Err};
ghost use Rattle.instance.specs.Held.{Sound, problem_in};
ghost use Rattle.answers.specs.Answers.{site_of, planned_of, checked_of, listed_of, task_to_run_of, ruled_of};

use calendar::PlanDays;
use instance::Instance;
use prices::Price;
use refusals::{Refusal, Verdict};

// Reading: the refusal's number and place, both 0 where the text is an instance; and how large that is, all 0 where it is none.
#[repr(C)]
#[derive(Clone, Copy, Default)]
pub struct Site {
    pub refusal: u64,
    pub place: u64,
    pub tasks: u64,
    pub levels: u64,
    pub cores: u64,
    pub span: u64,
}

// Planning: the refusal's number and place, both 0 where there is a plan; and what the plan comes to, all 0 where there is none.
#[repr(C)]
#[derive(Clone, Copy, Default)]
pub struct Planned {
    pub refusal: u64,
    pub place: u64,
    pub energy: u64,
    pub penalty: u64,
    pub cost: u64,
}

// Checking: the refusal's number and place, both 0 where the table passes.
#[repr(C)]
#[derive(Clone, Copy, Default)]
pub struct Checked {
    pub refusal: u64,
    pub place: u64,
}

// Listing: the refusal's number and place, both 0 where there is a listing; and how many bytes it has, 0 where there is none.
#[repr(C)]
#[derive(Clone, Copy, Default)]
pub struct Listed {
    pub refusal: u64,
    pub place: u64,
    pub length: u64,
}

// Dispatching: the refusal's number and place, both 0 where the call is accepted; and the task to run, 0 for none.
#[repr(C)]
#[derive(Clone, Copy, Default)]
pub struct TaskToRun {
    pub refusal: u64,
    pub place: u64,
    pub task: u64,
}

// Asking a calendar: the refusal's number and place, both 0 where it is answered; and the plan that holds, 0 for none, with the days
// to the next entry, 0 where none follows; both 0 where it is refused.
#[repr(C)]
#[derive(Clone, Copy, Default)]
pub struct Ruled {
    pub refusal: u64,
    pub place: u64,
    pub plan: u64,
    pub days: u64,
}

pub fn no_site(refusal: Refusal) -> Site
    ensures { result ≡ site_of (Err refusal) }
{
    Site {
        refusal: refusal.number(),
        place: refusal.place(),
        ..Site::default()
    }
}

pub fn site_of(inst: Instance) -> Site
    requires { Sound inst }
    ensures { result ≡ site_of (Ok (problem_in inst)) }
{
    Site {
        tasks: inst.taskcount as u64,
        levels: inst.levelcount as u64,
        cores: inst.cores as u64,
        span: inst.span as u64,
        ..Site::default()
    }
}

pub fn planned_of(priced: Result<Price, Refusal>) -> Planned
    ensures { result ≡ planned_of priced }
{
    match priced {
        Ok(price) => Planned {
            energy: price.energy,
            penalty: price.penalty,
            cost: price.cost,
            ..Planned::default()
        },
        Err(refusal) => Planned {
            refusal: refusal.number(),
            place: refusal.place(),
            ..Planned::default()
        },
    }
}

pub fn checked_of(verdict: Verdict) -> Checked
    ensures { result ≡ checked_of verdict }
{
    match verdict {
        Ok(()) => Checked::default(),
        Err(refusal) => Checked {
            refusal: refusal.number(),
            place: refusal.place(),
        },
    }
}

pub fn listed_of(listed: Result<usize, Refusal>) -> Listed
    ensures { result ≡ listed_of listed }
{
    match listed {
        Ok(n) => Listed {
            length: n as u64,
            ..Listed::default()
        },
        Err(refusal) => Listed {
            refusal: refusal.number(),
            place: refusal.place(),
            ..Listed::default()
        },
    }
}

pub fn task_to_run(verdict: Verdict, task: u32) -> TaskToRun
    ensures { result ≡ task_to_run_of verdict task }
{
    let Checked { refusal, place } = checked_of(verdict);
    TaskToRun {
        refusal,
        place,
        task: task as u64,
    }
}

pub fn ruled_of(answer: Result<PlanDays, Refusal>) -> Ruled
    ensures { result ≡ ruled_of answer }
{
    match answer {
        Ok(ruling) => Ruled {
            plan: ruling.plan as u64,
            days: ruling.days as u64,
            ..Ruled::default()
        },
        Err(refusal) => Ruled {
            refusal: refusal.number(),
            place: refusal.place(),
            ..Ruled::default()
        },
    }
}
