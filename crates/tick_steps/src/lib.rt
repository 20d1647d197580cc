// What a tick asks of one task: whether its job is released or has ended, the ticks that it has left, when it is due, and whether it is
// chosen before another; and which tick comes next.
#![tactic(auto)]

ghost use Rattle.std.specs.Prelude.{cond, ◌&&◌, ◌≡◌, suc, ◌+◌, ◌*◌, ◌/◌, ◌%◌, ◌<◌, eqb};
ghost use Rattle.tick_steps.specs.Choosing.{Earlier};

// The column of a task that is chosen, and the tick at which it is due.
#[derive(Clone, Copy)]
pub struct Best {
    pub column: usize,
    pub due: u64,
}

// The better of a choice, where there is one yet, and one more task.
pub fn earlier(best: Option<Best>, column: usize, left: u32, due: u64) -> Option<Best>
    ensures { Earlier best column left due result }
{
    if left == 0 {
        return best;
    }
    match best {
        Some(before) if before.due <= due => best,
        _ => Some(Best { column, due }),
    }
}

// The due tick of a task's job that was released last by this tick.
pub fn due_at(period: u32, window: u32, tick: u32) -> u64
    requires { 0 < period }
    ensures { result ≡ tick / period * period + window }
{
    (tick / period * period) as u64 + window as u64
}

pub fn is_released(period: u32, tick: u32) -> bool
    requires { 0 < period }
    ensures { result ≡ eqb (tick % period) 0 }
{
    tick % period == 0
}

// Whether it is reported that the job of this task, which ran in the tick before, has ended early.
pub fn is_over(number: u32, last: u32, ended: bool) -> bool
    ensures { result ≡ (ended && eqb number last) }
{
    ended && number == last
}

// The ticks left of a task: an early end leaves none, and then a job that is released has all of its own.
pub fn ready_ticks(released: bool, over: bool, ticks: u32, left: u32) -> u32
    ensures { result ≡ cond released ticks (cond over 0 left) }
{
    if released {
        return ticks;
    }
    if over {
        return 0;
    }
    left
}

// The tick after this one.
#[tactic(auto, using(std::proofs::lemmas::Bool::Decides::nat_tests))]
pub fn next_tick(tick: u32, span: u32) -> u32
    requires { tick < span }
    ensures { result ≡ cond (eqb (suc tick) span) 0 (suc tick) }
{
    let next = tick + 1;
    if next == span {
        return 0;
    }
    next
}
