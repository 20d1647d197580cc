// The tasks section of a site file, and the span of the tasks.
ghost use Rattle.std.specs.Prelude.{◌≡◌};
ghost use Rattle.formats.specs.Readers.{Takes};
ghost use Rattle.formats.specs.Taking.{take_word};
ghost use Rattle.instance.specs.Sections.{SpanWithinLimits, TakesTask, TakesTasks};
ghost use Rattle.instance.specs.SiteFile.{is_penalty};

use crate::Task;
use crate::multiples::least_common_multiple;
use formats::WordReader;
use refusals::Refusal;

// `count` tasks, of this span, stand at the front of the array, and the others are all zero.
#[derive(Clone, Copy)]
pub(crate) struct Tasks {
    pub(crate) count: usize,
    pub(crate) array: [Task; ranges::MOST_TASKS as usize],
    pub(crate) span: u32,
}

// The next penalty, that of a task that may not be refused included.
fn penalty_next(words: &mut WordReader) -> Result<u32, Refusal>
    ensures { Takes words.old (take_word is_penalty) result words.new }
{
    let first = words.place();
    let penalty = words.word(1, ranges::MAY_NOT_BE_REFUSED)?;
    if penalty == ranges::MAY_NOT_BE_REFUSED {
        return Ok(ranges::MAY_NOT_BE_REFUSED);
    }
    if ranges::MOST_PENALTY < penalty {
        return Err(Refusal::WordRange(first));
    }
    Ok(penalty)
}

// The next task, after tasks of this span, which becomes that of all.
fn task_next(words: &mut WordReader, span: &mut u32) -> Result<Task, Refusal>
    requires { SpanWithinLimits span.old }
    ensures { TakesTask words.old span.old result words.new span.new }
{
    let first = words.place();
    let period = words.word(1, ranges::MOST_PERIOD)?;
    let longer = least_common_multiple(*span, period);
    if ranges::MOST_SPAN < longer {
        return Err(Refusal::SpanTooLong(first));
    }
    let cycles = words.word(1, ranges::MOST_CYCLES)?;
    let penalty = penalty_next(words)?;
    *span = longer;
    Ok(Task {
        period,
        cycles,
        penalty,
        deadline: period,
    })
}

pub(crate) fn tasks_next(words: &mut WordReader) -> Result<Tasks, Refusal>
    ensures { TakesTasks words.old result words.new }
{
    let count = words.word(0, ranges::MOST_TASKS)? as usize;
    let mut array = [Task {
        period: 0,
        cycles: 0,
        penalty: 0,
        deadline: 0,
    }; ranges::MOST_TASKS as usize];
    let mut span = 1;
    for i in 0..count {
        array[i] = task_next(words, &mut span)?;
    }
    Ok(Tasks { count, array, span })
}
