// The deadlines section of a site file. Where it is absent, or counts 0, each task stays due when its period ends.
ghost use Rattle.std.specs.Prelude.{◌≡◌, length};
ghost use Rattle.formats.specs.Readers.{Takes, mapped};
ghost use Rattle.formats.specs.Taking.{take_word};
ghost use Rattle.instance.specs.Sections.{TasksHeld, DatesTasks, TakesDeadlines};
ghost use Rattle.instance.specs.SiteFile.{with_deadline, is_deadline_count};

use crate::Task;
use crate::tasks::Tasks;
use formats::WordReader;
use refusals::{Refusal, Verdict};

// The task, with the next word as its deadline.
fn deadline_next(words: &mut WordReader, task: Task) -> Result<Task, Refusal>
    ensures { Takes words.old (with_deadline task).take result words.new }
{
    let deadline = words.word(1, task.period)?;
    Ok(Task { deadline, ..task })
}

fn is_deadline_count(count: u32, tasks: u32) -> bool
    ensures { result ≡ is_deadline_count tasks count }
{
    count == 0 || count == tasks
}

// The section's count: 0, or the number of tasks.
fn deadline_count_next(words: &mut WordReader, tasks: u32) -> Result<u32, Refusal>
    ensures { Takes words.old (take_word (is_deadline_count tasks)) result words.new }
{
    let first = words.place();
    let count = words.word(0, tasks)?;
    if !is_deadline_count(count, tasks) {
        return Err(Refusal::WordRange(first));
    }
    Ok(count)
}

fn each_deadline_next(words: &mut WordReader, tasks: &mut [Task]) -> Verdict
    ensures { DatesTasks words.old tasks.old result words.new tasks.new }
{
    for task in tasks.iter_mut() {
        *task = deadline_next(words, *task)?;
    }
    Ok(())
}

// The tasks get their deadlines.
pub(crate) fn deadlines_next(words: &mut WordReader, tasks: &mut Tasks) -> Verdict
    requires { TasksHeld tasks.old.array tasks.old.count }
    ensures { TakesDeadlines words.old tasks.old result words.new tasks.new }
{
    if words.is_ended() {
        return Ok(());
    }
    let all = tasks.count;
    let count = deadline_count_next(words, all as u32)?;
    if count == 0 {
        return Ok(());
    }
    each_deadline_next(words, &mut tasks.array[..all])
}
