// From the words of a site file to the instance that they are.
ghost use Rattle.std.specs.Prelude.{◌≡◌};
ghost use Rattle.formats.specs.Readers.{Takes};
ghost use Rattle.instance.specs.Outcomes.{instance_outcome, ReadingEnds};
ghost use Rattle.instance.specs.SiteFile.{setting_from, settings};

use crate::deadlines::deadlines_next;
use crate::levels::levels_next;
use crate::tasks::tasks_next;
use crate::{Instance, Weights};
use formats::WordReader;
use refusals::Refusal;

#[derive(Clone, Copy)]
struct Settings {
    weights: Weights,
    cores: u32,
    idle: u32,
    start: u32,
}

// A setting of 0 to `most`, a word only where the settings count `from` or more; else 0.
fn setting_next(words: &mut WordReader, count: u32, from: u32, most: u32) -> Result<u32, Refusal>
    ensures { Takes words.old (setting_from from most count).take result words.new }
{
    if from <= count {
        return words.word(0, most);
    }
    Ok(0)
}

fn settings_next(words: &mut WordReader) -> Result<Settings, Refusal>
    ensures { Takes words.old settings.take result words.new }
{
    let count = words.word(ranges::SETTINGS_WITHOUT_IDLE, ranges::SETTINGS_WITH_START)?;
    let energy = words.word(1, ranges::MOST_WEIGHT)?;
    let penalty = words.word(1, ranges::MOST_WEIGHT)?;
    let cores = words.word(1, ranges::MOST_CORES)?;
    let idle = setting_next(
        words,
        count,
        ranges::SETTINGS_WITH_IDLE,
        ranges::MOST_IDLE_POWER,
    )?;
    let start = setting_next(
        words,
        count,
        ranges::SETTINGS_WITH_START,
        ranges::MOST_START_TICKS,
    )?;
    Ok(Settings {
        weights: Weights { energy, penalty },
        cores,
        idle,
        start,
    })
}

// The instance that the words are, or why they are none: the settings, the levels, the tasks, their
// deadlines where the list goes on, and nothing more.
pub fn read_instance(words: &[u32]) -> Result<Instance, Refusal>
    ensures value { result ≡ instance_outcome words.now }
    ensures promise { ReadingEnds words.now result }
{
    let mut reader = WordReader::new(words);
    let settings = settings_next(&mut reader)?;
    let levels = levels_next(&mut reader)?;
    let mut tasks = tasks_next(&mut reader)?;
    deadlines_next(&mut reader, &mut tasks)?;
    reader.end()?;
    let weights = settings.weights;
    let levelarray = levels.array;
    let taskarray = tasks.array;
    let instance = Instance {
        weights,
        cores: settings.cores,
        idle: settings.idle,
        start: settings.start,
        levelcount: levels.count,
        levels: levelarray,
        taskcount: tasks.count,
        tasks: taskarray,
        span: tasks.span,
    };
    Ok(instance)
}
