// The levels section of a site file: levels that each have more speed and more power than the one before.
ghost use Rattle.instance.specs.Sections.{LevelWithinLimits, TakesLevel, TakesLevels};

use crate::Level;
use formats::WordReader;
use refusals::Refusal;

// `count` levels stand at the front of the array, and the others are all zero.
#[derive(Clone, Copy)]
pub(crate) struct Levels {
    pub(crate) count: usize,
    pub(crate) array: [Level; ranges::MOST_LEVELS as usize],
}

// The level after `before`.
fn level_next(words: &mut WordReader, before: Level) -> Result<Level, Refusal>
    requires { LevelWithinLimits before }
    ensures { TakesLevel words.old before result words.new }
{
    let speed = words.word(before.speed + 1, ranges::MOST_SPEED)?;
    let power = words.word(before.power + 1, ranges::MOST_POWER)?;
    Ok(Level { speed, power })
}

pub(crate) fn levels_next(words: &mut WordReader) -> Result<Levels, Refusal>
    ensures { TakesLevels words.old result words.new }
{
    let count = words.word(1, ranges::MOST_LEVELS)? as usize;
    let mut array = [Level { speed: 0, power: 0 }; ranges::MOST_LEVELS as usize];
    let mut before = Level { speed: 0, power: 0 };
    for i in 0..count {
        before = level_next(words, before)?;
        array[i] = before;
    }
    Ok(Levels { count, array })
}
