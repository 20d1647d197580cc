// The numbers of the papers that inputs are tested against, each once: the ranges of document 01's section 'Site file', and of
// document 02 (a), (b), (g) and (m), and the largest span. And what follows from them.
#![tactic(auto)]

pub const MOST_TEXT_BYTES: u32 = 4_096;

// Two numbers are parted by a byte.
pub const MOST_TEXT_WORDS: u32 = (MOST_TEXT_BYTES + 1) / 2;

pub const SETTINGS_WITHOUT_IDLE: u32 = 3;

pub const SETTINGS_WITH_IDLE: u32 = 4;

pub const SETTINGS_WITH_START: u32 = 5;

pub const MOST_WEIGHT: u32 = 1_000;

pub const MOST_CORES: u32 = 4;

pub const MOST_IDLE_POWER: u32 = 65_535;

pub const MOST_START_TICKS: u32 = 1_000;

pub const MOST_LEVELS: u32 = 8;

pub const MOST_SPEED: u32 = 65_535;

pub const MOST_POWER: u32 = 65_535;

pub const MOST_TASKS: u32 = 12;

pub const MOST_PERIOD: u32 = 4_096;

pub const MOST_CYCLES: u32 = 100_000_000;

pub const MOST_PENALTY: u32 = 1_000_000;

pub const MAY_NOT_BE_REFUSED: u32 = 4_294_967_295;

pub const MOST_SPAN: u32 = 4_096;

pub const MOST_SWITCHING_ENERGY: u32 = 1_000_000;

pub const MOST_SWITCHING_TIME: u32 = 4_096;

pub const MOST_ENTRIES: u32 = 200;

pub const FIRST_YEAR: u32 = 2_000;

pub const LAST_YEAR: u32 = 2_099;

pub const MONTHS: u32 = 12;

pub const MOST_DAY: u32 = 31;

pub const DAY_MINUTES: u32 = 1_440;

pub const MOST_PLAN_NUMBER: u32 = 255;

// The slots of the largest table.
pub const MOST_TABLE: u32 = MOST_CORES * MOST_SPAN;

// A slot of a table: a task's number, or 0 for idle.
pub type Slot = u8;
