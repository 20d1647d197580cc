// The refusals of the papers, each with its number and its place, and the verdict of a test.
#![tactic(auto)]

// Why an input is turned down, a case for each row of document 01's table of refusals and each number of document 02, with its
// place.
#[derive(Clone, Copy)]
pub enum Refusal {
    Text(usize),
    WordCount(usize),
    WordRange(usize),
    SpanTooLong(usize),
    NoPlan,
    ShortBuffer(usize),
    GivenPlan(usize),
    CoreOverloaded(usize),
    GivenTable(usize),
    JobSlots(usize),
    SwitchingWord(usize),
    CoreOrState,
    EarlyEnd,
    CalendarDate(usize),
    NoSuchQuestion,
}

// What a test answers: that it is passed, or why not.
pub type Verdict = Result<(), Refusal>;

impl Refusal {
    ghost use Rattle.std.specs.Prelude.{◌≡◌};
    ghost use Rattle.refusals.specs.Refusals.{number_of, place_of};

    // The number that the paper gives a refusal.
    pub fn number(self) -> u64
        ensures { result ≡ number_of self }
    {
        match self {
            Refusal::Text(_) => 1,
            Refusal::WordCount(_) => 2,
            Refusal::WordRange(_) => 3,
            Refusal::SpanTooLong(_) => 4,
            Refusal::NoPlan => 5,
            Refusal::ShortBuffer(_) => 6,
            Refusal::GivenPlan(_) => 7,
            Refusal::CoreOverloaded(_) => 8,
            Refusal::GivenTable(_) => 9,
            Refusal::JobSlots(_) => 10,
            Refusal::SwitchingWord(_) => 11,
            Refusal::CoreOrState => 12,
            Refusal::EarlyEnd => 13,
            Refusal::CalendarDate(_) => 17,
            Refusal::NoSuchQuestion => 18,
        }
    }

    // The place that is returned with a refusal.
    pub fn place(self) -> u64
        ensures { result ≡ place_of self }
    {
        match self {
            Refusal::Text(place)
            | Refusal::WordCount(place)
            | Refusal::WordRange(place)
            | Refusal::SpanTooLong(place)
            | Refusal::ShortBuffer(place)
            | Refusal::GivenPlan(place)
            | Refusal::CoreOverloaded(place)
            | Refusal::GivenTable(place)
            | Refusal::JobSlots(place)
            | Refusal::SwitchingWord(place)
            | Refusal::CalendarDate(place) => place as u64,
            Refusal::NoPlan | Refusal::CoreOrState | Refusal::EarlyEnd | Refusal::NoSuchQuestion =>
                0,
        }
    }
}
