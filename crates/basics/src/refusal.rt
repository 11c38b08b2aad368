// Why a call refuses what it is handed (Rules, Answers).
ghost use Rattle.std.specs.Prelude.{◌≡◌};
ghost use Rattle.basics.specs.Refusal.{number_of, answer_of};

// The refusals, in the order of their numbers.
#[derive(Clone, Copy, PartialEq, Eq, PartialOrd, Ord)]
pub enum Refusal {
    Grid,
    BoxCount,
    SplitColour,
    WeightCount,
    Length,
    Unsound,
    TooHeavy,
    NoWeight,
    MapEntry,
    Header,
    Maximum,
    PixelCount,
    Interval,
    NotInForce,
    TooHeavyNarrow,
}

impl Refusal {
    // Its number.
    pub fn number(self) -> u8
        ensures { result ≡ number_of self }
    {
        match self {
            Refusal::Grid => 1,
            Refusal::BoxCount => 2,
            Refusal::SplitColour => 3,
            Refusal::WeightCount => 4,
            Refusal::Length => 5,
            Refusal::Unsound => 6,
            Refusal::TooHeavy => 7,
            Refusal::NoWeight => 8,
            Refusal::MapEntry => 9,
            Refusal::Header => 10,
            Refusal::Maximum => 11,
            Refusal::PixelCount => 12,
            Refusal::Interval => 13,
            Refusal::NotInForce => 14,
            Refusal::TooHeavyNarrow => 15,
        }
    }
}

// The number that a caller is told: 0 where nothing was refused.
pub fn answer(done: Result<(), Refusal>) -> u8
    ensures { result ≡ answer_of done }
{
    match done {
        Ok(()) => 0,
        Err(refusal) => refusal.number(),
    }
}
