// Why a call refuses, by the numbers of docs/TERMS.md's table, and how many points a list has at most. What is refused is an `Err` with the
// reason.
ghost use Rattle.std.specs.Prelude.{◌≡◌};
ghost use Rattle.arcstring_check.specs.Answer.{refusal_number};

// How many points a list has at most, and how many floats these are.
pub const MOST_POINTS: usize = 1024;

pub const MOST_FLOATS: usize = 3 * MOST_POINTS;

// Why a call says no. `refusal_number` of specs/Answer.antt gives the number of each.
#[derive(Clone, Copy, Debug, PartialEq, Eq)]
pub enum Refusal {
    NotTriples,
    TooFewPoints,
    TooManyPoints,
    OutOfRange,
    RemovesPastEnd,
    ReadsPastEnd,
    NoRoom,
    MarginOutOfRange,
    BuoysNotAsMany,
}

// The number of a refusal.
impl From<Refusal> for u32 {
    ghost from_gives = { λ e n. n ≡ refusal_number e };

    fn from(e: Refusal) -> u32 {
        match e {
            Refusal::NotTriples => 1,
            Refusal::TooFewPoints => 2,
            Refusal::TooManyPoints => 3,
            Refusal::OutOfRange => 4,
            Refusal::RemovesPastEnd => 5,
            Refusal::ReadsPastEnd => 6,
            Refusal::NoRoom => 7,
            Refusal::MarginOutOfRange => 9,
            Refusal::BuoysNotAsMany => 10,
        }
    }
}
