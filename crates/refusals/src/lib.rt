// Why a call or a record is refused: document 01, "Refusal numbers". A refusal changes neither the round nor a lent buffer.
#![tactic(auto)]

ghost use Rattle.std.specs.Prelude.{◌≡◌};
ghost use Rattle.refusals.specs.Number.{number};

use std::fmt;

// By its number; docs/RULES.md says when exactly each is given.
#[derive(Clone, Copy, Debug, PartialEq, Eq)]
pub enum Refusal {
    VoterList = 1,
    WeightOverflow = 2,
    NoWeight = 3,
    TooManyVoters = 4,
    KnownBlock = 5,
    UnknownParent = 6,
    NumberOverflow = 7,
    TableFull = 8,
    Misshapen = 9,
    UnknownBase = 10,
    UnknownTarget = 11,
    WrongNumber = 12,
    OffTheBase = 13,
    ShortBuffer = 14,
    NothingFinal = 15,
    UnlikeViews = 16,
    UnknownMark = 17,
    OutOfTurn = 18,
}

impl Refusal {
    // The number that a journal's report prints, and that a caller from C gets.
    pub fn number(self) -> u8
        ensures { result ≡ number self }
    {
        self as u8
    }
}

impl fmt::Display for Refusal {
    fn fmt<W: fmt::Write>(&self, f: &mut fmt::Formatter<W>) -> fmt::Result {
        write!(f, "refused {}", self.number())
    }
}
