//! The table of refusals, and what a public call replies.
ghost use Rattle.std.specs.Prelude.{◌≡◌};
ghost use Rattle.bounds.specs.Refusal.{number_of};

use channel::answer::Answer;

/// Why a call is refused. The variant's number is the table's.
#[derive(Clone, Copy, Debug, PartialEq, Eq)]
pub enum Refusal {
    OutOfForm = 1,
    Capacity = 2,
    ThreadCount = 3,
    NoSuchThread = 4,
    NotIdle = 5,
    NotRunning = 6,
    UnknownCall = 7,
    StepLimit = 8,
    ClockLimit = 9,
    NoAnswer = 10,
    Malformed = 11,
    NoChannel = 12,
    TooLong = 13,
    NoExchange = 14,
}

/// What a public call replies: accepted, with the answer where it was a take, or why it is refused.
pub type Reply = Result<Option<Answer>, Refusal>;

impl Refusal {
    /// The table's number of the refusal, 1 to 14.
    pub fn number(self) -> u8
        ensures { result ≡ number_of self }
    {
        self as u8
    }
}
