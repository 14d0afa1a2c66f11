//! What an accepted call leaves of its thread's place, of the clock and of the steps. The record and the replay write it back.
ghost use Rattle.std.specs.Prelude.{◌≡◌, ◌<◌};
ghost use Rattle.channel.specs.Answer.{ticks};
ghost use Rattle.bounds.specs.Limits.{step_limit, one_more};
ghost use Rattle.turns.specs.Turn.{counts_of, stepped_with, stands, begun_with, failed_with, advanced_with, taken_with};

use bounds::limits;
use bounds::refusal::{Refusal, Reply};
use channel::answer::Tick;
use places::place::Place;

/// The clock, and the steps made so far.
#[derive(Clone, Copy, Debug, PartialEq, Eq)]
pub struct Counts {
    pub clock: Tick,
    pub steps: u32,
}

/// What an accepted call leaves: where its thread stands, the counts, and the reply, which of a take has the answer.
#[derive(Clone, Copy, Debug, PartialEq, Eq)]
pub struct Turned {
    pub place: Place,
    pub counts: Counts,
    pub reply: Reply,
}

impl Counts {
    /// The clock at 0, and no step made.
    pub fn new() -> Counts
        ensures { result ≡ counts_of (ticks 0) 0 }
    {
        Counts {
            clock: Tick(0),
            steps: 0,
        }
    }

    /// A thread stands at this place, and no answer was taken.
    fn stands(self, place: Place) -> Turned
        ensures { result ≡ stands self place }
    {
        Turned {
            place,
            counts: self,
            reply: Ok(None),
        }
    }

    /// Begin: the thread stands at the first place of its call.
    pub fn begin(self, place: Place, first: Option<Place>) -> Result<Turned, Refusal>
        ensures { result ≡ begun_with self place first }
    {
        Ok(self.stands(crate::begin(place, first)?))
    }

    /// One step more.
    pub fn one_more(self) -> Counts
        requires { self.steps < step_limit }
        ensures { result ≡ counts_of self.clock (one_more self.steps) }
    {
        let steps = limits::one_more(self.steps);
        Counts { steps, ..self }
    }

    /// Step: a running call's thread stands at this place then, and the step is counted.
    pub fn step(self, place: Place) -> Turned
        requires { self.steps < step_limit }
        ensures { result ≡ stepped_with self place }
    {
        self.one_more().stands(place)
    }

    /// Fail: the call goes back, and the step is counted.
    pub fn fail(self, place: Place) -> Result<Turned, Refusal>
        ensures { result ≡ failed_with self place }
    {
        let call = crate::fail(crate::step(place, self.steps))?;
        Ok(self.step(Place::Array(call)))
    }

    /// Advance: the clock runs on by so many ticks. Where a thread stands stays.
    pub fn advance(self, place: Place, ticks: Tick) -> Result<Turned, Refusal>
        ensures { result ≡ advanced_with self place ticks }
    {
        let clock = limits::later(self.clock, ticks)?;
        let counts = Counts { clock, ..self };
        Ok(counts.stands(place))
    }

    /// Take: the thread is idle again, and its answer is handed over.
    pub fn take(self, place: Place) -> Result<Turned, Refusal>
        ensures { result ≡ taken_with self place }
    {
        let (place, answer) = crate::take(place)?;
        Ok(Turned {
            place,
            counts: self,
            reply: Ok(Some(answer)),
        })
    }
}
