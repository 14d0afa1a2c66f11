//! Where a thread stands.
ghost use Rattle.std.specs.Prelude.{◌≡◌};
ghost use Rattle.places.specs.Place.{place_after};

use array::call::ArrayCall;
use channel::answer::Answer;
use channel::outcome::Next;
use zero::call::ZeroCall;

/// Where a thread stands: idle, in its call with what that call has saved, or with an answer not taken.
#[derive(Clone, Copy, Debug, PartialEq, Eq)]
pub enum Place {
    Idle,
    Array(ArrayCall),
    Zero(ZeroCall),
    Done(Answer),
}

/// A call on a channel.
pub trait Call: Copy {
    ghost use Rattle.std.specs.Prelude.{◌≡◌};
    ghost use Rattle.places.specs.declared.place.Place.{Place};

    // Where a thread stands that is in the call.
    ghost at: { Self → Place };

    /// Where a thread stands that is in the call.
    fn place(self) -> Place
        ensures { result ≡ at self };
}

impl Call for ArrayCall {
    ghost use Rattle.places.specs.declared.place.Place.TheVariants.{Array};

    ghost at = { Array };

    fn place(self) -> Place {
        Place::Array(self)
    }
}

impl Call for ZeroCall {
    ghost use Rattle.places.specs.declared.place.Place.TheVariants.{Zero};

    ghost at = { Zero };

    fn place(self) -> Place {
        Place::Zero(self)
    }
}

// Stays a function: where a call stands is its trait's law, and `Place::from(next)` would say less.
/// Where a thread stands after a step: further on in its call, or with its answer.
pub fn place_after<C: Call>(next: Next<C>) -> Place
    ensures { result ≡ place_after C.at next }
{
    match next {
        Next::Goes(call) => call.place(),
        Next::Ends(answer) => Place::Done(answer),
    }
}
