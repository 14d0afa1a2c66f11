//! Where a thread stands, as three numbers: a code, and what its call has saved.
ghost use Rattle.std.specs.Prelude.{◌≡◌};
ghost use Rattle.saved.specs.Place.{numbers, first_numbers, on_side};

use array::call::{ArrayCall, IsEmptyPlace, IsFullPlace, LenPlace, ReceivePlace, SendPlace};
use places::place::Place;
use waker::wakers::Side;
use zero::call::{Limit, Offer, Question, ZeroCall};

// Stays numbers: the record's line shows them, and a place of its own for each would say what `Place` says.
/// A place's code, and up to two saved numbers.
#[derive(Clone, Copy, Debug, PartialEq, Eq)]
pub struct Numbers {
    // Stays a number: the record's line shows it, in hexadecimal, as the bench book names the steps.
    pub code: u64,
    pub first: u64,
    pub second: u64,
}

impl Numbers {
    // Stays a number: the record's line shows it, in hexadecimal, as the bench book names the steps.
    /// A code, with what is saved.
    fn new(code: u64, first: u64, second: u64) -> Numbers
        ensures { result ≡ numbers code first second }
    {
        Numbers {
            code,
            first,
            second,
        }
    }

    // Stays a number: the record's line shows it, in hexadecimal, as the bench book names the steps.
    /// The same where what is saved has 32 bits: a message, a partner's number or a deadline.
    fn short(code: u64, first: u32, second: u32) -> Numbers
        ensures { result ≡ numbers code first second }
    {
        Numbers::new(code, u64::from(first), u64::from(second))
    }
}

impl From<SendPlace> for Numbers {
    ghost use Rattle.std.specs.Prelude.{◌≡◌};
    ghost use Rattle.saved.specs.Place.{send_numbers};

    ghost from_gives = { λ place numbers. numbers ≡ send_numbers place };

    /// `try_send`, A to F.
    fn from(place: SendPlace) -> Numbers {
        // Stays numbers: the record's line shows these codes.
        match place {
            SendPlace::LoadTail { message } => Numbers::new(0x1a, u64::from(message), 0),
            SendPlace::LoadStamp { message, tail } => Numbers::new(
                0x1b,
                u64::from(message),
                tail.0,
            ),
            SendPlace::ClaimTail { message, tail } => Numbers::new(
                0x1c,
                u64::from(message),
                tail.0,
            ),
            SendPlace::LoadHead { message, tail } => Numbers::new(0x1d, u64::from(message), tail.0),
            SendPlace::StoreMessage { message, tail } => Numbers::new(
                0x1e,
                u64::from(message),
                tail.0,
            ),
            SendPlace::StoreStamp { tail } => Numbers::new(0x1f, 0, tail.0),
        }
    }
}

impl From<ReceivePlace> for Numbers {
    ghost use Rattle.std.specs.Prelude.{◌≡◌};
    ghost use Rattle.saved.specs.Place.{receive_numbers};

    ghost from_gives = { λ place numbers. numbers ≡ receive_numbers place };

    /// `try_recv`, A to F.
    fn from(place: ReceivePlace) -> Numbers {
        match place {
            ReceivePlace::LoadHead => Numbers::new(0x2a, 0, 0),
            ReceivePlace::LoadStamp { head } => Numbers::new(0x2b, 0, head.0),
            ReceivePlace::ClaimHead { head } => Numbers::new(0x2c, 0, head.0),
            ReceivePlace::LoadTail { head } => Numbers::new(0x2d, 0, head.0),
            ReceivePlace::TakeMessage { head } => Numbers::new(0x2e, 0, head.0),
            ReceivePlace::StoreStamp { head, message } => Numbers::new(
                0x2f,
                u64::from(message),
                head.0,
            ),
        }
    }
}

impl From<LenPlace> for Numbers {
    ghost use Rattle.std.specs.Prelude.{◌≡◌};
    ghost use Rattle.saved.specs.Place.{len_numbers};

    ghost from_gives = { λ place numbers. numbers ≡ len_numbers place };

    /// `len`, its three loads.
    fn from(place: LenPlace) -> Numbers {
        // Stays numbers: the record's line shows these codes.
        match place {
            LenPlace::LoadTail => Numbers::new(0x5a, 0, 0),
            LenPlace::LoadHead { tail } => Numbers::new(0x5b, tail.0, 0),
            LenPlace::LoadTailAgain { tail, head } => Numbers::new(0x5c, tail.0, head.0),
        }
    }
}

impl From<ArrayCall> for Numbers {
    ghost use Rattle.std.specs.Prelude.{◌≡◌};
    ghost use Rattle.saved.specs.Place.{array_numbers};

    ghost from_gives = { λ call numbers. numbers ≡ array_numbers call };

    /// A call on an array.
    fn from(call: ArrayCall) -> Numbers {
        // Stays a match: a place is an enum of places that carry saved words, a rule of the project.
        match call {
            ArrayCall::Send(place) => Numbers::from(place),
            ArrayCall::Receive(place) => Numbers::from(place),
            ArrayCall::Len(place) => Numbers::from(place),
            ArrayCall::IsEmpty(IsEmptyPlace::LoadHead) => Numbers::new(0x6a, 0, 0),
            ArrayCall::IsEmpty(IsEmptyPlace::LoadTail { head }) => Numbers::new(0x6b, head.0, 0),
            ArrayCall::IsFull(IsFullPlace::LoadTail) => Numbers::new(0x7a, 0, 0),
            ArrayCall::IsFull(IsFullPlace::LoadHead { tail }) => Numbers::new(0x7b, tail.0, 0),
            ArrayCall::IsDisconnected => Numbers::new(0x8a, 0, 0),
            ArrayCall::Disconnect => Numbers::new(0x9a, 0, 0),
        }
    }
}

// Stays two parameters: they are what `ZeroCall::First` holds.
/// The first section, by offer and limit.
fn first_numbers(offer: Offer, limit: Limit) -> Numbers
    ensures { result ≡ first_numbers offer limit }
{
    // Stays numbers: the record's line shows these codes.
    match (offer, limit) {
        (Offer::Send(message), Limit::Try) => Numbers::short(0x10, message, 0),
        (Offer::Receive, Limit::Try) => Numbers::short(0x20, 0, 0),
        (Offer::Send(message), Limit::Until(deadline)) => Numbers::short(0x30, message, deadline.0),
        (Offer::Receive, Limit::Until(deadline)) => Numbers::short(0x40, 0, deadline.0),
    }
}

impl From<Question> for Numbers {
    ghost use Rattle.std.specs.Prelude.{◌≡◌};
    ghost use Rattle.saved.specs.Place.{ask_numbers};

    ghost from_gives = { λ question numbers. numbers ≡ ask_numbers question };

    /// The calls of one step.
    fn from(question: Question) -> Numbers {
        // Stays numbers: the record's line shows these codes.
        match question {
            Question::Len => Numbers::new(0x50, 0, 0),
            Question::IsEmpty => Numbers::new(0x60, 0, 0),
            Question::IsFull => Numbers::new(0x70, 0, 0),
            Question::IsDisconnected => Numbers::new(0x80, 0, 0),
            Question::Disconnect => Numbers::new(0x90, 0, 0),
        }
    }
}

/// The code of a sender's or a receiver's place.
fn on_side(side: Side, sender: u64, receiver: u64) -> u64
    ensures { result ≡ on_side side sender receiver }
{
    match side {
        Side::Sender => sender,
        Side::Receiver => receiver,
    }
}

impl From<ZeroCall> for Numbers {
    ghost use Rattle.std.specs.Prelude.{◌≡◌};
    ghost use Rattle.saved.specs.Place.{zero_numbers};

    ghost from_gives = { λ call numbers. numbers ≡ zero_numbers call };

    /// A call on a rendezvous.
    fn from(call: ZeroCall) -> Numbers {
        // Stays a match: a place is an enum of places that carry saved words, a rule of the project.
        match call {
            ZeroCall::First { offer, limit } => first_numbers(offer, limit),
            ZeroCall::Put { partner, message } => Numbers::short(0x31, message, partner.0),
            ZeroCall::PutReady { partner } => Numbers::short(0x32, 0, partner.0),
            ZeroCall::Take { partner } => Numbers::short(0x41, 0, partner.0),
            ZeroCall::TakeReady { partner, message } => Numbers::short(0x42, message, partner.0),
            ZeroCall::Wait { side, deadline } => Numbers::short(
                on_side(side, 0x33, 0x43),
                0,
                deadline.0,
            ),
            ZeroCall::ReadyWait { side } => Numbers::short(on_side(side, 0x34, 0x44), 0, 0),
            ZeroCall::Leave { side } => Numbers::short(on_side(side, 0x35, 0x45), 0, 0),
            ZeroCall::Ask(question) => Numbers::from(question),
        }
    }
}

impl From<Place> for Numbers {
    ghost use Rattle.std.specs.Prelude.{◌≡◌};
    ghost use Rattle.saved.specs.Place.{place_numbers};

    ghost from_gives = { λ place numbers. numbers ≡ place_numbers place };

    /// Idle is 0, and an answer's code is d0 and its kind.
    fn from(place: Place) -> Numbers {
        // Stays a match: a place is an enum of places that carry saved words, a rule of the project.
        match place {
            Place::Idle => Numbers::new(0, 0, 0),
            Place::Array(call) => Numbers::from(call),
            Place::Zero(call) => Numbers::from(call),
            Place::Done(answer) => Numbers::short(
                0xd0 + u64::from(answer.kind()),
                answer.value(),
                0,
            ),
        }
    }
}
