//! The call codes, and the first place of each call.
ghost use Rattle.std.specs.Prelude.{◌≡◌};
ghost use Rattle.places.specs.Begin.{code_of, takes, array_call, zero_call, started};

use crate::place::Place;
use array::call::{ArrayCall, IsEmptyPlace, IsFullPlace, LenPlace, ReceivePlace, SendPlace};
use bounds::flavour::Flavour;
use channel::answer::Tick;
use zero::call::{Limit, Offer, Question, ZeroCall};

// Stays a tick that stands for none: a begin spells ffffffff, and a call that waits has it as its deadline.
/// The deadline that means none: a clock that ends at fffffffe never reaches it.
pub const NO_DEADLINE: Tick = Tick(0xffff_ffff);

/// What a call code asks for.
#[derive(Clone, Copy, Debug, PartialEq, Eq)]
pub enum Code {
    TrySend,
    TryReceive,
    Send,
    Receive,
    Len,
    IsEmpty,
    IsFull,
    IsDisconnected,
    Disconnect,
}

/// A number that is no call's code.
#[derive(Clone, Copy, Debug, PartialEq, Eq)]
pub struct UnknownCode(pub u32);

impl TryFrom<u32> for Code {
    type Error = UnknownCode;

    ghost try_from_gives = { λ number code. code ≡ code_of number };

    // Stays a number: the text spells it, and refusal 7 is for any that names no call.
    #[tactic(auto, unfolding(crate::specs::Begin::code_of))]
    fn try_from(number: u32) -> Result<Code, UnknownCode> {
        match number {
            1 => Ok(Code::TrySend),
            2 => Ok(Code::TryReceive),
            3 => Ok(Code::Send),
            4 => Ok(Code::Receive),
            5 => Ok(Code::Len),
            6 => Ok(Code::IsEmpty),
            7 => Ok(Code::IsFull),
            8 => Ok(Code::IsDisconnected),
            9 => Ok(Code::Disconnect),
            _ => Err(UnknownCode(number)),
        }
    }
}

impl Code {
    // Stays a tick that stands for none: a begin spells it so, and a call that waits takes it as any other.
    /// May the call be given this deadline? Only send and receive wait, so any other takes none.
    fn takes(self, deadline: Tick) -> bool
        ensures { result ≡ takes self deadline }
    {
        matches!(self, Code::Send | Code::Receive) || deadline == NO_DEADLINE
    }

    /// The first place of a call on an array, which has no call that waits.
    fn array_call(self, message: u32) -> Option<ArrayCall>
        ensures { result ≡ array_call self message }
    {
        match self {
            Code::TrySend => Some(ArrayCall::Send(SendPlace::LoadTail { message })),
            Code::TryReceive => Some(ArrayCall::Receive(ReceivePlace::LoadHead)),
            Code::Send | Code::Receive => None,
            Code::Len => Some(ArrayCall::Len(LenPlace::LoadTail)),
            Code::IsEmpty => Some(ArrayCall::IsEmpty(IsEmptyPlace::LoadHead)),
            Code::IsFull => Some(ArrayCall::IsFull(IsFullPlace::LoadTail)),
            Code::IsDisconnected => Some(ArrayCall::IsDisconnected),
            Code::Disconnect => Some(ArrayCall::Disconnect),
        }
    }

    /// The first place of a call on a rendezvous.
    fn zero_call(self, message: u32, deadline: Tick) -> ZeroCall
        ensures { result ≡ zero_call self message deadline }
    {
        let first = |offer: Offer, limit: Limit| ZeroCall::First { offer, limit };
        match self {
            Code::TrySend => first(Offer::Send(message), Limit::Try),
            Code::TryReceive => first(Offer::Receive, Limit::Try),
            Code::Send => first(Offer::Send(message), Limit::Until(deadline)),
            Code::Receive => first(Offer::Receive, Limit::Until(deadline)),
            Code::Len => ZeroCall::Ask(Question::Len),
            Code::IsEmpty => ZeroCall::Ask(Question::IsEmpty),
            Code::IsFull => ZeroCall::Ask(Question::IsFull),
            Code::IsDisconnected => ZeroCall::Ask(Question::IsDisconnected),
            Code::Disconnect => ZeroCall::Ask(Question::Disconnect),
        }
    }
}

// Stays a number: the text spells it, and refusal 7 is for any that names no call.
/// The first place of a call on a channel. None where the channel has no such call, or the call takes no deadline and is given one.
pub fn start_on(flavour: Flavour, number: u32, message: u32, deadline: Tick) -> Option<Place>
    ensures { result ≡ started flavour number message deadline }
{
    let code = Code::try_from(number).ok()?;
    if !code.takes(deadline) {
        return None;
    }
    match flavour {
        Flavour::Array => code.array_call(message).map(Place::Array),
        Flavour::Zero => Some(Place::Zero(code.zero_call(message, deadline))),
    }
}
