//! The frames that lines spell.
ghost use Rattle.std.specs.Prelude.{◌≡◌, ◌≤◌, length, drop, [], None};
ghost use Rattle.text.specs.Lines.{line_of};
ghost use Rattle.text.specs.Frames.{header_of, begin_of, advance_of, thread_of, parse_of, step_thread};
ghost use Rattle.text.specs.Texts.{ReadWritten, WrittenRead};

use crate::hex::{digit, hex};
use channel::answer::Tick;
use waker::context::Thread;

// code stays a number: the line spells it, and refusal 7 is for any that names no call.
/// What a line asks for. A malformed line asks for nothing, and spells none of these.
#[derive(Clone, Copy, Debug, PartialEq, Eq)]
pub enum Frame {
    Header {
        capacity: u32,
        threads: u32,
    },
    Begin {
        thread: Thread,
        code: u32,
        message: u32,
        deadline: Tick,
    },
    Step {
        thread: Thread,
    },
    Advance {
        ticks: Tick,
    },
    Take {
        thread: Thread,
    },
    Fail {
        thread: Thread,
    },
}

/// The bytes of a step's line, 0a included.
pub const STEP_LENGTH: usize = 5;

/// `cctt` after `00`: capacity and thread count.
#[tactic(auto, unfolding(crate::specs::Frames::header_of))]
fn header(digits: &[u8]) -> Option<Frame>
    ensures { result ≡ header_of digits.now }
{
    if digits.len() != 4 {
        return None;
    }
    let capacity = hex(&digits[..2])?;
    let threads = hex(&digits[2..])?;
    Some(Frame::Header { capacity, threads })
}

/// `ttoommmmmmmmdddddddd` after `01`: thread, call code, message and deadline.
#[tactic(auto, unfolding(crate::specs::Frames::begin_of))]
fn begin(digits: &[u8]) -> Option<Frame>
    ensures { result ≡ begin_of digits.now }
{
    if digits.len() != 20 {
        return None;
    }
    let thread = hex(&digits[..2])?;
    let code = hex(&digits[2..4])?;
    let message = hex(&digits[4..12])?;
    let deadline = hex(&digits[12..])?;
    Some(Frame::Begin {
        thread: Thread(thread),
        code,
        message,
        deadline: Tick(deadline),
    })
}

/// `nnnnnnnn` after `03`: by how many ticks the clock advances.
#[tactic(auto, unfolding(crate::specs::Frames::advance_of))]
fn advance(digits: &[u8]) -> Option<Frame>
    ensures { result ≡ advance_of digits.now }
{
    if digits.len() != 8 {
        return None;
    }
    let ticks = hex(digits)?;
    Some(Frame::Advance { ticks: Tick(ticks) })
}

/// `tt` after `02`, `04` or `05`: a thread, and no more.
#[tactic(auto, unfolding(crate::specs::Frames::thread_of))]
fn thread_number(digits: &[u8]) -> Option<Thread>
    ensures { result ≡ thread_of digits.now }
{
    if digits.len() != 2 {
        return None;
    }
    hex(digits).map(Thread)
}

// Stays a match: a line is read by its first two bytes, and `TryFrom` would name an error that nobody reads.
/// The frame that a line spells, or none where it is malformed.
#[tactic(auto, unfolding(crate::specs::Frames::form_of, crate::specs::Frames::parse_of))]
pub fn parse(line: &[u8]) -> Option<Frame>
    ensures { result ≡ parse_of line.now }
{
    // Stays a match: the digits behind each form are read by a function of their own.
    match line {
        [b'0', b'0', digits @ ..] => header(digits),
        [b'0', b'1', digits @ ..] => begin(digits),
        [b'0', b'2', digits @ ..] => Some(Frame::Step {
            thread: thread_number(digits)?,
        }),
        [b'0', b'3', digits @ ..] => advance(digits),
        [b'0', b'4', digits @ ..] => Some(Frame::Take {
            thread: thread_number(digits)?,
        }),
        [b'0', b'5', digits @ ..] => Some(Frame::Fail {
            thread: thread_number(digits)?,
        }),
        _ => None,
    }
}

/// The thread whose step the first line of a text spells, or none.
// Stays a match: a line is read by its bytes, and is no value of a type to convert.
#[tactic(auto, using(crate::proofs::StepLaws::told_short, crate::proofs::StepLaws::told_first, crate::proofs::StepLaws::told_second, crate::proofs::StepLaws::told_no_high, crate::proofs::StepLaws::told_no_low, crate::proofs::StepLaws::told_last, crate::proofs::StepLaws::told_ended, crate::proofs::StepLaws::told_longer, crate::proofs::HexLaws::digit_below))]
fn first_step(text: &[u8]) -> Option<Thread>
    ensures { result ≡ step_thread (parse_of (line_of text.now)) }
{
    match text {
        [b'0', b'2', high, low] | [b'0', b'2', high, low, b'\n', ..] => {
            Some(Thread(digit(*high)? * 16 + digit(*low)?))
        }
        _ => None,
    }
}

// Stays at a position: the replay goes over the lent text once, and asks at each place what stands there.
/// The thread whose step the line at `at` spells, or none. Most lines are steps, and these want neither their end sought nor a frame made of them.
pub fn step_thread(text: &[u8], at: usize) -> Option<Thread>
    requires { at ≤ length text.now }
    ensures { result ≡ step_thread (parse_of (line_of (drop at text.now))) }
{
    first_step(&text[at..])
}

/// Each frame whose fields fit is spelled by one line, and each line that spells a frame is such a line; the empty one spells none.
#[tactic(auto, unfolding(crate::specs::Frames::parse_of))]
pub fn spelled_once()
    ensures read_written { ReadWritten }
    ensures written_read { WrittenRead }
    ensures empty { parse_of [] ≡ None }
{}
