//! What a frame that makes no step leaves: of the thread that it names, of the clock and of the steps made.
ghost use Rattle.std.specs.Prelude.{◌≡◌};
ghost use Rattle.served.specs.Answered.{bounded_by, named_by, answered_for};

use bounds::flavour::Flavour;
use bounds::limits;
use bounds::refusal::Refusal;
use places::begin;
use places::place::Place;
use text::frame::Frame;
use turns::counts::{Counts, Turned};
use waker::context::{THREADS, Thread};

// Stays 0 for none: such a frame leaves any thread as it was, and a test of none at each line would cost.
/// A thread's number, or 0 where no record has such a thread: a place of the table in any case.
#[tactic(auto, unfolding(crate::specs::Answered::bounded_by))]
fn bounded(thread: Thread) -> usize
    ensures { result ≡ bounded_by thread }
{
    // Stays a number: it is compared with how many threads there are, which is no thread's number.
    if thread.0 < THREADS as u32 {
        return thread.0 as usize;
    }
    0
}

// Stays 0 for none: an advance leaves the thread as it was, whichever it is, and a test at each line would cost.
/// The thread that a frame names, or 0 where it names none that could be there.
pub fn named(frame: Option<Frame>) -> usize
    ensures { result ≡ named_by frame }
{
    match frame {
        Some(
            Frame::Begin { thread, .. }
            | Frame::Step { thread }
            | Frame::Take { thread }
            | Frame::Fail { thread },
        ) => bounded(thread),
        Some(Frame::Header { .. } | Frame::Advance { .. }) | None => 0,
    }
}

/// What a frame leaves of the thread that it names, once a channel was made, or its refusal. A step that comes here is of no thread that is there.
#[tactic(auto, unfolding(crate::specs::Answered::answered_for))]
pub fn answered(
    frame: Option<Frame>,
    flavour: Flavour,
    count: u32,
    place: Place,
    counts: Counts,
) -> Result<Turned, Refusal>
    ensures { result ≡ answered_for flavour count place counts frame }
{
    // Stays a match: the calls of the rules, in which a new frame must be thought of.
    match frame.ok_or(Refusal::Malformed)? {
        Frame::Header { .. } => Err(Refusal::Malformed),
        Frame::Begin {
            thread,
            code,
            message,
            deadline,
        } => {
            limits::naming(count, thread)?;
            counts.begin(place, begin::start_on(flavour, code, message, deadline))
        }
        Frame::Step { .. } => Err(Refusal::NoSuchThread),
        Frame::Advance { ticks } => counts.advance(place, ticks),
        Frame::Take { thread } => {
            limits::naming(count, thread)?;
            counts.take(place)
        }
        Frame::Fail { thread } => {
            limits::naming(count, thread)?;
            counts.fail(place)
        }
    }
}
