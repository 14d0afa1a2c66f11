//! The channel that a text has made so far, and the answer to one frame.
ghost use Rattle.std.specs.Prelude.{◌≡◌, Some, Err};
ghost use Rattle.served.specs.Served.{made_as, nothing_made, refused_by, headed_by, kept_by, making_of, served_for, Standing};

use bounds::refusal::{Refusal, Reply};
use schedule::calls::Formed;
use schedule::record::{Record, Replied};
use text::frame::Frame;

/// The record, once a header has made its channel; before that, a record that stands for none.
#[derive(Clone, Copy, Debug, PartialEq, Eq)]
pub struct Held {
    pub channel: Result<Record, Record>,
}

/// The answer to a frame, and what is held then.
#[derive(Clone, Copy, Debug, PartialEq, Eq)]
pub struct Served {
    pub held: Held,
    pub reply: Reply,
}

/// Capacity 0 makes a rendezvous.
#[tactic(auto, unfolding(crate::specs::Served::making_of))]
fn making(capacity: u32, threads: u32) -> Replied
    ensures { result ≡ making_of capacity threads }
{
    if capacity == 0 {
        return Record::make_zero(threads);
    }
    Record::make_array(u64::from(capacity), threads)
}

/// What a header leaves: a refused one makes no channel.
fn headed(replied: Replied) -> Served
    ensures { result ≡ headed_by replied }
{
    let channel = match replied.reply {
        Ok(_) => Ok(replied.next),
        Err(_) => Err(replied.next),
    };
    Served {
        held: Held { channel },
        reply: replied.reply,
    }
}

/// What any other frame leaves: the channel's next record.
fn kept(replied: Replied) -> Served
    ensures { result ≡ kept_by replied }
{
    Served {
        held: Held {
            channel: Ok(replied.next),
        },
        reply: replied.reply,
    }
}

/// On a channel that was made, a header is malformed; the form is not tested.
#[tactic(auto, unfolding(crate::specs::Served::served_for, schedule::specs::Calls::advanced, schedule::specs::Calls::begun, schedule::specs::Calls::failed, schedule::specs::Calls::stepped, schedule::specs::Calls::taken))]
fn serve_made(formed: Formed, frame: Frame) -> Served
    ensures { result ≡ served_for (made_as formed.given) (Some frame) }
{
    // Stays a match: the calls of the rules, in which a new frame must be thought of.
    kept(match frame {
        Frame::Header { .. } => formed.given.refused(Refusal::Malformed),
        Frame::Begin {
            thread,
            code,
            message,
            deadline,
        } => formed.begin(thread, code, message, deadline),
        Frame::Step { thread } => formed.step(thread),
        Frame::Advance { ticks } => formed.given.advance_in_form(ticks),
        Frame::Take { thread } => formed.take(thread),
        Frame::Fail { thread } => formed.fail(thread),
    })
}

// Stays a match: of the frames one is heard.
/// Before a channel was made, only a header is heard.
#[tactic(auto, unfolding(crate::specs::Served::served_for))]
fn serve_unmade(stand_in: Record, frame: Frame) -> Served
    ensures { result ≡ served_for (record { channel = Err stand_in }) (Some frame) }
{
    let held = Held {
        channel: Err(stand_in),
    };
    match frame {
        Frame::Header { capacity, threads } => headed(making(capacity, threads)),
        _ => held.refused(Refusal::NoChannel),
    }
}

impl Held {
    /// Before a channel was made: the record that a refused making returns stands for none.
    #[tactic(auto, unfolding(schedule::specs::Making::made_zero))]
    pub fn nothing() -> Held
        ensures { result ≡ nothing_made }
    {
        Held {
            channel: Err(Record::make_zero(0).next),
        }
    }

    /// A refusal leaves what is held as it was.
    fn refused(self, refusal: Refusal) -> Served
        ensures { result ≡ refused_by self refusal }
    {
        Served {
            held: self,
            reply: Err(refusal),
        }
    }

    /// The answer to the frame of a line, and to a line that spells none; on the inner path, which tests no form.
    #[tactic(auto, unfolding(crate::specs::Served::served_for))]
    pub fn serve(self, frame: Option<Frame>) -> Served
        requires { Standing self }
        ensures { result ≡ served_for self frame }
    {
        let Some(frame) = frame else {
            return self.refused(Refusal::Malformed);
        };
        match self.channel {
            Ok(channel) => serve_made(Formed { given: channel }, frame),
            Err(stand_in) => serve_unmade(stand_in, frame),
        }
    }
}
