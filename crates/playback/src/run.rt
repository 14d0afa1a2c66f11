//! The replay of a whole text into a lent buffer.
ghost use Rattle.std.specs.Prelude.{◌≡◌, ◌+◌, ◌*◌, ◌≤◌, length};
ghost use Rattle.text.specs.Lines.{lines_of};
ghost use Rattle.text.specs.Frames.{parse_of};
ghost use Rattle.text.specs.Output.{Put};
ghost use Rattle.served.specs.Served.{nothing_made};
ghost use Rattle.served.specs.Replies.{replies_to};
ghost use Rattle.playback.specs.Heading.{making_to, heading_of};
ghost use Rattle.playback.specs.Output.{Replayed};

use bounds::flavour::Flavour;
use bounds::limits;
use bounds::refusal::Refusal;
use served::reply;
use text::frame::Frame;
use text::{frame, lines};

/// The longest schedule text.
pub const TEXT_LIMIT: usize = 60_000;

// Stays an enum: two channels of equal standing, of which one has a capacity.
/// The channel that a header makes.
#[derive(Clone, Copy, Debug, PartialEq, Eq)]
pub enum Heading {
    Array { capacity: u64, count: u32 },
    Zero { count: u32 },
}

/// What a header leads to. Capacity 0 makes a rendezvous.
#[tactic(auto, unfolding(crate::specs::Heading::making_to))]
fn making(capacity: u32, count: u32) -> Result<Heading, Refusal>
    ensures { result ≡ making_to capacity count }
{
    if capacity == 0 {
        limits::making(Flavour::Zero, 0, count)?;
        return Ok(Heading::Zero { count });
    }
    let capacity = u64::from(capacity);
    limits::making(Flavour::Array, capacity, count)?;
    Ok(Heading::Array { capacity, count })
}

/// What a line's frame leads to before a channel was made.
fn heading_of(frame: Option<Frame>) -> Result<Heading, Refusal>
    ensures { result ≡ heading_of frame }
{
    match frame.ok_or(Refusal::Malformed)? {
        Frame::Header { capacity, threads } => making(capacity, threads),
        _ => Err(Refusal::NoChannel),
    }
}

// Stays a match: a line is read by its first two bytes.
/// What a line leads to before a channel was made. A line that begins as no form is told by these two: reading its digits would cost it half as much again.
#[tactic(auto, unfolding(text::specs::Frames::form_of, text::specs::Frames::parse_of))]
fn leads_to(line: &[u8]) -> Result<Heading, Refusal>
    ensures { result ≡ heading_of (parse_of line.now) }
{
    match line {
        [b'0', b'0'..=b'5', ..] => heading_of(frame::parse(line)),
        _ => Err(Refusal::Malformed),
    }
}

// Stays a lent buffer with room for three bytes a byte: no heap, a rule of the project.
/// The lines of a text, answered one after the other: up to the header that makes a channel here, and from there on by the channel's replay.
fn run(text: &[u8], out: &mut [u8]) -> usize
    requires { length text.now * 3 + 3 ≤ length out.old }
    ensures { Put 0 (replies_to nothing_made (lines_of text.now)) result out.old out.new }
{
    let mut at = 0;
    let mut end = 0;
    // Stays a place that goes on: from the header on it is handed to the channel's replay.
    while at < text.len() {
        let line = lines::line(text, at);
        at = at + line.len() + 1;
        match leads_to(line) {
            Ok(heading) => {
                let start = reply::put(out, end, Ok(None));
                return match heading {
                    Heading::Array { capacity, count } => {
                        array_replay::replay(text, at, out, start, capacity, count)
                    }
                    Heading::Zero { count } => zero_replay::replay(text, at, out, start, count),
                };
            }
            Err(refusal) => {
                end = reply::put(out, end, Err(refusal));
            }
        }
    }
    end
}

/// The replay of a text: how long its whole output is, where the buffer has three bytes for each of the text's and three more, and None where it is shorter.
#[tactic(auto, unfolding(crate::specs::Output::output_of, crate::specs::Output::room_for, text::specs::Output::pasted))]
pub fn replay(text: &[u8], out: &mut [u8]) -> Option<usize>
    ensures { Replayed text.now out.old result out.new }
{
    if TEXT_LIMIT < text.len() {
        if out.len() < 3 {
            return None;
        }
        return Some(reply::put(out, 0, Err(Refusal::TooLong)));
    }
    if out.len() < text.len() * 3 + 3 {
        return None;
    }
    Some(run(text, out))
}
