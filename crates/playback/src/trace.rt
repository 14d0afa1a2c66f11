//! What the trace shows of a frame: its output line, and the record after it.
ghost use Rattle.std.specs.Prelude.{◌≡◌, ◌≤◌, length};
ghost use Rattle.text.specs.Output.{Put};
ghost use Rattle.playback.specs.Trace.{record_of, shown_room, shown_for};

use saved::line;
use saved::line::LINE;
use schedule::record::Record;
use served::held::Served;
use served::reply;

/// The longest that the trace shows of a frame, in bytes.
pub const SHOWN: usize = 13 + LINE;

// Stays a match: either arm holds the record, and neither is a failure.
/// The record that is held: a channel's, or the one that stands for none.
fn record_of(channel: Result<Record, Record>) -> Record
    ensures { result ≡ record_of channel }
{
    match channel {
        Ok(given) | Err(given) => given,
    }
}

// Stays a lent buffer with room for what is shown: no heap, a rule of the project.
/// Writes what the trace shows of an answered frame, and says where it ends.
pub fn put_shown(out: &mut [u8], served: Served) -> usize
    requires { shown_room ≤ length out.old }
    ensures { Put 0 (shown_for served) result out.old out.new }
{
    let end = reply::put(out, 0, served.reply);
    line::put_record(out, end, &record_of(served.held.channel))
}
