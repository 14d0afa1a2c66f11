//! A program: replays stored texts, one after the other. The output that it is held to is the release's (`oracle sample`).
#![tactic(auto)]

use playback::run;
use playback::run::TEXT_LIMIT;
use std::io::{Read, Write};
use text::hex;

// Reader and writer stay two: a program's two ends, each of its own kind.
/// Replays the next stored text, which stands behind its length in eight digits; None where there is none, or its output can't be written.
#[tactic(auto, unfolding(playback::specs::Output::room_for))]
fn replay_next<R: Read, W: Write>(reader: &mut R, writer: &mut W) -> Option<()> {
    // A rule of the project: no heap, so buffers of a fixed size.
    let mut digits = [0u8; 8];
    reader.read_exact(&mut digits).ok()?;
    let length = hex::hex(&digits)?;
    // A rule of the project: no heap, so buffers of a fixed size.
    let mut texts = [0u8; TEXT_LIMIT];
    // The same of the output.
    let mut out = [0u8; TEXT_LIMIT * 3 + 3];
    let text = texts.get_mut(..length as usize)?;
    reader.read_exact(text).ok()?;
    let end = run::replay(text, &mut out).unwrap();
    writer.write_all(&out[..end]).ok()
}

/// Replays the stored texts. A proved loop has to end: this one by a count of texts that no stored input reaches.
fn main(rt: HostRuntime) {
    for _ in 0..u32::MAX {
        if replay_next(&mut rt.stdin(), &mut rt.stdout()).is_none() {
            break;
        }
    }
}
