//! A program: reads a schedule text from standard input, and writes its output.
#![tactic(auto)]

use anyhow::{Context, Result};
use playback::run;
use playback::run::TEXT_LIMIT;
use std::io::{Read, Write};

// Reader and writer stay two: a program's two ends, each of its own kind.
/// Replays the input's text. A text that cannot be read to its end is not answered in part. Of an error only what failed is said, and not the system's message.
#[tactic(auto, unfolding(playback::specs::Output::room_for))]
fn replay<R: Read, W: Write>(reader: &mut R, writer: &mut W) -> Result<()> {
    // A rule of the project: no heap, so buffers of a fixed size. One byte more than a text may have shows a text that is too long.
    let mut text = [0u8; TEXT_LIMIT + 1];
    // The same of the output, three bytes for each of the text's and three more.
    let mut out = [0u8; TEXT_LIMIT * 3 + 3];
    let n = input::read_text(reader, &mut text)
        .ok()
        .context("standard input could not be read")?;
    let end = run::replay(&text[..n], &mut out).unwrap();
    writer
        .write_all(&out[..end])
        .ok()
        .context("standard output could not be written")
}

// Stays beside trace's: two programs, each of which says its own name.
/// A failure is said on standard error.
fn main(rt: HostRuntime) {
    // What the program does may not change: its status is 0 then too, so this returns no `Err`.
    if let Err(failure) = replay(&mut rt.stdin(), &mut rt.stdout()) {
        let _ = eprintln!(rt; "replay: {failure}");
    }
}
