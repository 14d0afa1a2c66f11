//! A program: reads a schedule text from standard input, and writes each output line with the record after it.
#![tactic(auto)]

use anyhow::{Context, Result};
use bounds::refusal::Refusal;
use playback::run::TEXT_LIMIT;
use playback::trace::{SHOWN, put_shown};
use served::held::Held;
use served::reply;
use std::io;
use std::io::{Read, Write};
use text::{frame, lines};

/// Shows each line's answer and record.
fn show<W: Write>(writer: &mut W, text: &[u8]) -> io::Result<()> {
    // A rule of the project: no heap, so a buffer of a fixed size.
    let mut out = [0u8; SHOWN];
    let mut held = Held::nothing();
    let mut at = 0;
    // Tried and unproved: a `for` over `split_inclusive`, in a function that is generic over its writer.
    while at < text.len() {
        let line = lines::line(text, at);
        at += line.len() + 1;
        let served = held.serve(frame::parse(line));
        held = served.held;
        let end = put_shown(&mut out, served);
        writer.write_all(&out[..end])?;
    }
    Ok(())
}

// Reader and writer stay two: a program's two ends, each of its own kind.
/// Traces the input's text. A text that cannot be read to its end is not answered in part. Of an error only what failed is said, and not the system's message.
fn trace<R: Read, W: Write>(reader: &mut R, writer: &mut W) -> Result<()> {
    // A rule of the project: no heap, so buffers of a fixed size. One byte more than a text may have shows a text that is too long.
    let mut text = [0u8; TEXT_LIMIT + 1];
    let n = input::read_text(reader, &mut text)
        .ok()
        .context("standard input could not be read")?;
    if TEXT_LIMIT < n {
        // The same: the line of a refusal.
        let mut line = [0u8; 3];
        let end = reply::put(&mut line, 0, Err(Refusal::TooLong));
        // What the program does may not change: of this one line it says nothing where it cannot be written.
        let _ = writer.write_all(&line[..end]);
        return Ok(());
    }
    show(writer, &text[..n])
        .ok()
        .context("standard output could not be written")
}

// Stays beside replay's: two programs, each of which says its own name.
/// A failure is said on standard error.
fn main(rt: HostRuntime) {
    // What the program does may not change: its status is 0 then too, so this returns no `Err`.
    if let Err(failure) = trace(&mut rt.stdin(), &mut rt.stdout()) {
        let _ = eprintln!(rt; "trace: {failure}");
    }
}
