//! The replay of a text, for a program in another language to link.
#![tactic(auto)]

ghost use Rattle.linked.specs.Linked.{Linked};

use playback::run;

// Stays a number for none: the C interface, in which `linked_replay` answers a length.
/// What is answered for a buffer that is too short: no output is so long.
pub const TOO_SHORT: usize = 0xffff_ffff_ffff_ffff;

// Stays this constant: the C interface has no `Option`.
/// Writes the output of a text into a buffer, and says how long it is.
#[unsafe(no_mangle)]
pub extern "C" fn linked_replay(text: &[u8], out: &mut [u8]) -> usize
    ensures { Linked text.now out.old result out.new }
{
    run::replay(text, out).unwrap_or(TOO_SHORT)
}
