//! The line of a record: every field in sixteen digits, and 0a.
ghost use Rattle.std.specs.Prelude.{◌+◌, ◌≤◌, length};
ghost use Rattle.text.specs.Output.{Put};
ghost use Rattle.saved.specs.Line.{long_text, line_length, record_line};

use crate::fields;
use crate::fields::FIELDS;
use schedule::record::Record;
use text::output;

/// How long the line is, in bytes.
pub const LINE: usize = 3_265;

// Stays at a position: a writer over a lent slice owes a clause on its loan in each method, and is no plainer.
/// The sixteen digits of a number.
fn put_long(out: &mut [u8], at: usize, value: u64) -> usize
    requires { at + 16 ≤ length out.old }
    ensures { Put at (long_text value) result out.old out.new }
{
    let end = output::put_word(out, at, (value / 0x1_0000_0000) as u32);
    output::put_word(out, end, (value % 0x1_0000_0000) as u32)
}

// Stays at a position: a writer over a lent slice owes a clause on its loan in each method, and is no plainer.
/// Writes the line of a record at `at`, and says where it ends.
#[tactic(auto, using(crate::proofs::LineLaws::next_fits, crate::proofs::LineLaws::end_fits))]
pub fn put_record(out: &mut [u8], at: usize, given: &Record) -> usize
    requires { at + line_length ≤ length out.old }
    ensures { Put at (record_line given.now) result out.old out.new }
{
    let mut end = at;
    for i in 0..FIELDS {
        end = put_long(out, end, fields::field(given, i));
    }
    output::put_end(out, end)
}
