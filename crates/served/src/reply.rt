//! The output line of a reply.
ghost use Rattle.std.specs.Prelude.{◌+◌, ◌≤◌, length};
ghost use Rattle.text.specs.Output.{Put};
ghost use Rattle.served.specs.Served.{reply_line};

use bounds::refusal::Reply;
use text::output;

// Stays at a position: a writer over a lent slice owes a clause on its loan in each method, and is no plainer.
/// Writes the line of a reply at `at`, and says where it ends.
pub fn put(out: &mut [u8], at: usize, reply: Reply) -> usize
    requires { at + length (reply_line reply) ≤ length out.old }
    ensures { Put at (reply_line reply) result out.old out.new }
{
    // Stays a match: the three lines of the rules, of which one has an answer and one a number.
    match reply {
        Ok(None) => output::put_code(out, at, 0),
        Ok(Some(answer)) => output::put_took(out, at, u32::from(answer.kind()), answer.value()),
        Err(refusal) => output::put_code(out, at, u32::from(refusal.number())),
    }
}
