//! The lines of the output, written into a lent buffer at a position.
ghost use Rattle.std.specs.Prelude.{◌≡◌, ◌+◌, ◌≤◌, length};
ghost use Rattle.text.specs.Hex.{hex_digit, byte_text, word_text};
ghost use Rattle.text.specs.Output.{end_text, code_line, took_line, Put};

/// The digit of a number's last four bits.
fn low_digit(value: u32) -> u8
    ensures { result ≡ hex_digit value }
{
    let d = value % 16;
    if d < 10 {
        b'0' + d as u8
    } else {
        b'a' + (d - 10) as u8
    }
}

// Stays at a position: a writer over a lent slice owes a clause on its loan in each method, and is no plainer.
/// The two digits of a number's last byte, from `at` on; answers where they end, as all below do.
#[tactic(auto, using(crate::proofs::PasteLaws::put_two))]
fn put_byte(out: &mut [u8], at: usize, value: u32) -> usize
    requires { at + 2 ≤ length out.old }
    ensures { Put at (byte_text value) result out.old out.new }
{
    out[at] = low_digit(value / 16);
    out[at + 1] = low_digit(value);
    at + 2
}

// Stays at a position: a writer over a lent slice owes a clause on its loan in each method, and is no plainer.
// Not one with `put_took`: four bytes of one number, not three fields and a line's end.
/// The eight digits of a number.
pub fn put_word(out: &mut [u8], at: usize, value: u32) -> usize
    requires { at + 8 ≤ length out.old }
    ensures { Put at (word_text value) result out.old out.new }
{
    let second = put_byte(out, at, value / 0x100_0000);
    let third = put_byte(out, second, value / 0x1_0000);
    let fourth = put_byte(out, third, value / 0x100);
    put_byte(out, fourth, value)
}

// Stays at a position: a writer over a lent slice owes a clause on its loan in each method, and is no plainer.
/// The 0a that ends a line.
#[tactic(auto, using(crate::proofs::PasteLaws::put_one))]
pub fn put_end(out: &mut [u8], at: usize) -> usize
    requires { at + 1 ≤ length out.old }
    ensures { Put at end_text result out.old out.new }
{
    out[at] = b'\n';
    at + 1
}

// Stays at a position: a writer over a lent slice owes a clause on its loan in each method, and is no plainer.
// code stays a number: what the line spells is 00 or a refusal's number, and refusals lie in a crate above.
/// The line of a code: 00, or a refusal.
pub fn put_code(out: &mut [u8], at: usize, code: u32) -> usize
    requires { at + 3 ≤ length out.old }
    ensures { Put at (code_line code) result out.old out.new }
{
    let end = put_byte(out, at, code);
    put_end(out, end)
}

// Stays at a position: a writer over a lent slice owes a clause on its loan in each method, and is no plainer.
// kind stays a number: what the line spells. Not one with `put_word`: three fields and a line's end.
/// The line of an accepted take: 00, the answer's kind and its value.
pub fn put_took(out: &mut [u8], at: usize, kind: u32, value: u32) -> usize
    requires { at + 13 ≤ length out.old }
    ensures { Put at (took_line kind value) result out.old out.new }
{
    let second = put_byte(out, at, 0);
    let third = put_byte(out, second, kind);
    let end = put_word(out, third, value);
    put_end(out, end)
}
