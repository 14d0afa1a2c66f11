//! The lines of a lent text.
ghost use Rattle.std.specs.Prelude.{◌≡◌, ◌≤◌, ◌==◌, length, drop, position};
ghost use Rattle.text.specs.Lines.{line_of};

/// Where the first 0a stands.
fn first_end(text: &[u8]) -> Option<usize>
    ensures { result ≡ position (λ b. b == 0x0a) text.now }
{
    text.iter().position(|&b| b == b'\n')
}

// Stays at a position: the replay goes over the lent text once, and asks at each place what stands there.
/// The line that begins at `at`: a part of the lent text itself.
pub fn line(text: &[u8], at: usize) -> &[u8]
    requires { at ≤ length text.now }
    ensures { result.now ≡ line_of (drop at text.now) }
{
    let rest = &text[at..];
    match first_end(rest) {
        Some(end) => &rest[..end],
        None => rest,
    }
}
