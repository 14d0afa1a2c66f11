//! Numbers in lowercase hexadecimal, read.
ghost use Rattle.std.specs.Prelude.{◌≡◌, ◌≤◌, length};
ghost use Rattle.text.specs.Hex.{digit_of, hex_of};

/// What a digit stands for: `0` to `9` and `a` to `f` are digits, and no other byte is.
// Stays a match: std's `to_digit` takes upper case too, which the rules refuse.
#[tactic(auto, unfolding(crate::specs::Hex::digit_of))]
pub fn digit(b: u8) -> Option<u32>
    ensures { result ≡ digit_of b }
{
    match b {
        b'0'..=b'9' => Some(u32::from(b - b'0')),
        b'a'..=b'f' => Some(u32::from(b - b'a' + 10)),
        _ => None,
    }
}

/// The number that at most eight digits spell, or none where a byte is no digit.
#[tactic(auto, using(crate::proofs::HexLaws::hex_from, crate::proofs::HexLaws::hex_end, crate::proofs::HexLaws::digit_below))]
pub fn hex(digits: &[u8]) -> Option<u32>
    requires { length digits.now ≤ 8 }
    ensures { result ≡ hex_of 0 digits.now }
{
    let mut value = 0;
    for &b in digits {
        value = value * 16 + digit(b)?;
    }
    Some(value)
}
