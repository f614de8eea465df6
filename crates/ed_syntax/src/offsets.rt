//! The offsets of an address.
ghost use Rattle.std.specs.Prelude.{◌≡◌, ◌≤◌, length, MatchOption, Some, None, ⊤};
ghost use Rattle.ed_syntax.specs.spelling.Characters.{after_blanks};
ghost use Rattle.ed_syntax.specs.reading.Tokens.{distance, offsets};

use crate::tokens::{after_blanks, number};

/// The sum of the offsets in front, with blanks before and between them, and the bytes after. Without an offset the sum is 0.
pub fn offsets(bytes: &[u8]) -> Option<(i128, &[u8])>
    ensures value { let read = offsets (length bytes.now) bytes.now in
        MatchOption result (read ≡ None) (λ (sum, rest). read ≡ Some (sum, rest.now)) }
{
    let mut sum: i128 = 0;
    let mut left = bytes;
    'offsets: while let [sign @ (b'+' | b'-'), rest @ ..] = after_blanks(left) {
        let (lines, rest) = distance(rest)?;
        if *sign == b'+' {
            sum += i128::from(lines);
        } else {
            sum -= i128::from(lines);
        }
        left = rest;
    }
    Some((sum, left))
}

/// How many lines an offset goes: the number directly after its sign, or 1.
fn distance(bytes: &[u8]) -> Option<(u32, &[u8])>
    ensures value { MatchOption result (distance bytes.now ≡ None)
        (λ (n, rest). distance bytes.now ≡ Some (n, rest.now)) }
    ensures few { MatchOption result ⊤ (λ (n, rest). n ≤ 999999999) }
    ensures shorter { MatchOption result ⊤ (λ (n, rest). length rest.now ≤ length bytes.now) }
{
    match bytes {
        [b'0'..=b'9', ..] => number(bytes),
        _ => Some((1, bytes)),
    }
}
