//! Blanks, numbers, letters and delimiters at the front of a line.
ghost use Rattle.std.specs.Prelude.{◌≡◌, ◌≤◌, length, All, IsTrue, MatchOption, Some, None, ⊤};
ghost use Rattle.std.specs.List.{prefix_len};
ghost use Rattle.ed_syntax.specs.spelling.Characters.{is_digit, is_letter, is_delimiter, after_blanks, value_of};
ghost use Rattle.ed_syntax.specs.spelling.Addressing.{SpellsNumber};
ghost use Rattle.ed_syntax.specs.spelling.Absence.{NoNumber};
ghost use Rattle.ed_syntax.specs.reading.Tokens.{number, letter};
ghost use Rattle.ed_syntax.specs.reading.ReadParameters.{form_of};
ghost use Rattle.ed_syntax.specs.PublicTypes.{suffix_value};

use crate::Form;
use ed_base::Letter;

/// The bytes after the spaces and tabs in front.
pub fn after_blanks(bytes: &[u8]) -> &[u8]
    ensures value { result.now ≡ after_blanks bytes.now }
    ensures shorter { length result.now ≤ length bytes.now }
{
    let mut left = bytes;
    'blanks: while let [b' ' | b'\t', rest @ ..] = left {
        left = rest;
    }
    left
}

/// A lower-case letter in front, and the bytes after it.
pub fn letter(bytes: &[u8]) -> Option<(Letter, &[u8])>
    ensures value { MatchOption result (letter bytes.now ≡ None)
        (λ (l, rest). letter bytes.now ≡ Some (l, rest.now)) }
{
    match bytes {
        [byte, rest @ ..] => Some((Letter::new(*byte)?, rest)),
        [] => None,
    }
}

/// The number that one to nine digits in front spell, and the bytes after them. `None` where there is no digit, or a tenth one.
pub(crate) fn number(bytes: &[u8]) -> Option<(u32, &[u8])>
    ensures value { MatchOption result (number bytes.now ≡ None)
        (λ (n, rest). number bytes.now ≡ Some (n, rest.now)) }
    ensures spelled { MatchOption result (NoNumber bytes.now) (λ (n, rest). SpellsNumber bytes.now rest.now n) }
    ensures few { MatchOption result ⊤ (λ (n, rest). n ≤ 999999999) }
    ensures shorter { MatchOption result ⊤ (λ (n, rest). length rest.now ≤ length bytes.now) }
{
    let len = digits_len(bytes);
    if len == 0 || len > 9 {
        return None;
    }
    let (digits, rest) = bytes.split_at(len);
    Some((value_of(digits), rest))
}

/// The form of a letter.
pub fn form_of(letter: u8) -> Option<Form>
    ensures value { suffix_value result ≡ form_of letter }
{
    match letter {
        b'l' => Some(Form::Unambiguous),
        b'n' => Some(Form::Numbered),
        b'p' => Some(Form::Plain),
        _ => None,
    }
}

/// How many digits stand in front.
fn digits_len(bytes: &[u8]) -> usize
    ensures value { result ≡ prefix_len is_digit bytes.now }
{
    bytes
        .iter()
        .take_while(|b| matches!(**b, b'0'..=b'9'))
        .count()
}

/// The number that at most nine digits spell.
fn value_of(digits: &[u8]) -> u32
    requires digits { All (λ b. IsTrue (is_digit b)) digits.now }
    requires few { length digits.now ≤ 9 }
    ensures value { result ≡ value_of digits.now }
    ensures few { result ≤ 999999999 }
{
    let mut value = 0;
    'digits: for digit in digits {
        value = 10 * value + u32::from(digit - b'0');
    }
    value
}

/// A letter.
pub fn is_letter(byte: u8) -> bool
    ensures value { result ≡ is_letter byte }
{
    matches!(byte, b'A'..=b'Z' | b'a'..=b'z')
}

/// The delimiter of a pattern after a command's letter: punctuation, but no backslash.
pub fn is_delimiter(byte: u8) -> bool
    ensures value { result ≡ is_delimiter byte }
{
    matches!(byte, b'!'..=b'~') && !is_letter(byte) && !matches!(byte, b'0'..=b'9') && byte != b'\\'
}
