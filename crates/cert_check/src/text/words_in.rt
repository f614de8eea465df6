//! The words of a certificate's text, as they are read.

ghost use Rattle.std.specs.Prelude.{◌≡◌, ◌≢◌, ◌<◌, ◌/◌, ◌%◌, ◌++◌, ◌∷◌, ℕ, List, Some, ⊤, true, false, All, MatchBool, MatchOption, IfOk, length, flat_map, decimal};
ghost use Rattle.std.specs.List.{prefix_len};
ghost use Rattle.std.specs.Fmt.{signed_decimal};
ghost use Rattle.ed_rules.specs.Formed.{ChoiceIsBytes};
ghost use Rattle.ed_rules.specs.LineBounds.{is_limit};
ghost use Rattle.cert_check.specs.text.Text.{space, hexadecimal, is_itself, byte_text, choice_word, limit_word};
ghost use Rattle.cert_check.specs.text.Reading.{is_in_word, WordReadsAs, IsFirstWord, IsNumber, IsSigned};

use crate::text::has_text::are_bytes;
use ed_base::Bytes;
use ed_rules::LineBounds;
use itoa::Buffer;
use std::alloc::{AllocError, Global};
use std::str::from_utf8;

/// What is left of a line after its key.
pub(crate) fn after_key<'a>(key: &[u8], line: &'a [u8]) -> Option<&'a [u8]>
    ensures cases { MatchOption result ((left : List ℕ) → line.now ≢ key.now ++ left)
        (λ left. line.now ≡ key.now ++ left.now) }
{
    line.strip_prefix(key)
}

/// How many bytes stand before the first space.
pub(crate) fn word_len(text: &[u8]) -> usize
    ensures value { result ≡ prefix_len is_in_word text.now }
{
    text.iter().take_while(|b| **b != b' ').count()
}

/// The word after a space in front, and what is left after the word.
pub(crate) fn next_word(text: &[u8]) -> Option<(&[u8], &[u8])>
    ensures cases { MatchOption result ((later : List ℕ) → text.now ≢ space ∷ later)
        (λ (word, left). IsFirstWord text.now word.now left.now) }
    ensures shorter { MatchOption result ⊤ (λ (word, left). length left.now < length text.now) }
{
    let Some(rest) = after_key(b" ", text) else {
        return None;
    };
    Some(rest.split_at(word_len(rest)))
}

/// Whether a word stands in front, after its space, and what is left after it where it does.
pub(crate) fn possible_in<'a>(word: &[u8], text: &'a [u8]) -> (bool, &'a [u8])
    ensures cases { MatchBool result.0 (text.now ≡ word.now ++ result.1.now)
        ((result.1.now ≡ text.now) × ((later : List ℕ) → text.now ≢ word.now ++ later)) }
{
    match after_key(word, text) {
        Some(left) => (true, left),
        None => (false, text),
    }
}

/// A number in decimal, as it is written.
pub(crate) fn number_in(word: &[u8]) -> Option<u64>
    ensures exact { WordReadsAs decimal IsNumber word.now result }
{
    let Ok(text) = from_utf8(word) else {
        return None;
    };
    let Ok(number) = text.parse::<u64>() else {
        return None;
    };
    if Buffer::new().format(number).as_bytes() == word {
        return Some(number);
    }
    None
}

/// A number with its sign, as it is written.
pub(crate) fn signed_in(word: &[u8]) -> Option<i64>
    ensures exact { WordReadsAs signed_decimal IsSigned word.now result }
{
    let Ok(text) = from_utf8(word) else {
        return None;
    };
    let Ok(number) = text.parse::<i64>() else {
        return None;
    };
    if Buffer::new().format(number).as_bytes() == word {
        return Some(number);
    }
    None
}

/// A number of lines, or `any` where there is no limit.
pub(crate) fn limit_in(word: &[u8]) -> Option<Option<u64>>
    ensures exact { WordReadsAs limit_word (λ limit. is_limit limit ≡ true) word.now result }
{
    if word == b"any".as_slice() {
        return Some(None);
    }
    let Some(number) = number_in(word) else {
        return None;
    };
    if number > LineBounds::MOST {
        return None;
    }
    Some(Some(number))
}

/// The value of a hexadecimal digit, from `0` to `9` and `a` to `f`.
fn digit_in(byte: u8) -> Option<u8>
    ensures exact { MatchOption result ((digit : ℕ) → digit < 16 → hexadecimal digit ≢ byte)
        (λ digit. (digit < 16) × (hexadecimal digit ≡ byte)) }
{
    match byte {
        b'0'..=b'9' => Some(byte - b'0'),
        b'a'..=b'f' => Some(byte - b'a' + 10),
        _ => None,
    }
}

fn is_itself(byte: u8) -> bool
    ensures value { result ≡ is_itself byte }
{
    b' ' < byte && byte < 127 && byte != b'%'
}

/// A byte that a percent sign and two digits stand for.
fn escaped_in(high: u8, low: u8) -> Option<u8>
    ensures exact { MatchOption result ((byte : ℕ) → byte < 256 → is_itself byte ≡ false →
        (hexadecimal (byte / 16) ≡ high) → hexadecimal (byte % 16) ≢ low)
        (λ byte. (is_itself byte ≡ false) × ((hexadecimal (byte / 16) ≡ high) × (hexadecimal (byte % 16) ≡ low))) }
{
    let high = digit_in(high)?;
    let low = digit_in(low)?;
    let byte = 16 * high + low;
    if is_itself(byte) {
        return None;
    }
    Some(byte)
}

/// A byte of a text or path in front, and what is left after it.
fn byte_in(text: &[u8]) -> Option<(u8, &[u8])>
    ensures exact { MatchOption result ((byte : ℕ) (later : List ℕ) → byte < 256 →
        byte_text byte ++ later ≢ text.now)
        (λ (byte, left). byte_text byte ++ left.now ≡ text.now) }
    ensures shorter { MatchOption result ⊤ (λ (byte, left). length left.now < length text.now) }
{
    let [byte, left @ ..] = text else {
        return None;
    };
    if is_itself(*byte) {
        return Some((*byte, left));
    }
    if *byte != b'%' {
        return None;
    }
    let [high, low, left @ ..] = left else {
        return None;
    };
    Some((escaped_in(*high, *low)?, left))
}

/// A text or path.
fn text_in(alloc: Global, word: &[u8]) -> Result<Option<Bytes>, AllocError>
    ensures exact { IfOk result (λ text. WordReadsAs (flat_map byte_text) (All (λ byte. byte < 256)) word.now text) }
{
    let mut text = Bytes::new(alloc);
    let mut left = word;
    while let Some((byte, later)) = byte_in(left) {
        text.push(byte)?;
        left = later;
    }
    if !left.is_empty() {
        return Ok(None);
    }
    are_bytes(text.as_slice());
    Ok(Some(text))
}

/// A text or path after an equals sign.
pub(crate) fn path_word_in(alloc: Global, word: &[u8]) -> Result<Option<Bytes>, AllocError>
    ensures exact { IfOk result (λ path. WordReadsAs (λ path. choice_word (Some path))
        (All (λ byte. byte < 256)) word.now path) }
{
    let [first, text @ ..] = word else {
        return Ok(None);
    };
    if *first != b'=' {
        return Ok(None);
    }
    text_in(alloc, text)
}

/// None, or a text or path.
pub(crate) fn choice_in(alloc: Global, word: &[u8]) -> Result<Option<Option<Bytes>>, AllocError>
    ensures exact { IfOk result (λ choice. WordReadsAs choice_word ChoiceIsBytes word.now choice) }
{
    if word == b"-".as_slice() {
        return Ok(Some(None));
    }
    match path_word_in(alloc, word)? {
        Some(path) => Ok(Some(Some(path))),
        None => Ok(None),
    }
}
