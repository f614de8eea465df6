//! The words of a certificate's text, as they are written.

ghost use Rattle.std.specs.Prelude.{◌≡◌, ◌++◌, ◌∷◌, ◌<◌, [], Some, flat_map, decimal};
ghost use Rattle.std.specs.Fmt.{signed_decimal};
ghost use Rattle.cert_check.specs.text.Text.{space, spaced, name_word, bound_words, bounds_words, letter_a, sure_letters, letters_words, hexadecimal, is_itself, byte_text, choice_word, possible, limit_word};

use crate::text::writer::TextWriter;
use ed_base::{Bytes, Letter};
use ed_rules::Marks;
use itoa::Buffer;
use zones::{KeptZone, Name};

/// A number in decimal, without leading zeros.
pub(crate) fn push_number<W: TextWriter>(out: &mut W, number: u64)
    ensures appended { W.written out.new ≡ W.written out.old ++ decimal number }
{
    let mut digits = Buffer::new();
    out.extend(digits.format(number).as_bytes());
}

/// A number of lines, or `any` where there is no limit.
pub(crate) fn push_limit<W: TextWriter>(out: &mut W, limit: Option<u64>)
    ensures appended { W.written out.new ≡ W.written out.old ++ limit_word limit }
{
    match limit {
        Some(limit) => push_number(out, limit),
        None => out.extend(b"any"),
    }
}

fn push_signed<W: TextWriter>(out: &mut W, number: i64)
    ensures appended { W.written out.new ≡ W.written out.old ++ signed_decimal number }
{
    let mut digits = Buffer::new();
    out.extend(digits.format(number).as_bytes());
}

/// The byte of a name. The addresses of one command have none, and no text names them.
pub(crate) fn name_byte(name: Name) -> u8
    ensures value { name_word name ≡ result ∷ [] }
{
    if name == Name::ZERO {
        return b'0';
    }
    if name == Name::CURRENT_LINE {
        return b'.';
    }
    if name == Name::LAST_LINE {
        return b'$';
    }
    match name.letter() {
        Some(letter) => letter.byte(),
        None => b'a',
    }
}

/// What a zone says of x - y, if anything.
fn push_bound<W: TextWriter>(out: &mut W, x: Name, y: Name, bound: Option<i64>)
    ensures appended { W.written out.new ≡ W.written out.old ++ spaced (bound_words x y bound) }
{
    let Some(number) = bound else {
        return;
    };
    if number == 0 && x == y {
        return;
    }
    out.extend(&[b' ', name_byte(x), b'-', name_byte(y), b'<', b'=']);
    push_signed(out, number);
}

/// All that a zone says. Nothing is written of a bound that isn't known.
pub(crate) fn push_zone<W: TextWriter>(out: &mut W, zone: &KeptZone)
    ensures appended { W.written out.new ≡ W.written out.old ++ spaced (bounds_words 0 zone.now) }
{
    for entry in zone.entries() {
        push_bound(out, entry.x(), entry.y(), entry.bound());
    }
}

/// The letters that are sure, as one word.
pub(crate) fn push_marks<W: TextWriter>(out: &mut W, marks: &Marks)
    ensures appended { W.written out.new ≡ W.written out.old ++ spaced (letters_words (sure_letters letter_a marks.now)) }
{
    let mut begun = false;
    for place in 0..Letter::COUNT {
        let letter = Letter::at(place);
        if marks.is_sure(letter) {
            if !begun {
                out.push(b' ');
                begun = true;
            }
            out.push(letter.byte());
        }
    }
}

fn hexadecimal(digit: u8) -> u8
    requires digit { digit < 16 }
    ensures value { result ≡ hexadecimal digit }
{
    if digit < 10 {
        b'0' + digit
    } else {
        b'a' + (digit - 10)
    }
}

fn push_byte<W: TextWriter>(out: &mut W, byte: u8)
    ensures appended { W.written out.new ≡ W.written out.old ++ byte_text byte }
{
    if b' ' < byte && byte < 127 && byte != b'%' {
        out.push(byte);
    } else {
        out.extend(&[b'%', hexadecimal(byte / 16), hexadecimal(byte % 16)]);
    }
}

pub(crate) fn push_text<W: TextWriter>(out: &mut W, text: &[u8])
    ensures appended { W.written out.new ≡ W.written out.old ++ flat_map byte_text text.now }
{
    for byte in text {
        push_byte(out, *byte);
    }
}

/// None, or a text or path.
pub(crate) fn push_choice<W: TextWriter>(out: &mut W, choice: &Option<Bytes>)
    ensures appended { W.written out.new ≡ W.written out.old ++ space ∷ choice_word choice.now }
{
    match choice {
        Some(text) => push_path(out, text),
        None => out.extend(b" -"),
    }
}

/// A text or path.
pub(crate) fn push_path<W: TextWriter>(out: &mut W, path: &Bytes)
    ensures appended { W.written out.new ≡ W.written out.old ++ space ∷ choice_word (Some path.now) }
{
    out.extend(b" =");
    push_text(out, path.as_slice());
}

/// A word, where what it names is possible.
pub(crate) fn push_possible<W: TextWriter>(out: &mut W, is: bool, word: &[u8])
    ensures appended { W.written out.new ≡ W.written out.old ++ spaced (possible is word.now) }
{
    if is {
        out.push(b' ');
        out.extend(word);
    }
}
