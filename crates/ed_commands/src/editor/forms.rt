//! The forms in which a line is written (XCU ed, "Print Command", "Number Command", "List Command").
ghost use Rattle.std.specs.Prelude.{◌≡◌, ◌∷◌, ◌++◌, [], ◌&&◌, length, nat_le, IfSome, IsNone, OnOk};
ghost use Rattle.ed_base.specs.Lines.{newline};
ghost use Rattle.ed_base.specs.Buffer.{plain_line};
ghost use Rattle.ed_syntax.specs.spelling.Characters.{backslash};
ghost use Rattle.ed_syntax.specs.PublicTypes.{form_value};
ghost use Rattle.ed_syntax.specs.meaning.Forms.{escaped, folded, plainly, written};

use ed_base::{Bytes, push_number};
use ed_syntax::Form;
use std::alloc::AllocError;

// The most bytes in a row of `l`, without the backslash that goes on in the next one.
const ROW_LENGTH: usize = 71;

/// Appends a line as the form writes it, or, on an `Err`, perhaps a part of that. Lines are numbered from 1.
pub fn push_line(
    output: &mut Bytes,
    form: Form,
    number: usize,
    text: &[u8],
) -> Result<(), AllocError>
    ensures appended { OnOk result
        (output.new ≡ output.old ++ written (form_value form) number (plain_line text.now)) }
{
    match form {
        Form::Plain => push_plain(output, text),
        Form::Numbered => {
            push_number(output, number as u64)?;
            output.push(b'\t')?;
            push_plain(output, text)
        }
        Form::Unambiguous => push_unambiguous(output, text),
    }
}

fn push_plain(output: &mut Bytes, text: &[u8]) -> Result<(), AllocError>
    ensures appended { OnOk result (output.new ≡ output.old ++ (text.now ++ newline ∷ [])) }
{
    output.extend_from_slice(text)?;
    output.push(b'\n')
}

/// Appends each byte so that it can be told, in rows that a `\` goes on from, and a `$` at the end.
fn push_unambiguous(output: &mut Bytes, text: &[u8]) -> Result<(), AllocError>
    ensures appended { OnOk result (output.new ≡ output.old ++ folded 0 text.now) }
{
    let mut column = 0;
    for byte in text {
        let places = escaped_len(*byte);
        if column + places > ROW_LENGTH {
            output.extend_from_slice(b"\\\n")?;
            column = 0;
        }
        push_escaped(output, *byte)?;
        column += places;
    }
    output.extend_from_slice(b"$\n")
}

/// Appends a byte so that it can be told (XBD table 5-1): by its name or by three octal digits, both after a backslash, or as
/// itself.
fn push_escaped(output: &mut Bytes, byte: u8) -> Result<(), AllocError>
    ensures appended { OnOk result (output.new ≡ output.old ++ escaped byte) }
{
    match name_of(byte) {
        Some(name) => output.extend_from_slice(&[b'\\', name]),
        None if is_printed(byte) => output.push(byte),
        None => output.extend_from_slice(&[
            b'\\',
            b'0' + byte / 64,
            b'0' + byte / 8 % 8,
            b'0' + byte % 8,
        ]),
    }
}

/// How many bytes `push_escaped` appends.
fn escaped_len(byte: u8) -> usize
    ensures value { result ≡ length (escaped byte) }
{
    match name_of(byte) {
        Some(_) => 2,
        None if is_printed(byte) => 1,
        None => 4,
    }
}

/// What stands after the backslash for a byte that has a name of its own.
fn name_of(byte: u8) -> Option<u8>
    ensures named { IfSome result (λ name. escaped byte ≡ backslash ∷ name ∷ []) }
    ensures unnamed { IsNone result → escaped byte ≡ plainly byte }
{
    match byte {
        0x07 => Some(b'a'),
        0x08 => Some(b'b'),
        b'\t' => Some(b't'),
        0x0b => Some(b'v'),
        0x0c => Some(b'f'),
        b'\r' => Some(b'r'),
        b'$' | b'\\' => Some(byte),
        _ => None,
    }
}

fn is_printed(byte: u8) -> bool
    ensures value { result ≡ (nat_le 32 byte && nat_le byte 126) }
{
    matches!(byte, b' '..=b'~')
}
