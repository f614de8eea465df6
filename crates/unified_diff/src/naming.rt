//! Names of files above a diff.
ghost use Rattle.std.specs.Prelude.{◌≡◌, ◌∷◌, ◌++◌, ◌&&◌, [], nat_le, flat_map, IsNone, IfSome, OnOk};
ghost use Rattle.std.specs.List.{list_all};
ghost use Rattle.unified_diff.specs.Names.{plainly, escaped, is_bare, shown_name};

use ed_base::Bytes;
use std::alloc::AllocError;

/// Appends a name: as it is, or as a string of C where a byte would end it or can't be seen.
pub(crate) fn push_shown(text: &mut Bytes, name: &[u8]) -> Result<(), AllocError>
    ensures appended { OnOk result (text.new ≡ text.old ++ shown_name name.now) }
{
    if is_all_bare(name) {
        return text.extend_from_slice(name);
    }
    text.push(b'"')?;
    push_all_escaped(text, name)?;
    text.push(b'"')
}

/// Whether no byte needs quotes.
fn is_all_bare(name: &[u8]) -> bool
    ensures value { result ≡ list_all is_bare name.now }
{
    name.iter().all(|byte| is_bare(*byte))
}

fn is_bare(byte: u8) -> bool
    ensures value { result ≡ is_bare byte }
{
    33 <= byte && byte <= 126 && byte != b'"' && byte != b'\\'
}

/// Appends these bytes as they stand within a string of C.
fn push_all_escaped(text: &mut Bytes, name: &[u8]) -> Result<(), AllocError>
    ensures appended { OnOk result (text.new ≡ text.old ++ flat_map escaped name.now) }
{
    for byte in name {
        push_escaped(text, *byte)?;
    }
    Ok(())
}

/// Appends a byte as it stands within a string of C: by its name or by three octal digits, both after a backslash, or as itself.
fn push_escaped(text: &mut Bytes, byte: u8) -> Result<(), AllocError>
    ensures appended { OnOk result (text.new ≡ text.old ++ escaped byte) }
{
    match name_of(byte) {
        Some(name) => text.extend_from_slice(&[b'\\', name]),
        None if is_printed(byte) => text.push(byte),
        None => text.extend_from_slice(&[
            b'\\',
            b'0' + byte / 64,
            b'0' + byte / 8 % 8,
            b'0' + byte % 8,
        ]),
    }
}

/// What stands after the backslash for a byte that has a name of its own.
fn name_of(byte: u8) -> Option<u8>
    ensures named { IfSome result (λ name. escaped byte ≡ 92 ∷ name ∷ []) }
    ensures unnamed { IsNone result → escaped byte ≡ plainly byte }
{
    match byte {
        0x07 => Some(b'a'),
        0x08 => Some(b'b'),
        b'\t' => Some(b't'),
        b'\n' => Some(b'n'),
        0x0b => Some(b'v'),
        0x0c => Some(b'f'),
        b'\r' => Some(b'r'),
        b'"' | b'\\' => Some(byte),
        _ => None,
    }
}

fn is_printed(byte: u8) -> bool
    ensures value { result ≡ (nat_le 32 byte && nat_le byte 126) }
{
    matches!(byte, b' '..=b'~')
}
