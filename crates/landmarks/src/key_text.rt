//! The bytes between delimiters.

ghost use Rattle.std.specs.Prelude.{◌≡◌, ◌≢◌, ◌++◌, length, MatchOption, Some, None, IfOk, OnOk, IsTrue};
ghost use Rattle.ed_syntax.specs.reading.Tokens.{unescaped, quoted};
ghost use Rattle.landmarks.specs.Words.{is_key_delimiter};

use bre_parse::after_bracket;
use ed_base::Bytes;
use std::alloc::{AllocError, Global};

/// What stands up to the delimiter or the text's end, as the pattern has it, and the bytes from there on. `None` where a bracket expression
/// or an escape isn't whole.
pub fn quoted(
    alloc: Global,
    delimiter: u8,
    bytes: &[u8],
) -> Result<Option<(Bytes, &[u8])>, AllocError>
    requires delimits { IsTrue (is_key_delimiter delimiter) }
    ensures value { IfOk result (λ read. MatchOption read (quoted (length bytes.now) delimiter bytes.now ≡ None)
        (λ (text, rest). quoted (length bytes.now) delimiter bytes.now ≡ Some (text, rest.now))) }
{
    let mut text = Bytes::new(alloc);
    let mut left = bytes;
    'bytes: while let [byte, rest @ ..] = left {
        if *byte == delimiter {
            return Ok(Some((text, left)));
        }
        left = match *byte {
            b'\\' => match rest {
                [escaped, rest @ ..] => {
                    push_unescaped(&mut text, delimiter, *escaped)?;
                    rest
                }
                [] => return Ok(None),
            },
            b'[' => match after_bracket(alloc, rest)? {
                Some(after) => {
                    text.extend_from_slice(&left[..left.len() - after.len()])?;
                    after
                }
                None => return Ok(None),
            },
            ordinary => {
                text.push(ordinary)?;
                rest
            }
        };
    }
    Ok(Some((text, left)))
}

/// What a backslash and a byte are in a pattern: the delimiter loses its backslash.
fn push_unescaped(text: &mut Bytes, delimiter: u8, byte: u8) -> Result<(), AllocError>
    requires delimits { IsTrue (is_key_delimiter delimiter) }
    ensures appended { OnOk result (text.new ≡ text.old ++ unescaped delimiter byte) }
{
    if byte != delimiter {
        text.push(b'\\')?;
    }
    text.push(byte)
}
