//! Where the text of a command stands in its bytes.
ghost use Rattle.std.specs.Prelude.{◌≤◌, length};

use crate::script_lines::cut_text;
use ed_base::next_line;

/// Where the text of a command stands. Places are counted from the command's first byte, which is 0.
#[derive(Clone, Copy, Debug, PartialEq, Eq)]
pub struct TextPlace {
    /// The place of its first byte, after the command's own line.
    pub low: usize,
    /// The place after its last byte, where the line `.` begins that closes it.
    pub high: usize,
    /// Whether a line `.` closes it. If not, it goes on to the end of the script or list.
    pub closed: bool,
}

/// Where the text stands that begins after the first line of these bytes: those of a command with a text, as `places` tells them, or as
/// `list_places` does, but without the backslashes that join their lines. It takes no memory. No clause says so, as for
/// `places`.
pub fn text_place(command: &[u8]) -> TextPlace {
    let later = after_line(command);
    let (entered, _rest, _passed) = cut_text(later);
    let low = command.len() - later.len();
    let high = low + entered.len();
    let closed = high < command.len();
    TextPlace { low, high, closed }
}

/// The bytes after the first line.
fn after_line(bytes: &[u8]) -> &[u8]
    ensures shorter { length result.now ≤ length bytes.now }
{
    match next_line(bytes) {
        Some((_line, rest)) => rest,
        None => bytes,
    }
}
