//! Which line a landmark is.

ghost use Rattle.std.specs.Prelude.{◌≡◌, IfOk};

use ed_base::Bytes;
use std::alloc::AllocError;

/// The line that is looked for. A pattern is the text of a basic regular expression (XBD 9.3), without delimiters.
#[derive(Debug, PartialEq, Eq, Drop)]
pub enum Which {
    /// The first line below the landmark before it, or of the file, that matches the pattern.
    First(Bytes),
    /// The same, and no other line of the file matches the pattern.
    Only(Bytes),
    /// The line of this number, from 1 to 999999999.
    Numbered(u32),
}

impl Which {
    /// The same line.
    pub fn try_copy(&self) -> Result<Self, AllocError>
        ensures value { IfOk result (λ copy. copy ≡ self.now) }
    {
        match self {
            Which::First(pattern) => Ok(Which::First(pattern.try_copy()?)),
            Which::Only(pattern) => Ok(Which::Only(pattern.try_copy()?)),
            Which::Numbered(number) => Ok(Which::Numbered(*number)),
        }
    }
}
