//! What becomes of a line.
ghost use Rattle.std.specs.Prelude.{◌≡◌};
ghost use Rattle.unified_diff.specs.DiffText.{sign_byte, colour_on, colour_off};

/// Whether a line of a hunk is in both files, in the old one alone, or in the new one alone.
#[derive(Clone, Copy, Debug, PartialEq, Eq)]
pub enum Sign {
    Kept,
    Removed,
    Added,
}

impl Sign {
    /// The byte that stands before a line.
    pub(crate) fn byte(self) -> u8
        ensures value { result ≡ sign_byte self }
    {
        match self {
            Sign::Kept => b' ',
            Sign::Removed => b'-',
            Sign::Added => b'+',
        }
    }

    /// What turns a line's colour on.
    pub(crate) fn colour_on(self) -> &'static [u8]
        ensures value { result.now ≡ colour_on self }
    {
        match self {
            Sign::Kept => b"",
            Sign::Removed => b"\x1b[31m",
            Sign::Added => b"\x1b[32m",
        }
    }

    /// What turns it off.
    pub(crate) fn colour_off(self) -> &'static [u8]
        ensures value { result.now ≡ colour_off self }
    {
        match self {
            Sign::Kept => b"",
            Sign::Removed | Sign::Added => b"\x1b[0m",
        }
    }
}
