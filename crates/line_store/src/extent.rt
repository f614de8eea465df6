//! How far a line reaches in its block, and whether it has the flag, in four bytes.
ghost use Rattle.std.specs.Prelude.{◌≡◌, ◌<◌, ◌≤◌, ◌^◌};
ghost use Rattle.line_store.specs.Extents.{line_end, whole};

use std::marker::Model;

/// What stands in place of the number of bytes where a line is its whole block, however long that is.
pub(crate) const WHOLE: u32 = 2147483647;

/// The number of a line's bytes, or `WHOLE`, and its flag.
#[derive(Drop)]
pub(crate) struct Extent {
    // Twice the number, and one more where the line has the flag.
    doubled: u32,
}

impl Model for Extent {
    ghost use Rattle.std.specs.Prelude.{◌/◌, ◌%◌, nat_eq};
    ghost use Rattle.line_store.specs.Extents.{ExtentValue};

    ghost Value = { ExtentValue };

    ghost view = { λ e. record { size = e.doubled / 2; flag = nat_eq (e.doubled % 2) 1 } };
}

impl Extent {
    /// So many bytes, or `WHOLE`.
    pub(crate) fn new(size: u32, flag: bool) -> Self
        requires size { size ≤ whole }
        ensures value { result ≡ record { size = size; flag = flag } }
    {
        Extent {
            doubled: size * 2 + u32::from(flag),
        }
    }

    /// How many bytes, or `WHOLE`.
    pub(crate) fn size(&self) -> u32
        ensures value { result ≡ self.now.size }
        ensures bound { result ≤ whole }
    {
        self.doubled / 2
    }

    pub(crate) fn flag(&self) -> bool
        ensures value { result ≡ self.now.flag }
    {
        self.doubled % 2 == 1
    }

    /// As many bytes, with the flag or without it.
    pub(crate) fn with_flag(&self, flag: bool) -> Self
        ensures value { result ≡ record self.now { flag = flag } }
    {
        Extent::new(self.size(), flag)
    }

    /// As many bytes, and the flag likewise.
    pub(crate) fn copy(&self) -> Self
        ensures value { result ≡ self.now }
    {
        Extent {
            doubled: self.doubled,
        }
    }

    /// Where a line that begins at a place ends in a block of so many bytes.
    pub(crate) fn end(&self, start: u32, block: usize) -> usize
        ensures value { result ≡ line_end start self.now.size block }
    {
        if self.size() == WHOLE {
            return block;
        }
        start as usize + self.size() as usize
    }
}
