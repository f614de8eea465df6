//! A landmark: a line that a start condition names.

ghost use Rattle.std.specs.Prelude.{◌≡◌, IfOk};

use crate::Which;
use ed_base::Texts;
use std::alloc::AllocError;

/// A line of a file, by what is said of it and of the lines around it. The landmark before it is the one that stands before it in a chain;
/// for the first one take line 0.
#[derive(Debug, PartialEq, Eq, Drop)]
pub struct Landmark {
    /// No line between the landmark before it and this one matches one of these.
    pub none: Texts,
    pub which: Which,
    /// It is at least so many lines further down than the landmark before it: from 1 to 999999999.
    pub gap: u32,
    /// At least so many lines come after it: from 0 to 999999999.
    pub tail: u32,
    /// It matches each of these.
    pub also: Texts,
    /// It matches none of these.
    pub lacks: Texts,
}

impl Landmark {
    /// An equal landmark.
    pub fn try_copy(&self) -> Result<Self, AllocError>
        ensures value { IfOk result (λ copy. copy ≡ self.now) }
    {
        Ok(Landmark {
            none: self.none.try_copy()?,
            which: self.which.try_copy()?,
            gap: self.gap,
            tail: self.tail,
            also: self.also.try_copy()?,
            lacks: self.lacks.try_copy()?,
        })
    }
}
