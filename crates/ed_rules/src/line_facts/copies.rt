//! Copies of facts of lines.

ghost use Rattle.std.specs.Prelude.{◌≡◌, IfOk, OnOk, OnErr};

use crate::line_facts::{ClearStretch, KnownLine, LineFacts};
use std::alloc::AllocError;

impl KnownLine {
    pub(crate) fn try_copy(&self) -> Result<KnownLine, AllocError>
        ensures value { IfOk result (λ copy. copy ≡ self.now) }
    {
        Ok(KnownLine {
            name: self.name,
            pattern: self.pattern.try_copy()?,
            matches: self.matches,
        })
    }
}

impl ClearStretch {
    pub(crate) fn try_copy(&self) -> Result<ClearStretch, AllocError>
        ensures value { IfOk result (λ copy. copy ≡ self.now) }
    {
        Ok(ClearStretch {
            after: self.after,
            before: self.before,
            pattern: self.pattern.try_copy()?,
        })
    }
}

impl LineFacts {
    fn copied_lines(&self) -> Result<Vec<KnownLine>, AllocError>
        ensures value { IfOk result (λ lines. lines.items ≡ self.now.lines) }
    {
        let mut lines = Vec::new(*self.lines.allocator());
        for fact in &self.lines {
            lines.push(fact.try_copy()?)?;
        }
        Ok(lines)
    }

    fn copied_clear(&self) -> Result<Vec<ClearStretch>, AllocError>
        ensures value { IfOk result (λ clear. clear.items ≡ self.now.clear) }
    {
        let mut clear = Vec::new(*self.clear.allocator());
        for stretch in &self.clear {
            clear.push(stretch.try_copy()?)?;
        }
        Ok(clear)
    }

    /// Equal facts, made by the same allocators. Where nothing is known it takes no memory.
    pub fn try_copy(&self) -> Result<LineFacts, AllocError>
        ensures value { IfOk result (λ copy. copy ≡ self.now) }
    {
        Ok(LineFacts {
            lines: self.copied_lines()?,
            clear: self.copied_clear()?,
        })
    }

    /// Become equal ones. After an `Err` they are as they were.
    pub(crate) fn try_copy_from(&mut self, other: &LineFacts) -> Result<(), AllocError>
        ensures value { OnOk result (self.new ≡ other.now) }
        ensures unchanged { OnErr result (self.new ≡ self.old) }
    {
        *self = other.try_copy()?;
        Ok(())
    }
}
