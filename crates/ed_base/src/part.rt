//! A part of a block of bytes, which others may share.
ghost use Rattle.std.specs.Prelude.{◌≡◌, ◌<◌, ◌≤◌, ◌++◌, length, slice_range, IsTrue, true, false, IfOk, IfErr};

use crate::Bytes;
use std::alloc::{AllocError, Global};
use std::fmt;
use std::fmt::{Debug, Formatter, Write};
use std::marker::Model;
use std::rc::Rc;

/// Some bytes, at least one, that stand in a row in a block. The block goes with the last of those that share it.
#[derive(Drop)]
pub(crate) struct Part {
    block: Rc<Bytes>,
    start: usize,
    end: usize,
}

impl Model for Part {
    ghost use Rattle.std.specs.Prelude.{ℕ, ◌<◌, ◌≤◌, List, length, slice_range};

    ghost Value = { List ℕ };

    ghost view = { λ p. slice_range p.block.value p.start p.end };

    ghost invariant = { λ p. (p.start < p.end) × (p.end ≤ length p.block.value) };
}

impl Part {
    /// The bytes of a block from one place up to another. An `Err` comes only where more parts share the block than can be counted.
    pub(crate) fn of(block: &Rc<Bytes>, start: usize, end: usize) -> Result<Part, AllocError>
        requires some { start < end }
        requires within { end ≤ length block.now.value }
        ensures value { IfOk result (λ part. part ≡ slice_range block.now.value start end) }
    {
        Ok(Part {
            block: block.clone()?,
            start,
            end,
        })
    }

    /// All of these bytes, as a block that no other shares yet. Where it is refused, they come back.
    pub(crate) fn whole(alloc: Global, bytes: Bytes) -> Result<Part, Bytes>
        requires some { 0 < length bytes }
        ensures value { IfOk result (λ part. part ≡ bytes) }
        ensures handed_back { IfErr result (λ back. back ≡ bytes) }
    {
        let end = bytes.len();
        match Rc::new(alloc, bytes) {
            Ok(block) => Ok(Part {
                block,
                start: 0,
                end,
            }),
            Err(refused) => Err(refused.value),
        }
    }

    pub(crate) fn as_slice(&self) -> &[u8]
        ensures value { result.now ≡ self.now }
        ensures some { 0 < length result.now }
    {
        &self.block.as_slice()[self.start..self.end]
    }

    /// Grows over these bytes, if it ends at this place of its block and just these bytes follow there. Whether the block is the
    /// one that they stand in plays no part.
    pub(crate) fn grow(&mut self, place: usize, bytes: &[u8]) -> bool
        ensures grown { IsTrue result → self.new ≡ self.old ++ bytes.now }
        ensures unchanged { result ≡ false → self.new ≡ self.old }
    {
        if self.end != place {
            return false;
        }
        let after = &self.block.as_slice()[place..];
        if !after.starts_with(bytes) {
            return false;
        }
        self.end += bytes.len();
        true
    }
}

/// Only the part is printed, and not its whole block.
impl Debug for Part {
    fn fmt<W: Write>(&self, f: &mut Formatter<W>) -> fmt::Result {
        self.as_slice().fmt(f)
    }
}
