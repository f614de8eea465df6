//! Bytes in pieces, of which some are parts of blocks that others share.
ghost use Rattle.std.specs.Prelude.{◌≡◌, ◌≤◌, ◌++◌, [], None, length, slice_range, IsTrue, false, IfOk, OnOk, OnErr};
ghost use Rattle.std.specs.List.{concat};
ghost use Rattle.ed_base.specs.Pieces.{bytes_or_none};

use crate::part::Part;
use crate::walk::ByteWalk;
use crate::{Bytes, Walk};
use std::alloc::{AllocError, Global};
use std::marker::Model;
use std::mem::replace;
use std::rc::Rc;

// A shorter part isn't worth a piece of its own: its bytes are copied.
const SHORT: usize = 64;

// So many bytes or more become a part of their own. To tell whether the last part could grow over them, all would be compared, as many
// as a whole file has, and that would save a part's 24 bytes and a call of the system: nothing beside so many bytes. Fewer are better
// joined: pieces of which two fit into 64 KiB are copied once more, to be written together.
const LONG: usize = 1 << 16;

/// Bytes in pieces, of which some are parts of blocks that others share. A contract sees the bytes, one after another.
#[derive(Debug, Drop)]
pub struct Pieces {
    alloc: Global,
    // The pieces that stay as they are.
    closed: Vec<Part>,
    // After them bytes that are only here,
    own: Bytes,
    // and after these a part that may still grow.
    last: Option<Part>,
    count: usize,
}

impl Model for Pieces {
    ghost use Rattle.std.specs.Prelude.{◌≡◌, ◌++◌, ℕ, List, length};
    ghost use Rattle.std.specs.List.{concat};
    ghost use Rattle.ed_base.specs.Pieces.{bytes_or_none};

    ghost Value = { List ℕ };

    ghost view = { λ p. concat p.closed.items ++ (p.own ++ bytes_or_none p.last) };

    ghost invariant = { λ p. p.count ≡ length (concat p.closed.items ++ (p.own ++ bytes_or_none p.last)) };
}

impl Pieces {
    /// No bytes. It takes no memory.
    pub fn new(alloc: Global) -> Self
        ensures value { result ≡ [] }
    {
        Pieces {
            alloc,
            closed: Vec::new(alloc),
            own: Bytes::new(alloc),
            last: None,
            count: 0,
        }
    }

    /// These bytes as one piece. It takes no memory.
    pub fn from_bytes(alloc: Global, bytes: Bytes) -> Self
        ensures value { result ≡ bytes }
    {
        let count = bytes.len();
        Pieces {
            alloc,
            closed: Vec::new(alloc),
            own: bytes,
            last: None,
            count,
        }
    }

    /// How many bytes there are.
    pub fn len(&self) -> usize
        ensures value { result ≡ length self.now }
    {
        self.count // No piece is looked at.
    }

    /// Appends a copy of all of these bytes or, on an `Err`, none.
    pub fn extend_from_slice(&mut self, bytes: &[u8]) -> Result<(), AllocError>
        ensures appended { OnOk result (self.new ≡ self.old ++ bytes.now) }
        ensures unchanged { OnErr result (self.new ≡ self.old) }
    {
        let Some(count) = self.count.checked_add(bytes.len()) else {
            return Err(AllocError);
        };
        close_part(self.alloc, &mut self.closed, &mut self.own, &mut self.last)?;
        self.own.extend_from_slice(bytes)?;
        self.count = count;
        Ok(())
    }

    /// Appends the bytes of a block from one place up to another, which it shares unless they are few, or, on an `Err`, none.
    pub fn extend_from_block(
        &mut self,
        block: &Rc<Bytes>,
        start: usize,
        end: usize,
    ) -> Result<(), AllocError>
        requires order { start ≤ end }
        requires within { end ≤ length block.now.value }
        ensures appended { OnOk result (self.new ≡ self.old ++ slice_range block.now.value start end) }
        ensures unchanged { OnErr result (self.new ≡ self.old) }
    {
        if start == end {
            return Ok(());
        }
        let Some(count) = self.count.checked_add(end - start) else {
            return Err(AllocError);
        };
        if !grow_part(&mut self.last, start, &block.as_slice()[start..end]) {
            let part = Part::of(block, start, end)?;
            close_part(self.alloc, &mut self.closed, &mut self.own, &mut self.last)?;
            self.last = Some(part);
        }
        self.count = count;
        Ok(())
    }

    /// A copy of all bytes, one after another.
    pub fn to_bytes(&self, alloc: Global) -> Result<Bytes, AllocError>
        ensures value { IfOk result (λ bytes. bytes ≡ self.now) }
    {
        let mut bytes = Bytes::new(alloc);
        bytes.reserve(self.count)?;
        let mut walk = self.walk();
        while let Some(piece) = walk.next_piece() {
            bytes.extend_from_slice(piece)?;
        }
        Ok(bytes)
    }

    /// The pieces in order, to be gone through.
    pub fn walk(&self) -> Walk<'_>
        ensures value { result ≡ self.now }
    {
        let last = match &self.last {
            Some(part) => part.as_slice(),
            None => &[],
        };
        Walk::new(self.closed.as_slice(), self.own.as_slice(), last)
    }
}

/// Lets a last part grow over these bytes, if they follow it in its block and aren't too many to be compared.
fn grow_part(last: &mut Option<Part>, place: usize, bytes: &[u8]) -> bool
    ensures grown { IsTrue result → bytes_or_none last.new ≡ bytes_or_none last.old ++ bytes.now }
    ensures unchanged { result ≡ false → bytes_or_none last.new ≡ bytes_or_none last.old }
{
    match last {
        Some(part) if bytes.len() < LONG => part.grow(place, bytes),
        _ => false,
    }
}

/// Closes the last part: a short one becomes bytes of its own, a longer one a piece that stays as it is.
fn close_part(
    alloc: Global,
    closed: &mut Vec<Part>,
    own: &mut Bytes,
    last: &mut Option<Part>,
) -> Result<(), AllocError>
    ensures none { OnOk result (last.new ≡ None) }
    ensures same { concat closed.new.items ++ (own.new ++ bytes_or_none last.new)
        ≡ concat closed.old.items ++ (own.old ++ bytes_or_none last.old) }
{
    let Some(part) = last else {
        return Ok(());
    };
    if part.as_slice().len() < SHORT {
        own.extend_from_slice(part.as_slice())?;
        *last = None;
        return Ok(());
    }
    close_own(alloc, closed, own)?;
    closed.reserve(1)?;
    if let Some(part) = last.take() {
        closed.push_reserved(part);
    }
    Ok(())
}

/// Closes the bytes of its own, if there are any: they become a piece that stays as it is.
fn close_own(alloc: Global, closed: &mut Vec<Part>, own: &mut Bytes) -> Result<(), AllocError>
    ensures none { OnOk result (own.new ≡ []) }
    ensures same { concat closed.new.items ++ own.new ≡ concat closed.old.items ++ own.old }
{
    if own.is_empty() {
        return Ok(());
    }
    closed.reserve(1)?;
    match Part::whole(alloc, replace(own, Bytes::new(alloc))) {
        Ok(part) => {
            closed.push_reserved(part);
            Ok(())
        }
        Err(back) => {
            *own = back;
            Err(AllocError)
        }
    }
}

impl PartialEq for Pieces {
    ghost use Rattle.std.specs.Prelude.{nat_eq};
    ghost use Rattle.std.specs.Cmp.Lexicographic.{pointwise};

    ghost eq = { λ a b. pointwise nat_eq a b };

    fn eq(&self, other: &Self) -> bool {
        let mut these = ByteWalk::new(self.walk());
        let mut those = ByteWalk::new(other.walk());
        loop {
            match (these.next_byte(), those.next_byte()) {
                (Some(this), Some(that)) => {
                    if this != that {
                        return false;
                    }
                }
                (None, None) => return true,
                _ => return false,
            }
        }
    }

    ghost use Rattle.std.proofs.Common.{rules};

    ghost laws = { Prim.search rules };
}

impl Eq for Pieces {
    ghost use Rattle.std.proofs.Common.{rules};

    ghost laws = { Prim.search rules };
}
