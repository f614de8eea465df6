//! Lines without letters, which may share the block that their bytes stand in.
ghost use Rattle.std.specs.Prelude.{◌≡◌, ◌↔◌, ◌+◌, ◌<◌, ◌≤◌, [], ◌∷◌, ◌++◌, drop, length, map, min, nat_eq, slice_index_or, slice_range, take, IsNone, IsTrue, IfOk, IfSome, OnOk, OnErr};
ghost use Rattle.std.specs.Bool.{OnTrue, OnFalse};
ghost use Rattle.std.specs.VecDeque.{deque_capacity};
ghost use Rattle.ed_base.specs.Lines.{newline, IsLine, bytes_of, lines_of};
ghost use Rattle.ed_base.specs.Buffer.{plain_line, texts, with_flag};
ghost use Rattle.ed_base.specs.Parts.{block};
ghost use Rattle.line_store.specs.Chunks.{full};
ghost use Rattle.line_store.specs.Kept.{flag_count};
ghost use Rattle.line_store.specs.Runs.{RunOf};

use crate::Line;
use crate::chunk::FULL;
use crate::extent::{Extent, WHOLE};
use crate::run::LineRun;
use ed_base::{Bytes, Pieces, count_lines, next_line};
use std::alloc::{AllocError, Global};
use std::collections::VecDeque;
use std::marker::Model;
use std::rc::Rc;

/// A line without the letters that mark it: its bytes, any but a newline, and its flag. The bytes are a part of a block that
/// other lines may share, and which goes with the last of them. A line takes 16 bytes beside its block.
#[derive(Drop)]
pub struct BareLine {
    block: Rc<Bytes>,
    start: u32,
    extent: Extent,
}

const _: () = prove!(size_of::<BareLine>() == 16);

impl Model for BareLine {
    ghost use Rattle.std.specs.Prelude.{◌≤◌, length, slice_range};
    ghost use Rattle.ed_base.specs.Lines.{IsLine};
    ghost use Rattle.ed_base.specs.Buffer.{Line, no_letters};
    ghost use Rattle.line_store.specs.Extents.{line_end};

    ghost Value = { Line };

    ghost view = { λ b. record {
      bytes = slice_range b.block.value b.start (line_end b.start b.extent.size (length b.block.value));
      letters = no_letters;
      flag = b.extent.flag;
    } };

    ghost invariant = { λ b. (b.start ≤ line_end b.start b.extent.size (length b.block.value))
        × (line_end b.start b.extent.size (length b.block.value) ≤ length b.block.value)
        × IsLine (slice_range b.block.value b.start (line_end b.start b.extent.size (length b.block.value))) };
}

impl BareLine {
    /// The line of these bytes, which it shares with no other, without the flag.
    pub(crate) fn new(alloc: Global, bytes: Bytes) -> Result<Self, AllocError>
        requires line { IsLine bytes }
        ensures value { IfOk result (λ line. line ≡ plain_line bytes) }
    {
        Ok(BareLine {
            block: Rc::new(alloc, bytes)?,
            start: 0,
            extent: Extent::new(WHOLE, false),
        })
    }

    /// The line of a part of a block, without the flag. It shares the block or, where the part begins or reaches too far for
    /// that, has a copy of its bytes.
    fn part(alloc: Global, block: &Rc<Bytes>, start: usize, size: usize) -> Result<Self, AllocError>
        requires within { start + size ≤ length block.now.value }
        requires line { IsLine (slice_range block.now.value start (start + size)) }
        ensures value { IfOk result (λ line. line ≡ plain_line (slice_range block.now.value start (start + size))) }
    {
        if start <= u32::MAX as usize && size < WHOLE as usize {
            return Ok(BareLine {
                block: block.clone()?,
                start: start as u32,
                extent: Extent::new(size as u32, false),
            });
        }
        let bytes = &block.as_slice()[start..start + size];
        BareLine::new(alloc, Bytes::from_slice(alloc, bytes)?)
    }

    pub(crate) fn as_slice(&self) -> &[u8]
        ensures value { result.now ≡ self.now.bytes }
        ensures line { IsLine result.now }
    {
        let block = self.block.as_slice();
        &block[self.start as usize..self.extent.end(self.start, block.len())]
    }

    /// Appends its bytes and a newline, which share its block as far as they stand there.
    pub(crate) fn push_to(&self, output: &mut Pieces) -> Result<(), AllocError>
        ensures appended { OnOk result (output.new ≡ output.old ++ (self.now.bytes ++ newline ∷ [])) }
        ensures line { IsLine self.now.bytes }
    {
        let block = self.block.as_slice();
        let start = self.start as usize;
        let end = self.extent.end(self.start, block.len());
        if end < block.len() && block[end] == b'\n' {
            return output.extend_from_block(&self.block, start, end + 1);
        }
        output.extend_from_block(&self.block, start, end)?;
        output.extend_from_slice(b"\n")
    }

    pub(crate) fn flag(&self) -> bool
        ensures value { result ≡ self.now.flag }
    {
        self.extent.flag()
    }

    /// The line with the flag or without it.
    pub(crate) fn set_flag(&mut self, flag: bool)
        ensures value { self.new ≡ with_flag flag self.old }
    {
        self.extent = self.extent.with_flag(flag);
    }

    /// The line without the flag.
    pub(crate) fn plain(self) -> Self
        ensures value { result ≡ plain_line self.bytes }
    {
        let BareLine {
            block,
            start,
            extent,
        } = self;
        BareLine {
            block,
            start,
            extent: extent.with_flag(false),
        }
    }

    /// A line of the same bytes, which both share, without the flag.
    pub(crate) fn plain_copy(&self) -> Result<Self, AllocError>
        ensures value { IfOk result (λ copy. copy ≡ plain_line self.now.bytes) }
    {
        Ok(BareLine {
            block: self.block.clone()?,
            start: self.start,
            extent: self.extent.with_flag(false),
        })
    }

    /// The same line once more, which shares its bytes.
    pub(crate) fn try_copy(&self) -> Result<Self, AllocError>
        ensures value { IfOk result (λ copy. copy ≡ self.now) }
    {
        Ok(BareLine {
            block: self.block.clone()?,
            start: self.start,
            extent: self.extent.copy(),
        })
    }
}

/// The lines of a file's bytes, one after the other. However many they are, the bytes stand in memory once, till the last of
/// the lines is gone. A contract sees the bytes whose lines are still to come.
#[derive(Drop)]
pub struct FileLines {
    alloc: Global,
    block: Rc<Bytes>,
    next: usize,
}

impl Model for FileLines {
    ghost use Rattle.std.specs.Prelude.{ℕ, ◌≤◌, List, drop, length};

    ghost Value = { List ℕ };

    ghost view = { λ f. drop f.next f.block.value };

    ghost invariant = { λ f. f.next ≤ length f.block.value };
}

/// Whether a newline ends the bytes, or there are none.
fn is_ended(bytes: &[u8]) -> bool
    ensures ended { OnTrue result (bytes_of (lines_of bytes.now) ≡ bytes.now) }
    ensures lacks { OnFalse result (bytes_of (lines_of bytes.now) ≡ bytes.now ++ newline ∷ []) }
{
    match bytes {
        [] => true,
        [_front @ .., last] => *last == b'\n',
    }
}

impl FileLines {
    /// All lines of these bytes are to come.
    pub fn new(alloc: Global, bytes: Bytes) -> Result<Self, AllocError>
        ensures value { IfOk result (λ file. file ≡ bytes) }
    {
        Ok(FileLines::shared(alloc, Rc::new(alloc, bytes)?))
    }

    /// All lines of a block's bytes are to come. It shares the block, and takes no memory.
    pub fn shared(alloc: Global, block: Rc<Bytes>) -> Self
        ensures value { result ≡ block.value }
    {
        FileLines {
            alloc,
            block,
            next: 0,
        }
    }

    /// The next line, without letters or flag; none after the last one, which may lack its newline. It copies no bytes but those
    /// of a line that begins after the first four gibibytes or is longer than two. An `Err` comes only where there is no memory
    /// for such a copy, or where more lines share the bytes than can be counted, and leaves the lines as they are.
    pub fn next_line(&mut self) -> Result<Option<Line>, AllocError>
        ensures ended { IfOk result (λ next. IsNone next ↔ (self.old ≡ [])) }
        ensures first { IfOk result (λ next. IfSome next (λ line.
            (line ≡ plain_line line.bytes) × (lines_of self.old ≡ line.bytes ∷ lines_of self.new))) }
        ensures unchanged { OnErr result (self.new ≡ self.old) }
    {
        let bytes = self.block.as_slice();
        let Some((text, rest)) = next_line(&bytes[self.next..]) else {
            return Ok(None);
        };
        let after = bytes.len() - rest.len();
        let line = BareLine::part(self.alloc, &self.block, self.next, text.len())?;
        self.next = after;
        Ok(Some(Line::of(line)))
    }

    /// The next lines, as many as fill a chunk or are left, without flags. They stand in a ring that has room for a whole chunk,
    /// and are a run. An `Err` comes where there is no memory for the ring, or for one of the lines as in `next_line`.
    pub(crate) fn next_ring(&mut self) -> Result<(VecDeque<BareLine>, LineRun), AllocError>
        ensures lines { IfOk result (λ (ring, run). lines_of self.old ≡ texts ring.items ++ lines_of self.new) }
        ensures count { IfOk result (λ (ring, run). length ring.items ≡ min full (length (lines_of self.old))) }
        ensures room { IfOk result (λ (ring, run). full ≤ deque_capacity ring) }
        ensures plain { IfOk result (λ (ring, run). ring.items ≡ map plain_line (texts ring.items)) }
        ensures unflagged { IfOk result (λ (ring, run). flag_count ring.items ≡ 0) }
        ensures run { IfOk result (λ (ring, run). RunOf run ring.items) }
        ensures unchanged { OnErr result (self.new ≡ self.old) }
    {
        let mut row = Vec::with_capacity(self.alloc, FULL)?;
        let bytes = self.block.as_slice();
        let mut next = self.next;
        let mut ended = true;
        'lines: while row.len() < FULL {
            let Some((text, rest)) = next_line(&bytes[next..]) else {
                break;
            };
            let line = BareLine::part(self.alloc, &self.block, next, text.len())?;
            let end = next + text.len();
            next = bytes.len() - rest.len();
            ended = end < next;
            row.push_reserved(line);
        }
        let run = LineRun::of(&self.block, self.next, next, ended)?;
        self.next = next;
        Ok((VecDeque::from_vec(row), run))
    }

    /// The same lines once more, of the same bytes. An `Err` comes only where more share the bytes than can be counted.
    pub(crate) fn try_copy(&self) -> Result<Self, AllocError>
        ensures value { IfOk result (λ copy. copy ≡ self.now) }
    {
        Ok(FileLines {
            alloc: self.alloc,
            block: self.block.clone()?,
            next: self.next,
        })
    }

    /// The bytes of the lines that are still to come.
    pub fn as_slice(&self) -> &[u8]
        ensures value { result.now ≡ self.now }
    {
        &self.block.as_slice()[self.next..]
    }

    /// How many lines there are. Their newlines are counted, and no line is cut.
    pub(crate) fn count(&self) -> usize
        ensures value { result ≡ length (lines_of self.now) }
    {
        count_lines(&self.block.as_slice()[self.next..])
    }

    /// The bytes of a line. All lines before it are passed.
    pub(crate) fn text(&self, i: usize) -> &[u8]
        requires place { i < length (lines_of self.now) }
        ensures value { result.now ≡ slice_index_or (lines_of self.now) i [] }
        ensures line { IsLine result.now }
    {
        let mut rest = &self.block.as_slice()[self.next..];
        for _i in 0..i {
            let Some((_line, after)) = next_line(rest) else {
                unreachable!()
            };
            rest = after;
        }
        let Some((line, _after)) = next_line(rest) else {
            unreachable!()
        };
        line
    }

    /// Passes so many lines. An `Err` comes where `next_line` has one.
    pub(crate) fn skip(&mut self, n: usize) -> Result<(), AllocError>
        requires enough { n ≤ length (lines_of self.old) }
        ensures left { OnOk result (lines_of self.new ≡ drop n (lines_of self.old)) }
    {
        for _i in 0..n {
            let Some(_line) = self.next_line()? else {
                unreachable!()
            };
        }
        Ok(())
    }

    /// Appends the bytes of the next lines, each with a newline, line by line.
    pub(crate) fn push_next(&mut self, n: usize, output: &mut Pieces) -> Result<(), AllocError>
        requires enough { n ≤ length (lines_of self.old) }
        ensures appended { OnOk result (output.new ≡ output.old ++ bytes_of (take n (lines_of self.old))) }
    {
        for _i in 0..n {
            let Some(line) = self.next_line()? else {
                unreachable!()
            };
            line.into_bare().push_to(output)?;
        }
        Ok(())
    }

    /// Appends the bytes of all lines, each with a newline, at once. They share the block.
    pub(crate) fn push_all(&self, output: &mut Pieces) -> Result<(), AllocError>
        ensures appended { OnOk result (output.new ≡ output.old ++ bytes_of (lines_of self.now)) }
    {
        let bytes = self.block.as_slice();
        output.extend_from_block(&self.block, self.next, bytes.len())?;
        if is_ended(&bytes[self.next..]) {
            return Ok(());
        }
        output.extend_from_slice(b"\n")
    }

    /// A new line of a line's bytes, which both share. An `Err` comes where `next_line` has one.
    pub(crate) fn plain_copy(&self, i: usize) -> Result<BareLine, AllocError>
        requires place { i < length (lines_of self.now) }
        ensures value { IfOk result (λ line. line ≡ plain_line (slice_index_or (lines_of self.now) i [])) }
    {
        let mut rest = self.try_copy()?;
        rest.skip(i)?;
        match rest.next_line()? {
            Some(line) => Ok(line.into_bare()),
            None => unreachable!(),
        }
    }

    /// Appends the bytes of the lines from place `from` up to `to`, of so many, each with a newline.
    pub(crate) fn push_lines(
        &self,
        from: usize,
        to: usize,
        count: usize,
        output: &mut Pieces,
    ) -> Result<(), AllocError>
        requires order { from ≤ to }
        requires last { to ≤ count }
        requires count { count ≡ length (lines_of self.now) }
        ensures appended { OnOk result (output.new ≡ output.old ++ bytes_of (block from to (lines_of self.now))) }
    {
        if from == to {
            return Ok(());
        }
        let mut rest = self.try_copy()?;
        rest.skip(from)?;
        if to == count {
            return rest.push_all(output);
        }
        rest.push_next(to - from, output)
    }

    /// Whether there are as many lines as fill a chunk.
    pub fn fill_chunk(&self) -> bool
        ensures value { IsTrue result ↔ (1024 ≤ length (lines_of self.now)) }
    {
        let mut rest = &self.block.as_slice()[self.next..];
        // No line is shorter than a byte with its newline, so that few bytes need no look.
        if rest.len() < FULL {
            return false;
        }
        for _i in 0..FULL {
            let Some((_line, after)) = next_line(rest) else {
                return false;
            };
            rest = after;
        }
        true
    }

    /// Whether no line is left.
    pub(crate) fn is_done(&self) -> bool
        ensures value { result ≡ nat_eq (length self.now) 0 }
    {
        self.next == self.block.as_slice().len()
    }

    pub(crate) fn allocator(&self) -> Global {
        self.alloc
    }
}
