//! Lists of lines without letters, however they are kept.
ghost use Rattle.std.specs.Prelude.{◌≡◌, ◌+◌, ◌<◌, ◌≤◌, ◌++◌, ◌∷◌, ℕ, List, [], true, false, length, insert, remove, slice_index_or, slice_set, IfOk, IfErr, OnOk, OnErr, IsOk};
ghost use Rattle.std.specs.Bool.{OnTrue, OnFalse};
ghost use Rattle.ed_base.specs.Buffer.{Line, flagged_at, plain_line, texts};
ghost use Rattle.ed_base.specs.Lines.{AreLines, IsLine, bytes_of, lines_of, newline};
ghost use Rattle.ed_base.specs.Parts.{block};
ghost use Rattle.line_store.specs.Blocks.{CameIn};
ghost use Rattle.line_store.specs.Cut.{TookIn};
ghost use Rattle.line_store.specs.Flagged.{FirstFlagged};
ghost use Rattle.line_store.specs.Kept.{flag_count};
ghost use Rattle.line_store.specs.Swaps.{swapped};

use crate::{BareLine, Block, FileLines};
use ed_base::Pieces;
use std::alloc::{AllocError, Global};
use std::mem::replace;

/// A list of lines without letters. Places count from 0. The clauses are those of a store, letters aside.
pub trait BareLines: Drop {
    /// The lines, in order.
    ghost items: { Self → List Line };

    /// How many lines can come in before memory is asked for.
    ghost spare: { Self → ℕ };

    /// A list without lines.
    fn empty(alloc: Global) -> Result<Self, AllocError>
        ensures value { IfOk result (λ lines. items lines ≡ []) };

    /// How many lines there are.
    fn len(&self) -> usize
        ensures value { result ≡ length (items self.now) };

    /// The bytes of a line.
    fn text(&self, i: usize) -> &[u8]
        requires place { i < length (items self.now) }
        ensures value { result.now ≡ (slice_index_or (items self.now) i (plain_line [])).bytes }
        ensures line { IsLine result.now };

    /// A new line of a line's bytes, which both share, without the flag.
    fn plain_copy(&self, i: usize) -> Result<BareLine, AllocError>
        requires place { i < length (items self.now) }
        ensures value { IfOk result (λ line. line ≡ plain_line (slice_index_or (items self.now) i (plain_line [])).bytes) };

    /// Appends the bytes of a line and a newline.
    fn push_line(&self, i: usize, output: &mut Pieces) -> Result<(), AllocError>
        requires place { i < length (items self.now) }
        ensures appended { OnOk result
            (output.new ≡ output.old ++ ((slice_index_or (items self.now) i (plain_line [])).bytes ++ newline ∷ [])) }
        ensures line { OnOk result (IsLine (slice_index_or (items self.now) i (plain_line [])).bytes) };

    /// Appends the bytes of the lines from place `from` up to `to`, each with a newline.
    fn push_lines(&self, from: usize, to: usize, output: &mut Pieces) -> Result<(), AllocError>
        requires order { from ≤ to }
        requires last { to ≤ length (items self.now) }
        ensures appended { OnOk result (output.new ≡ output.old ++ bytes_of (texts (block from to (items self.now)))) }
        ensures lines { OnOk result (AreLines (texts (block from to (items self.now)))) }
    {
        for i in from..to {
            self.push_line(i, output)?;
        }
        Ok(())
    }

    /// Makes room for `n` more lines.
    fn reserve(&mut self, n: usize) -> Result<(), AllocError>
        ensures room { OnOk result (n ≤ spare self.new) }
        ensures unchanged { items self.new ≡ items self.old }
        ensures keeps_room { spare self.old ≤ spare self.new }

        // Where there is room already, nothing is refused.
        ensures in_place { n ≤ spare self.old → IsOk result };

    /// Puts a line before place `at`.
    fn insert(&mut self, at: usize, line: BareLine) -> Result<(), BareLine>
        requires place { at ≤ length (items self.old) }

        ensures inserted { OnOk result (items self.new ≡ insert (items self.old) at line) }

        // A refused line comes back, and the list is as before.
        ensures handed_back { IfErr result (λ back. back ≡ line) }
        ensures unchanged { OnErr result (items self.new ≡ items self.old) }

        // Where `reserve` made room, nothing is refused.
        ensures room { 0 < spare self.old → IsOk result }
        ensures spends_one { spare self.old ≤ spare self.new + 1 }
        ensures keeps_room { OnErr result (spare self.old ≤ spare self.new) };

    /// Cuts some of the next lines of a file, of which there is one at least, and puts them after all others.
    fn take_in(&mut self, file: &mut FileLines) -> Result<(), AllocError>
        requires some { 0 < length (lines_of file.old) }
        ensures taken { OnOk result (TookIn (lines_of file.old) (lines_of file.new) (items self.old) (items self.new)) }
        ensures kept { OnErr result (lines_of file.new ≡ lines_of file.old) }
        ensures unchanged { OnErr result (items self.new ≡ items self.old) }
    {
        let mut rest = file.try_copy()?;
        let Some(line) = rest.next_line()? else {
            unreachable!()
        };
        match self.insert(self.len(), line.into_bare()) {
            Ok(()) => {
                *file = rest;
                Ok(())
            }
            Err(_refused) => Err(AllocError),
        }
    }

    /// Takes a line out.
    fn remove(&mut self, i: usize) -> BareLine
        requires place { i < length (items self.old) }
        ensures value { result ≡ slice_index_or (items self.old) i result }
        ensures removed { items self.new ≡ remove (items self.old) i }
        ensures keeps_room { spare self.old ≤ spare self.new };

    /// Puts a line in place of another, which comes back. Where there is no memory for that the new line comes back, and the list is as
    /// before.
    fn exchange(&mut self, i: usize, line: BareLine) -> Result<BareLine, BareLine>
        requires place { i < length (items self.old) }
        ensures value { IfOk result (λ before. before ≡ slice_index_or (items self.old) i before) }
        ensures exchanged { OnOk result (items self.new ≡ slice_set (items self.old) i line) }
        ensures handed_back { IfErr result (λ back. back ≡ line) }
        ensures unchanged { OnErr result (items self.new ≡ items self.old) };

    /// Whether a line has the flag.
    fn flagged(&self, i: usize) -> bool
        requires place { i < length (items self.now) }
        ensures value { result ≡ (slice_index_or (items self.now) i (plain_line [])).flag };

    /// Flags a line.
    fn flag(&mut self, i: usize) -> Result<(), AllocError>
        requires place { i < length (items self.old) }
        ensures flagged { OnOk result (items self.new ≡ flagged_at i true (items self.old)) }
        ensures unchanged { OnErr result (items self.new ≡ items self.old) };

    /// Takes the flag of a line.
    fn unflag(&mut self, i: usize)
        requires place { i < length (items self.old) }
        ensures unflagged { items self.new ≡ flagged_at i false (items self.old) };

    /// The first place from `from` on where a line has the flag, or the number of lines where none has it.
    fn first_flagged(&self, from: usize) -> usize
        requires place { from ≤ length (items self.now) }
        ensures first { FirstFlagged from result (items self.now) }
    {
        let count = self.len();
        let mut next = from;
        while next < count && !self.flagged(next) {
            next += 1;
        }
        next
    }

    /// Has the lines from place `low` up to `middle` and those from there up to `high` change places, where it has a shorter way
    /// to do so than line by line, and tells whether it did.
    fn swap_blocks(&mut self, low: usize, middle: usize, high: usize) -> bool
        requires first { low ≤ middle }
        requires second { middle ≤ high }
        requires last { high ≤ length (items self.old) }
        ensures swapped { OnTrue result (items self.new ≡ swapped low middle high (items self.old)) }
        ensures unchanged { OnFalse result (items self.new ≡ items self.old) };

    /// Puts the lines of a block in place of those from place `from` up to `to` at once, which are handed back, where it has a shorter
    /// way to do so than line by line. No line has the flag. Otherwise the block comes back, and the list is as before.
    fn exchange_whole(
        &mut self,
        alloc: Global,
        from: usize,
        to: usize,
        new: Block,
    ) -> Result<Block, Block>
        requires order { from ≤ to }
        requires last { to ≤ length (items self.old) }
        requires unflagged { flag_count (items self.old) ≡ 0 }
        ensures taken { IfOk result (λ taken. taken ≡ texts (block from to (items self.old))) }
        ensures put { OnOk result (CameIn from to new (items self.old) (items self.new)) }
        ensures handed_back { IfErr result (λ back. back ≡ new) }
        ensures unchanged { OnErr result (items self.new ≡ items self.old) };

    /// The same lines once more, which share their bytes.
    fn try_copy(&self) -> Result<Self, AllocError>
        ensures value { IfOk result (λ copy. items copy ≡ items self.now) };
}

/// In a vector a line that comes in or goes out moves all the lines after it.
impl BareLines for Vec<BareLine> {
    ghost use Rattle.std.specs.Prelude.{◌-◌, vec_capacity, vec_len};

    ghost items = { λ v. v.items };

    ghost spare = { λ v. vec_capacity v - vec_len v };

    fn empty(alloc: Global) -> Result<Self, AllocError> {
        Ok(Vec::new(alloc))
    }

    fn len(&self) -> usize {
        self.as_slice().len()
    }

    fn text(&self, i: usize) -> &[u8] {
        self[i].as_slice()
    }

    fn plain_copy(&self, i: usize) -> Result<BareLine, AllocError> {
        self[i].plain_copy()
    }

    fn push_line(&self, i: usize, output: &mut Pieces) -> Result<(), AllocError> {
        self[i].push_to(output)
    }

    fn reserve(&mut self, n: usize) -> Result<(), AllocError> {
        Vec::reserve(self, n)
    }

    fn insert(&mut self, at: usize, line: BareLine) -> Result<(), BareLine> {
        match Vec::insert(self, at, line) {
            Ok(()) => Ok(()),
            Err(refused) => Err(refused.value),
        }
    }

    fn remove(&mut self, i: usize) -> BareLine {
        Vec::remove(self, i)
    }

    fn exchange(&mut self, i: usize, line: BareLine) -> Result<BareLine, BareLine> {
        Ok(replace(&mut self[i], line))
    }

    fn flagged(&self, i: usize) -> bool {
        self[i].flag()
    }

    fn flag(&mut self, i: usize) -> Result<(), AllocError> {
        self[i].set_flag(true);
        Ok(())
    }

    fn unflag(&mut self, i: usize) {
        self[i].set_flag(false);
    }

    fn swap_blocks(&mut self, low: usize, middle: usize, high: usize) -> bool {
        self[low..high].rotate_left(middle - low);
        true
    }

    fn exchange_whole(
        &mut self,
        _alloc: Global,
        _from: usize,
        _to: usize,
        new: Block,
    ) -> Result<Block, Block> {
        Err(new)
    }

    fn try_copy(&self) -> Result<Self, AllocError> {
        let mut copy = Vec::with_capacity(*self.allocator(), self.as_slice().len())?;
        for line in self {
            copy.push(line.try_copy()?)?;
        }
        Ok(copy)
    }
}
