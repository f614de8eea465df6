//! Lines that are cut when they are touched.
ghost use Rattle.std.specs.Prelude.{◌≡◌, ◌-◌, ◌<◌, ◌≤◌, ◌++◌, [], false, true, length, map, slice_index_or, slice_set, IfErr, IfOk, IfSome, OnErr, OnOk};
ghost use Rattle.ed_base.specs.Buffer.{flagged_at, plain_line, texts};
ghost use Rattle.ed_base.specs.Lines.{AreLines, IsLine, bytes_of, lines_of};
ghost use Rattle.ed_base.specs.Parts.{block};
ghost use Rattle.line_store.specs.Blocks.{CameIn};
ghost use Rattle.line_store.specs.Cut.{all_lines};
ghost use Rattle.line_store.specs.Flagged.{FirstFlagged};
ghost use Rattle.line_store.specs.Kept.{flag_count};
ghost use Rattle.line_store.specs.Swaps.{swapped};
ghost use Rattle.line_store.specs.Uncut.{StandUncut};

mod copying;

use crate::blocks::{exchange_lines, flags_among};
use crate::chunk::FULL;
use crate::swaps::swap_blocks;
use crate::{BareLine, BareLines, Block, FileLines, UncutLines};
use ed_base::Pieces;
use std::alloc::{AllocError, Global};
use std::marker::Model;

/// Lines of which the first ones are cut, in a list of any kind, and the others stand in a file's bytes till one of them is touched.
#[derive(Drop)]
pub struct CutLines<L: BareLines> {
    cut: L,
    // The lines after those that are cut,
    rest: Option<FileLines>,
    // and how many they are.
    left: usize,
}

impl<L: BareLines> Model for CutLines<L> {
    ghost use Rattle.std.specs.Prelude.{◌≡◌, ◌+◌, ◌<◌, ◌^◌, length};
    ghost use Rattle.line_store.specs.Cut.{CutValue, lines_left};

    ghost Value = { CutValue };

    ghost view = { λ l. record { cut = L.items l.cut; rest = lines_left l.rest } };

    ghost invariant = { λ l. (l.left ≡ length (lines_left l.rest)) × (length (L.items l.cut) + length (lines_left l.rest) < 2 ^ 64) };
}

impl<L: BareLines> CutLines<L> {
    /// No lines.
    pub(crate) fn empty(alloc: Global) -> Result<Self, AllocError>
        ensures value { IfOk result (λ lines. all_lines lines ≡ []) }
    {
        let cut = L::empty(alloc)?;
        Ok(CutLines {
            cut,
            rest: None,
            left: 0,
        })
    }

    /// The lines that aren't cut, where there are some.
    pub(crate) fn uncut(&self) -> Result<Option<UncutLines>, AllocError>
        ensures texts { IfOk result (λ uncut. IfSome uncut (StandUncut (texts (all_lines self.now)))) }
    {
        match &self.rest {
            Some(file) => Ok(Some(UncutLines {
                before: self.cut.len(),
                file: file.try_copy()?,
            })),
            None => Ok(None),
        }
    }

    /// How many lines there are.
    pub(crate) fn len(&self) -> usize
        ensures value { result ≡ length (all_lines self.now) }
    {
        self.cut.len() + self.left
    }

    /// The bytes of a line. If it isn't cut, all lines before it that aren't are passed.
    pub(crate) fn text(&self, i: usize) -> &[u8]
        requires place { i < length (all_lines self.now) }
        ensures value { result.now ≡ (slice_index_or (all_lines self.now) i (plain_line [])).bytes }
        ensures line { IsLine result.now }
    {
        let cut = self.cut.len();
        if i < cut {
            return self.cut.text(i);
        }
        match &self.rest {
            Some(file) => file.text(i - cut),
            None => unreachable!(),
        }
    }

    /// A new line of a line's bytes, which both share, without the flag. If it isn't cut, all lines before it that aren't are passed.
    fn plain_copy(&self, i: usize) -> Result<BareLine, AllocError>
        requires place { i < length (all_lines self.now) }
        ensures value { IfOk result (λ line. line ≡ plain_line (slice_index_or (all_lines self.now) i (plain_line [])).bytes) }
    {
        let cut = self.cut.len();
        if i < cut {
            return self.cut.plain_copy(i);
        }
        match &self.rest {
            Some(file) => file.plain_copy(i - cut),
            None => unreachable!(),
        }
    }

    /// Appends the bytes of the lines from place `from` up to `to`, each with a newline. What isn't cut is written at once, if it is
    /// written to its end.
    pub(crate) fn push_lines(
        &self,
        from: usize,
        to: usize,
        output: &mut Pieces,
    ) -> Result<(), AllocError>
        requires order { from ≤ to }
        requires last { to ≤ length (all_lines self.now) }
        ensures appended { OnOk result (output.new ≡ output.old ++ bytes_of (texts (block from to (all_lines self.now)))) }
        ensures lines { OnOk result (AreLines (texts (block from to (all_lines self.now)))) }
    {
        let cut = self.cut.len();
        self.cut.push_lines(from.min(cut), to.min(cut), output)?;
        match &self.rest {
            Some(file) => file.push_lines(
                from.saturating_sub(cut),
                to.saturating_sub(cut),
                self.left,
                output,
            ),
            None => Ok(()),
        }
    }

    /// Cuts lines so that the first `to` lines are cut. After an `Err` the lines are as before, and some more of them may be cut.
    pub(crate) fn open(&mut self, to: usize) -> Result<(), AllocError>
        requires place { to ≤ length (all_lines self.old) }
        ensures opened { OnOk result (to ≤ length self.new.cut) }
        ensures unchanged { all_lines self.new ≡ all_lines self.old }
    {
        match to.checked_sub(1) {
            Some(last) => self.open_line(last),
            None => Ok(()),
        }
    }

    /// The same up to a line.
    fn open_line(&mut self, i: usize) -> Result<(), AllocError>
        requires place { i < length (all_lines self.old) }
        ensures opened { OnOk result (i < length self.new.cut) }
        ensures unchanged { all_lines self.new ≡ all_lines self.old }
    {
        'cuts: while self.cut.len() <= i {
            self.cut_more()?;
        }
        Ok(())
    }

    /// Cuts some more lines, of which there are some.
    fn cut_more(&mut self) -> Result<(), AllocError>
        requires some { length self.old.cut < length (all_lines self.old) }
        ensures more { OnOk result (length self.old.cut < length self.new.cut) }
        ensures unchanged { all_lines self.new ≡ all_lines self.old }
    {
        let before = self.cut.len();
        let Some(file) = &mut self.rest else {
            unreachable!()
        };
        self.cut.take_in(file)?;
        self.left -= self.cut.len() - before;
        // The bytes aren't kept for no line.
        if self.left == 0 {
            self.rest = None;
        }
        Ok(())
    }

    /// Puts a line in place of another, which comes back. Where there is no memory for that the new line comes back, and the lines
    /// are as before.
    pub(crate) fn exchange(&mut self, i: usize, line: BareLine) -> Result<BareLine, BareLine>
        requires place { i < length (all_lines self.old) }
        ensures value { IfOk result (λ before. before ≡ slice_index_or (all_lines self.old) i before) }
        ensures exchanged { OnOk result (all_lines self.new ≡ slice_set (all_lines self.old) i line) }
        ensures handed_back { IfErr result (λ back. back ≡ line) }
        ensures unchanged { OnErr result (all_lines self.new ≡ all_lines self.old) }
    {
        match self.open_line(i) {
            Ok(()) => self.cut.exchange(i, line),
            Err(_no_memory) => Err(line),
        }
    }

    /// Whether a line has the flag.
    pub(crate) fn flagged(&self, i: usize) -> bool
        requires place { i < length (all_lines self.now) }
        ensures value { result ≡ (slice_index_or (all_lines self.now) i (plain_line [])).flag }
    {
        i < self.cut.len() && self.cut.flagged(i)
    }

    /// Flags a line. Where there is no memory for that the lines are as before.
    pub(crate) fn flag(&mut self, i: usize) -> Result<(), AllocError>
        requires place { i < length (all_lines self.old) }
        ensures flagged { OnOk result (all_lines self.new ≡ flagged_at i true (all_lines self.old)) }
        ensures unchanged { OnErr result (all_lines self.new ≡ all_lines self.old) }
    {
        self.open_line(i)?;
        self.cut.flag(i)
    }

    /// Takes the flag of a line.
    pub(crate) fn unflag(&mut self, i: usize)
        requires place { i < length (all_lines self.old) }
        ensures unflagged { all_lines self.new ≡ flagged_at i false (all_lines self.old) }
    {
        if i >= self.cut.len() {
            return;
        }
        self.cut.unflag(i);
    }

    /// The first place from `from` on where a line has the flag, or the number of lines where none has it.
    pub(crate) fn first_flagged(&self, from: usize) -> usize
        requires place { from ≤ length (all_lines self.now) }
        ensures first { FirstFlagged from result (all_lines self.now) }
    {
        let cut = self.cut.len();
        if from >= cut {
            return self.len();
        }
        let place = self.cut.first_flagged(from);
        if place == cut {
            return self.len();
        }
        place
    }

    /// How many lines from place `from` up to `to` have the flag.
    pub(crate) fn flags_among(&self, from: usize, to: usize) -> usize
        requires order { from ≤ to }
        requires last { to ≤ length (all_lines self.now) }
        ensures value { result ≡ flag_count (block from to (all_lines self.now)) }
    {
        let cut = self.cut.len();
        flags_among(from.min(cut), to.min(cut), &self.cut)
    }

    /// The lines from place `low` up to `middle` and those from there up to `high` change places.
    pub(crate) fn swap_blocks(
        &mut self,
        low: usize,
        middle: usize,
        high: usize,
    ) -> Result<(), AllocError>
        requires first { low ≤ middle }
        requires second { middle ≤ high }
        requires last { high ≤ length (all_lines self.old) }
        ensures swapped { OnOk result (all_lines self.new ≡ swapped low middle high (all_lines self.old)) }
        ensures unchanged { OnErr result (all_lines self.new ≡ all_lines self.old) }
    {
        self.open(high)?;
        swap_blocks(&mut self.cut, low, middle, high)
    }

    /// Puts the lines of a block, without flags, in place of those from place `from` up to `to`, which are handed back. So many lines
    /// have the flag. Where there is no memory for that the block comes back, and the lines are as before.
    pub(crate) fn exchange_block(
        &mut self,
        alloc: Global,
        flags: usize,
        from: usize,
        to: usize,
        new: Block,
    ) -> Result<Block, Block>
        requires order { from ≤ to }
        requires last { to ≤ length (all_lines self.old) }
        requires flags { flags ≡ flag_count (all_lines self.old) }
        ensures taken { IfOk result (λ taken. taken ≡ texts (block from to (all_lines self.old))) }
        ensures put { OnOk result (CameIn from to new (all_lines self.old) (all_lines self.new)) }
        ensures handed_back { IfErr result (λ back. back ≡ new) }
        ensures unchanged { OnErr result (all_lines self.new ≡ all_lines self.old) }
    {
        if self.left > 0 || from < self.cut.len() {
            return self.exchange_cut(alloc, flags, from, to, new);
        }
        // Lines that come after all others stay as they are in their file.
        match new.into_file() {
            Ok((file, count)) => self.put_file(alloc, file, count),
            Err(new) => self.exchange_cut(alloc, flags, from, to, new),
        }
    }

    /// The lines of a file, which are so many, come after all others, of which each is cut.
    fn put_file(&mut self, alloc: Global, file: FileLines, count: usize) -> Result<Block, Block>
        requires cut { self.old.rest ≡ [] }
        requires count { count ≡ length (lines_of file) }
        ensures taken { IfOk result (λ taken. taken ≡ []) }
        ensures put { OnOk result (all_lines self.new ≡ all_lines self.old ++ map plain_line (lines_of file)) }
        ensures handed_back { IfErr result (λ back. back ≡ lines_of file) }
        ensures unchanged { OnErr result (all_lines self.new ≡ all_lines self.old) }
    {
        if self.cut.len().checked_add(count).is_none() {
            return Err(Block::of_counted(file, count));
        }
        self.rest = Some(file);
        self.left = count;
        Ok(Block::new(alloc))
    }

    /// The same as `exchange_block`, once the lines up to place `to` are cut.
    fn exchange_cut(
        &mut self,
        alloc: Global,
        flags: usize,
        from: usize,
        to: usize,
        new: Block,
    ) -> Result<Block, Block>
        requires order { from ≤ to }
        requires last { to ≤ length (all_lines self.old) }
        requires flags { flags ≡ flag_count (all_lines self.old) }
        ensures taken { IfOk result (λ taken. taken ≡ texts (block from to (all_lines self.old))) }
        ensures put { OnOk result (CameIn from to new (all_lines self.old) (all_lines self.new)) }
        ensures handed_back { IfErr result (λ back. back ≡ new) }
        ensures unchanged { OnErr result (all_lines self.new ≡ all_lines self.old) }
    {
        let Ok(()) = self.open(to) else {
            return Err(new);
        };
        let others = self.len() - (to - from);
        if others.checked_add(new.len()).is_none() {
            return Err(new);
        }
        exchange_lines(alloc, flags, from, to, new, &mut self.cut)
    }

    /// New lines of the texts of those from place `from` up to `to`.
    pub(crate) fn copy_block(
        &self,
        alloc: Global,
        from: usize,
        to: usize,
    ) -> Result<Block, AllocError>
        requires order { from ≤ to }
        requires last { to ≤ length (all_lines self.now) }
        ensures value { IfOk result (λ copies. copies ≡ texts (block from to (all_lines self.now))) }
    {
        if to - from == 1 {
            return Ok(Block::of_bare(self.plain_copy(from)?));
        }
        if to - from >= FULL {
            return self.copy_chunks(alloc, from, to);
        }
        let mut copies = Vec::with_capacity(alloc, to - from)?;
        for i in from..to {
            copies.push(self.plain_copy(i)?)?;
        }
        Ok(Block::of_lines(copies))
    }

    /// The same lines once more, which share their bytes.
    pub(crate) fn try_copy(&self) -> Result<Self, AllocError>
        ensures value { IfOk result (λ copy. all_lines copy ≡ all_lines self.now) }
    {
        Ok(CutLines {
            cut: self.cut.try_copy()?,
            rest: copy_rest(&self.rest)?,
            left: self.left,
        })
    }
}

/// The same lines of a file once more, where there are any.
fn copy_rest(rest: &Option<FileLines>) -> Result<Option<FileLines>, AllocError>
    ensures value { IfOk result (λ copy. copy ≡ rest.now) }
{
    match rest {
        Some(file) => Ok(Some(file.try_copy()?)),
        None => Ok(None),
    }
}
