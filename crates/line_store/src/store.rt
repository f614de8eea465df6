//! A list of lines, however it is kept.
ghost use Rattle.std.specs.Prelude.{◌≡◌, ◌+◌, ◌-◌, ◌<◌, ◌≤◌, ◌++◌, List, [], true, false, count_by, length, remove, slice_index_or, slice_set, map, IfOk, IfErr, IfSome, OnOk, OnErr};
ghost use Rattle.ed_base.specs.Lines.{AreLines, IsLine, bytes_of};
ghost use Rattle.ed_base.specs.Buffer.{Line, plain_line, marked_at, marked_place, texts, flagged_at, flagged_place, AtMostOnce, KnowLetters, SharesNoLetter};
ghost use Rattle.ed_base.specs.Parts.{block, carried, exchanged};
ghost use Rattle.line_store.specs.Marks.{lettered};
ghost use Rattle.line_store.specs.Uncut.{StandUncut};

use crate::{Block, FileLines, Line, Marks};
use ed_base::{Letter, Pieces};
use std::alloc::{AllocError, Global};

/// The lines of a store from a place on, which aren't cut yet, in their file.
#[derive(Drop)]
pub struct UncutLines {
    /// How many lines stand before them.
    pub before: usize,
    pub file: FileLines,
}

/// A list of lines, of which a letter marks one at most. Places count from 0.
pub trait LineStore: Drop {
    /// The lines, in order.
    ghost lines: { Self → List Line };

    /// A store without lines.
    fn empty(alloc: Global) -> Result<Self, AllocError>
        ensures value { IfOk result (λ store. lines store ≡ []) };

    /// How many lines there are.
    fn len(&self) -> usize
        ensures value { result ≡ length (lines self.now) };

    /// The bytes of a line.
    fn text(&self, i: usize) -> &[u8]
        requires place { i < length (lines self.now) }
        ensures value { result.now ≡ (slice_index_or (lines self.now) i (plain_line [])).bytes }
        ensures line { IsLine result.now };

    /// Makes ready to ask for the first `to` lines one by one. Before that, and where there is no memory for it, each may cost a look at
    /// all lines before it. The lines are the same.
    fn open(&mut self, to: usize) -> Result<(), AllocError>
        ensures unchanged { lines self.new ≡ lines self.old };

    /// The lines that aren't cut, where there are some. An `Err` comes only where more share their bytes than can be counted.
    fn uncut(&self) -> Result<Option<UncutLines>, AllocError>
        ensures texts { IfOk result (λ uncut. IfSome uncut (StandUncut (texts (lines self.now)))) };

    /// Appends the bytes of the lines from place `from` up to `to`, each with a newline. They are shared with the lines as far as
    /// their blocks have them.
    fn push_lines(&self, from: usize, to: usize, output: &mut Pieces) -> Result<(), AllocError>
        requires order { from ≤ to }
        requires last { to ≤ length (lines self.now) }
        ensures appended { OnOk result (output.new ≡ output.old ++ bytes_of (texts (block from to (lines self.now)))) }
        ensures lines { OnOk result (AreLines (texts (block from to (lines self.now)))) };

    /// Puts a line in place of another, which comes back with the letters that mark it. No other line moves. Where there is no memory
    /// for that the new line comes back, and the store is as before.
    fn exchange(&mut self, i: usize, line: Line) -> Result<Line, Line>
        requires place { i < length (lines self.old) }
        requires letters { SharesNoLetter line (remove (lines self.old) i) }
        ensures value { IfOk result (λ before. before ≡ slice_index_or (lines self.old) i (plain_line [])) }
        ensures exchanged { OnOk result (lines self.new ≡ slice_set (lines self.old) i line) }
        ensures handed_back { IfErr result (λ back. back ≡ line) }
        ensures unchanged { OnErr result (lines self.new ≡ lines self.old) };

    /// Puts the lines of a block, without letters, in place of those from place `from` up to `to`, which are handed back. The letters
    /// that mark these mark no line then. Where there is no memory for that the block comes back, and the store is as before.
    fn exchange_block(&mut self, from: usize, to: usize, new: Block) -> Result<Block, Block>
        requires order { from ≤ to }
        requires last { to ≤ length (lines self.old) }
        ensures taken { IfOk result (λ taken. taken ≡ texts (block from to (lines self.old))) }
        ensures put { OnOk result (lines self.new ≡ exchanged from to (map plain_line new) (lines self.old)) }
        ensures handed_back { IfErr result (λ back. back ≡ new) }
        ensures unchanged { OnErr result (lines self.new ≡ lines self.old) };

    /// New lines of the texts of those from place `from` up to `to`, which share their bytes.
    fn copy_block(&self, from: usize, to: usize) -> Result<Block, AllocError>
        requires order { from ≤ to }
        requires last { to ≤ length (lines self.now) }
        ensures value { IfOk result (λ copies. copies ≡ texts (block from to (lines self.now))) };

    /// Carries the lines from place `from` up to `to`, with their letters and flags, to a place among the others. Where they
    /// stand there already, nothing happens.
    fn carry(&mut self, from: usize, to: usize, place: usize) -> Result<(), AllocError>
        requires order { from ≤ to }
        requires last { to ≤ length (lines self.old) }
        requires place { place + (to - from) ≤ length (lines self.old) }
        ensures carried { OnOk result (lines self.new ≡ carried from to place (lines self.old)) }
        ensures unchanged { OnErr result (lines self.new ≡ lines self.old) };

    /// Marks a line by a letter, which from then on marks no other.
    fn mark(&mut self, i: usize, letter: Letter)
        requires place { i < length (lines self.old) }
        ensures marked { lines self.new ≡ marked_at i letter (lines self.old) };

    /// The place of the line that a letter marks.
    fn marked(&self, letter: Letter) -> Option<usize>
        ensures value { result ≡ marked_place letter (lines self.now) };

    /// Marks the lines at these places by their letters, and no other line by any letter. A letter whose place lies after the
    /// last line marks none.
    fn set_marks(&mut self, marks: &Marks)
        ensures marked { lines self.new ≡ lettered marks.now 0 (lines self.old) };

    /// Flags a line, as a global command does with those that it will take. Where there is no memory for that the store is as before.
    fn flag(&mut self, i: usize) -> Result<(), AllocError>
        requires place { i < length (lines self.old) }
        ensures flagged { OnOk result (lines self.new ≡ flagged_at i true (lines self.old)) }
        ensures unchanged { OnErr result (lines self.new ≡ lines self.old) };

    /// Takes the flag of a line.
    fn unflag(&mut self, i: usize)
        requires place { i < length (lines self.old) }
        ensures unflagged { lines self.new ≡ flagged_at i false (lines self.old) };

    /// Whether a line has the flag.
    fn flagged(&self, i: usize) -> bool
        requires place { i < length (lines self.now) }
        ensures value { result ≡ (slice_index_or (lines self.now) i (plain_line [])).flag };

    /// How many lines have the flag. No line is looked at for it.
    fn flag_count(&self) -> usize
        ensures value { result ≡ count_by (λ line. line.flag) (lines self.now) };

    /// The place of the first line that has the flag. It remembers how far it has looked, and where no line has the flag it looks
    /// at none.
    fn next_flagged(&mut self) -> Option<usize>
        ensures value { result ≡ flagged_place (lines self.old) }
        ensures unchanged { lines self.new ≡ lines self.old };

    /// A store of the same lines, with their letters and flags.
    fn try_copy(&self) -> Result<Self, AllocError>
        ensures value { IfOk result (λ copy. lines copy ≡ lines self.now) };

    /// A letter marks one line at most.
    ghost once: { (store : Self) → AtMostOnce (lines store) };

    /// Each line has its 26 letters or not.
    ghost known: { (store : Self) → KnowLetters (lines store) };
}
