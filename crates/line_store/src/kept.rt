//! Stores: a list of lines without letters, and apart from it where each letter's line is.
ghost use Rattle.std.specs.Prelude.{◌≡◌, ℕ, ◌<◌, ◌≤◌, ◌-◌, ◌^◌, Bool, List, [], length, true, IfErr, IfOk, OnErr, OnOk, slice_index_or, slice_set};
ghost use Rattle.ed_base.specs.Buffer.{Line, plain_line, texts};
ghost use Rattle.ed_base.specs.Parts.{block, exchanged};
ghost use Rattle.line_store.specs.Kept.{Unflagged, flag_count, lines_of};
ghost use Rattle.line_store.specs.Swaps.{swapped};

use crate::cut_lines::CutLines;
use crate::flag_counts::flags_exchanged;
use crate::marks::Marks;
use crate::{BareLine, BareLines, Block, Line, LineStore, UncutLines};
use ed_base::{Letter, Pieces};
use std::alloc::{AllocError, Global};
use std::marker::Model;

/// Lines in a list of any kind, and apart from them where each letter's line is. So a letter costs nothing to the lines that it
/// doesn't mark, and no call looks through the lines for it.
#[derive(Drop)]
pub struct Store<L: BareLines> {
    alloc: Global,
    lines: CutLines<L>,
    marks: Marks,
    // No line before this place has the flag, so the search for the next one goes on from here.
    unflagged: usize,
    // How many lines have the flag.
    flags: usize,
}

/// A store in one vector: a line put or taken moves all the lines after it.
pub type PlainStore = Store<Vec<BareLine>>;

impl<L: BareLines> Model for Store<L> {
    ghost use Rattle.std.specs.Prelude.{length};
    ghost use Rattle.line_store.specs.Marks.{AllBelow};
    ghost use Rattle.std.specs.Prelude.{◌≡◌};
    ghost use Rattle.line_store.specs.Cut.{all_lines};
    ghost use Rattle.line_store.specs.Kept.{StoreValue, Unflagged, flag_count};

    ghost Value = { StoreValue };

    ghost view = { λ s. record { items = all_lines s.lines; marks = s.marks } };

    ghost invariant = { λ s. AllBelow (length (all_lines s.lines)) s.marks × Unflagged s.unflagged (all_lines s.lines)
        × (s.flags ≡ flag_count (all_lines s.lines)) };
}

/// Before which place no line has the flag, once a line has come in place of another.
fn place_exchanged(place: usize, i: usize, flag: bool) -> usize
    ensures { (lines : List Line) (new : Line) → new.flag ≡ flag → Unflagged place lines → Unflagged result (slice_set lines i new) }
{
    if flag { place.min(i) } else { place }
}

/// The same, once so many lines without the flag have come in place of those from place `from` up to `to`.
fn place_replaced(place: usize, from: usize, to: usize, entered: usize) -> usize
    requires order { from ≤ to }
    ensures { (lines new : List Line) → to ≤ length lines → length new ≡ entered → flag_count new ≡ 0 → Unflagged place lines →
        Unflagged result (exchanged from to new lines) }
{
    if place < from {
        return place;
    }
    (from + place.saturating_sub(to)).saturating_add(entered)
}

/// The same, once the lines from place `low` up to `middle` and those from there up to `high` have changed places.
fn place_swapped(place: usize, low: usize, middle: usize, high: usize) -> usize
    requires first { low ≤ middle }
    requires second { middle ≤ high }
    ensures { (lines : List Line) → high ≤ length lines → Unflagged place lines → Unflagged result (swapped low middle high lines) }
{
    if place <= low {
        return place;
    }
    if place < middle {
        return low;
    }
    if place < high {
        return place - (middle - low);
    }
    place
}

impl<L: BareLines> Store<L> {
    /// The lines from place `low` up to `middle` and those from there up to `high` change places, with their letters and flags.
    fn swap_blocks(&mut self, low: usize, middle: usize, high: usize) -> Result<(), AllocError>
        requires first { low ≤ middle }
        requires second { middle ≤ high }
        requires last { high ≤ length self.old.items }
        ensures swapped { OnOk result (lines_of self.new ≡ swapped low middle high (lines_of self.old)) }
        ensures unchanged { OnErr result (lines_of self.new ≡ lines_of self.old) }
    {
        self.lines.swap_blocks(low, middle, high)?;
        self.marks.swap_places(low, middle, high);
        self.unflagged = place_swapped(self.unflagged, low, middle, high);
        Ok(())
    }

    /// How many lines from place `from` up to `to` have the flag.
    fn flags_among(&self, from: usize, to: usize) -> usize
        requires order { from ≤ to }
        requires last { to ≤ length self.now.items }
        ensures value { result ≡ flag_count (block from to self.now.items) }
    {
        if self.flags == 0 {
            return 0;
        }
        self.lines.flags_among(from, to)
    }
}

impl<L: BareLines> LineStore for Store<L> {
    ghost use Rattle.line_store.specs.Kept.{lines_of};
    ghost use Rattle.line_store.specs.Lettered.{lettered-once, lettered-known};

    ghost lines = { lines_of };

    ghost once = { λ s. lettered-once s.marks s.items };

    ghost known = { λ s. lettered-known s.marks 0 s.items };

    fn empty(alloc: Global) -> Result<Self, AllocError> {
        Ok(Store {
            alloc,
            lines: CutLines::empty(alloc)?,
            marks: Marks::none(),
            unflagged: 0,
            flags: 0,
        })
    }

    fn len(&self) -> usize {
        self.lines.len()
    }

    fn text(&self, i: usize) -> &[u8] {
        self.lines.text(i)
    }

    fn open(&mut self, to: usize) -> Result<(), AllocError> {
        self.lines.open(to.min(self.lines.len()))
    }

    fn uncut(&self) -> Result<Option<UncutLines>, AllocError> {
        self.lines.uncut()
    }

    fn push_lines(&self, from: usize, to: usize, output: &mut Pieces) -> Result<(), AllocError> {
        self.lines.push_lines(from, to, output)
    }

    fn exchange(&mut self, i: usize, line: Line) -> Result<Line, Line> {
        let Line { bare, letters } = line;
        let flag = bare.flag();
        match self.lines.exchange(i, bare) {
            Ok(before) => {
                self.unflagged = place_exchanged(self.unflagged, i, flag);
                let letters = self.marks.pass_on(i, &letters);
                // The proof reads off the count of lines that the count of flags fits.
                let _ = self.lines.len();
                self.flags = flags_exchanged(self.flags, before.flag(), flag);
                Ok(Line {
                    bare: before,
                    letters,
                })
            }
            Err(bare) => Err(Line { bare, letters }),
        }
    }

    fn exchange_block(&mut self, from: usize, to: usize, new: Block) -> Result<Block, Block> {
        let count = self.lines.len();
        let flags = self.flags_among(from, to);
        let taken = self
            .lines
            .exchange_block(self.alloc, self.flags, from, to, new)?;
        let entered = self.lines.len() - (count - (to - from));
        self.marks.exchange_places(from, to, count, entered);
        self.unflagged = place_replaced(self.unflagged, from, to, entered);
        self.flags -= flags;
        Ok(taken)
    }

    fn copy_block(&self, from: usize, to: usize) -> Result<Block, AllocError> {
        self.lines.copy_block(self.alloc, from, to)
    }

    fn carry(&mut self, from: usize, to: usize, place: usize) -> Result<(), AllocError> {
        // The proof reads off the count of lines that the sum fits.
        let _ = self.len();
        // How far no line has the flag is told best where the search has gone on to the next one that has it.
        let _ = self.next_flagged();
        if place <= from {
            return self.swap_blocks(place, from, to);
        }
        self.swap_blocks(from, to, place + (to - from))
    }

    fn mark(&mut self, i: usize, letter: Letter) {
        self.marks.set(letter, i);
    }

    fn marked(&self, letter: Letter) -> Option<usize> {
        self.marks.place_of(letter)
    }

    fn set_marks(&mut self, marks: &Marks) {
        self.marks = marks.among(self.lines.len());
    }

    fn flag(&mut self, i: usize) -> Result<(), AllocError> {
        let before = self.lines.flagged(i);
        self.lines.flag(i)?;
        self.unflagged = place_exchanged(self.unflagged, i, true);
        // The proof reads off the count of lines that the count of flags fits.
        let _ = self.lines.len();
        self.flags = flags_exchanged(self.flags, before, true);
        Ok(())
    }

    fn unflag(&mut self, i: usize) {
        let before = self.lines.flagged(i);
        self.lines.unflag(i);
        self.unflagged = place_exchanged(self.unflagged, i, false);
        // The proof reads off the count of lines that the count of flags fits.
        let _ = self.lines.len();
        self.flags = flags_exchanged(self.flags, before, false);
    }

    fn flagged(&self, i: usize) -> bool {
        self.lines.flagged(i)
    }

    fn flag_count(&self) -> usize {
        self.flags
    }

    fn next_flagged(&mut self) -> Option<usize> {
        if self.flags == 0 {
            self.unflagged = self.lines.len();
            return None;
        }
        let from = self.unflagged.min(self.lines.len());
        let place = self.lines.first_flagged(from);
        self.unflagged = place;
        if place < self.lines.len() {
            Some(place)
        } else {
            None
        }
    }

    fn try_copy(&self) -> Result<Self, AllocError> {
        Ok(Store {
            alloc: self.alloc,
            lines: self.lines.try_copy()?,
            marks: self.marks.copy(),
            unflagged: self.unflagged,
            flags: self.flags,
        })
    }
}
