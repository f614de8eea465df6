//! Lines with a gap among them.
ghost use Rattle.std.specs.Prelude.{◌≡◌, ◌+◌, ◌-◌, ◌<◌, ◌≤◌, if◌then◌else◌, length, nat_lt, slice_index_or};
ghost use Rattle.ed_base.specs.Buffer.{flagged_at};

use crate::{BareLine, BareLines, Block, Store};
use ed_base::Pieces;
use std::alloc::{AllocError, Global};
use std::collections::VecDeque;
use std::marker::Model;
use std::mem::replace;

/// A store whose lines have a gap among them.
pub type GapStore = Store<GapLines>;

/// Lines with a gap among them. It goes to where lines come in and go out, so that edits at rising places cost the lines that lie
/// between them. They stand in a ring, first those after the gap and then those before it, so that there the gap is where the
/// ring is open, and to turn the ring is to move the gap.
#[derive(Drop)]
pub struct GapLines {
    ring: VecDeque<BareLine>,
    // How many lines stand after the gap.
    after: usize,
}

impl Model for GapLines {
    ghost use Rattle.std.specs.Prelude.{◌-◌, ◌≤◌, length};
    ghost use Rattle.std.specs.VecDeque.{deque_capacity, deque_len};
    ghost use Rattle.line_store.specs.Gaps.{GapValue, turned};

    ghost Value = { GapValue };

    ghost view = { λ l. record { items = turned l.after l.ring.items; gap = length l.ring.items - l.after; room = deque_capacity l.ring - deque_len l.ring } };

    ghost invariant = { λ l. l.after ≤ length l.ring.items };
}

/// Where a line stands in a ring of so many, of which some stand after the gap.
fn place_in_ring(after: usize, count: usize, i: usize) -> usize
    requires after { after ≤ count }
    requires place { i < count }
    ensures value { result ≡ (if nat_lt i (count - after) then i + after else i - (count - after)) }
    ensures within { result < count }
{
    let before = count - after;
    if i < before { i + after } else { i - before }
}

impl GapLines {
    /// Moves the gap to place `at`.
    fn move_gap(&mut self, at: usize)
        requires place { at ≤ length self.old.items }
        ensures value { self.new ≡ record self.old { gap = at } }
    {
        let gap = self.ring.len() - self.after;
        if at < gap {
            self.ring.rotate_right(gap - at);
            self.after += gap - at;
        } else {
            self.ring.rotate_left(at - gap);
            self.after -= at - gap;
        }
    }

    /// A line.
    fn line(&self, i: usize) -> &BareLine
        requires place { i < length self.now.items }
        ensures value { result.now ≡ slice_index_or self.now.items i result.now }
    {
        &self.ring[place_in_ring(self.after, self.ring.len(), i)]
    }

    /// Flags a line, or takes its flag.
    fn set_flag(&mut self, i: usize, flag: bool)
        requires place { i < length self.old.items }
        ensures flagged { self.new.items ≡ flagged_at i flag self.old.items }
    {
        let place = place_in_ring(self.after, self.ring.len(), i);
        self.ring[place].set_flag(flag);
    }
}

impl BareLines for GapLines {
    ghost items = { λ l. l.items };

    ghost spare = { λ l. l.room };

    fn empty(alloc: Global) -> Result<Self, AllocError> {
        Ok(GapLines {
            ring: VecDeque::new(alloc),
            after: 0,
        })
    }

    fn len(&self) -> usize {
        self.ring.len()
    }

    fn text(&self, i: usize) -> &[u8] {
        self.line(i).as_slice()
    }

    fn plain_copy(&self, i: usize) -> Result<BareLine, AllocError> {
        self.line(i).plain_copy()
    }

    fn push_line(&self, i: usize, output: &mut Pieces) -> Result<(), AllocError> {
        self.line(i).push_to(output)
    }

    fn reserve(&mut self, n: usize) -> Result<(), AllocError> {
        self.ring.reserve(n)
    }

    fn insert(&mut self, at: usize, line: BareLine) -> Result<(), BareLine> {
        self.move_gap(at);
        match self.ring.push_back(line) {
            Ok(()) => Ok(()),
            Err(refused) => Err(refused.value),
        }
    }

    fn remove(&mut self, i: usize) -> BareLine {
        self.move_gap(i);
        let Some(line) = self.ring.pop_front() else {
            unreachable!()
        };
        self.after -= 1;
        line
    }

    fn exchange(&mut self, i: usize, line: BareLine) -> Result<BareLine, BareLine> {
        let place = place_in_ring(self.after, self.ring.len(), i);
        Ok(replace(&mut self.ring[place], line))
    }

    fn flagged(&self, i: usize) -> bool {
        self.line(i).flag()
    }

    fn flag(&mut self, i: usize) -> Result<(), AllocError> {
        self.set_flag(i, true);
        Ok(())
    }

    fn unflag(&mut self, i: usize) {
        self.set_flag(i, false);
    }

    fn swap_blocks(&mut self, _low: usize, _middle: usize, _high: usize) -> bool {
        false
    }

    fn exchange_whole(
        &mut self,
        _alloc: Global,
        _from: usize,
        _to: usize,
        new: Block,
    ) -> Result<Block, Block> {
        Err(new)
    }

    fn try_copy(&self) -> Result<Self, AllocError> {
        let mut ring = VecDeque::with_capacity(*self.ring.allocator(), self.ring.len())?;
        for place in 0..self.ring.len() {
            ring.push_back(self.ring[place].try_copy()?)?;
        }
        Ok(GapLines {
            ring,
            after: self.after,
        })
    }
}
