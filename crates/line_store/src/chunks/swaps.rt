//! Chunks that change places, so that a block of many lines is carried without a look at each of them.
ghost use Rattle.std.specs.Prelude.{◌≡◌, ◌-◌, ◌<◌, ◌≤◌, length, IfSome, OnErr, OnOk};
ghost use Rattle.line_store.specs.Chunks.{joined, lines_before};
ghost use Rattle.line_store.specs.Swaps.{swapped};

use crate::chunk::FULL;
use crate::chunk_room::{join_chunks, split_chunk};
use crate::chunks::ChunkLines;
use std::alloc::AllocError;

impl ChunkLines {
    /// Has a chunk begin at a place.
    pub(crate) fn cut(&mut self, at: usize) -> Result<(), AllocError>
        requires place { at ≤ length (joined self.old.chunks) }
        ensures unchanged { joined self.new.chunks ≡ joined self.old.chunks }
        ensures no_fewer { length self.old.chunks ≤ length self.new.chunks }
    {
        if at == 0 {
            return Ok(());
        }
        let k = self.chunk_of(at - 1);
        let keep = at - self.start(k);
        if keep == self.chunks[k].len() {
            return Ok(());
        }
        self.starts.reserve(1)?;
        split_chunk(&mut self.chunks, k, keep)?;
        self.starts.count(&self.chunks);
        Ok(())
    }

    /// The chunk that begins at a place, or one after all that have lines; none where no chunk begins there.
    pub(crate) fn chunk_from(&self, at: usize) -> Option<usize>
        requires place { at ≤ length (joined self.now.chunks) }
        ensures value { IfSome result (λ k. (k ≤ length self.now.chunks) × (lines_before k self.now.chunks ≡ at)) }
    {
        if at == 0 {
            return Some(0);
        }
        let k = self.chunk_of(at - 1);
        if at - self.start(k) == self.chunks[k].len() {
            Some(k + 1)
        } else {
            None
        }
    }

    /// The chunks from chunk `low` up to `middle` and those from there up to `high` change places.
    fn swap_chunks(&mut self, low: usize, middle: usize, high: usize)
        requires first { low ≤ middle }
        requires second { middle ≤ high }
        requires last { high ≤ length self.old.chunks }
        ensures swapped { joined self.new.chunks
            ≡ swapped (lines_before low self.old.chunks) (lines_before middle self.old.chunks) (lines_before high self.old.chunks) (joined self.old.chunks) }
        ensures length { length self.new.chunks ≡ length self.old.chunks }
    {
        self.chunks[low..high].rotate_left(middle - low);
        self.starts.count(&self.chunks);
    }

    /// Joins a chunk with the one before it, where a chunk has room for the lines of both.
    pub(crate) fn join_at(&mut self, k: usize)
        ensures unchanged { joined self.new.chunks ≡ joined self.old.chunks }
        ensures length { length self.new.chunks ≡ length self.old.chunks }
    {
        if k == 0 || k >= self.chunks.len() {
            return;
        }
        // One without lines after a chunk stays there, and no line is moved for it.
        if self.chunks[k].len() == 0 {
            return;
        }
        if self.chunks[k - 1].len() + self.chunks[k].len() > FULL {
            return;
        }
        join_chunks(&mut self.chunks, k - 1);
        self.starts.count(&self.chunks);
    }

    /// The lines from place `low` up to `middle` and those from there up to `high` change places, chunk by chunk. Where no memory is
    /// left to have a chunk begin at each of the places, they stay.
    pub(crate) fn swap_whole(
        &mut self,
        low: usize,
        middle: usize,
        high: usize,
    ) -> Result<(), AllocError>
        requires first { low < middle }
        requires second { middle < high }
        requires last { high ≤ length (joined self.old.chunks) }
        ensures swapped { OnOk result (joined self.new.chunks ≡ swapped low middle high (joined self.old.chunks)) }
        ensures unchanged { OnErr result (joined self.new.chunks ≡ joined self.old.chunks) }
        ensures no_fewer { length self.old.chunks ≤ length self.new.chunks }
    {
        self.cut(low)?;
        self.cut(middle)?;
        self.cut(high)?;
        let Some(first) = self.chunk_from(low) else {
            return Err(AllocError);
        };
        let Some(second) = self.chunk_from(middle) else {
            return Err(AllocError);
        };
        let Some(last) = self.chunk_from(high) else {
            return Err(AllocError);
        };
        self.swap_chunks(first, second, last);
        self.join_at(last);
        self.join_at(last - (second - first));
        self.join_at(first);
        Ok(())
    }
}
