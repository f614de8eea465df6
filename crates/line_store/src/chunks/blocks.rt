//! Chunks that go out and come in, so that a block of many lines is taken or put without a look at each of them.
ghost use Rattle.std.specs.Prelude.{◌≡◌, ◌+◌, ◌-◌, ◌^◌, ◌<◌, ◌≤◌, [], ◌++◌, length, vec_capacity, IfErr, IfOk, IfSome, OnErr, OnOk};
ghost use Rattle.ed_base.specs.Buffer.{texts};
ghost use Rattle.ed_base.specs.Parts.{block, exchanged};
ghost use Rattle.line_store.specs.Chunks.{joined, lines_before};
ghost use Rattle.line_store.specs.Kept.{flag_count};

use crate::Block;
use crate::chunk::Chunk;
use crate::chunks::ChunkLines;
use std::alloc::AllocError;

/// Puts chunks after others, among which there is room for them.
fn append_chunks(chunks: &mut Vec<Chunk>, more: &mut Vec<Chunk>)
    requires room { length chunks.old.items + length more.old.items ≤ vec_capacity chunks.old }
    ensures appended { chunks.new.items ≡ chunks.old.items ++ more.old.items }
    ensures capacity { vec_capacity chunks.old ≤ vec_capacity chunks.new }
{
    match chunks.append(more) {
        Ok(()) => {}
        Err(_no_memory) => unreachable!(),
    }
}

/// Puts chunks in place of those from chunk `low` up to `high`, which are handed back.
fn exchange_chunks(
    chunks: &mut Vec<Chunk>,
    low: usize,
    high: usize,
    new: &mut Vec<Chunk>,
) -> Result<Vec<Chunk>, AllocError>
    requires order { low ≤ high }
    requires last { high ≤ length chunks.old.items }
    ensures taken { IfOk result (λ taken. taken.items ≡ block low high chunks.old.items) }
    ensures put { OnOk result (chunks.new.items ≡ exchanged low high new.old.items chunks.old.items) }
    ensures unchanged { OnErr result (chunks.new.items ≡ chunks.old.items) }
    ensures handed_back { OnErr result (new.new.items ≡ new.old.items) }
{
    chunks.reserve(new.len())?;
    let mut rest = chunks.split_off(high)?;
    match chunks.split_off(low) {
        Ok(taken) => {
            append_chunks(chunks, new);
            append_chunks(chunks, &mut rest);
            Ok(taken)
        }
        Err(no_memory) => {
            append_chunks(chunks, &mut rest);
            Err(no_memory)
        }
    }
}

impl ChunkLines {
    /// Puts chunks in place of those from chunk `low` up to `high`, which are handed back. Then there are so many lines.
    fn swap_in(
        &mut self,
        low: usize,
        high: usize,
        new: &mut Vec<Chunk>,
        count: usize,
    ) -> Result<Vec<Chunk>, AllocError>
        requires order { low ≤ high }
        requires last { high ≤ length self.old.chunks }
        requires count { count ≡ length (joined (exchanged low high new.old.items self.old.chunks)) }
        ensures taken { IfOk result (λ taken. taken.items ≡ block low high self.old.chunks) }
        ensures put { OnOk result (self.new.chunks ≡ exchanged low high new.old.items self.old.chunks) }
        ensures unchanged { OnErr result (self.new.chunks ≡ self.old.chunks) }
        ensures handed_back { OnErr result (new.new.items ≡ new.old.items) }
    {
        self.starts.reserve(new.len())?;
        let taken = exchange_chunks(&mut self.chunks, low, high, new)?;
        self.count = count;
        self.starts.count(&self.chunks);
        Ok(taken)
    }

    /// The chunks that begin at two places, or ones after all that have lines; none where no chunk begins at one of them.
    fn chunks_from(&self, from: usize, to: usize) -> Option<(usize, usize)>
        requires order { from ≤ to }
        requires last { to ≤ length (joined self.now.chunks) }
        ensures order { IfSome result (λ k. k.0 ≤ k.1) }
        ensures last { IfSome result (λ k. k.1 ≤ length self.now.chunks) }
        ensures low { IfSome result (λ k. lines_before k.0 self.now.chunks ≡ from) }
        ensures high { IfSome result (λ k. lines_before k.1 self.now.chunks ≡ to) }
    {
        let low = self.chunk_from(from)?;
        if from == to {
            return Some((low, low));
        }
        let high = self.chunk_from(to)?;
        Some((low, high))
    }

    /// Puts the lines of chunks, which are so many, in place of those from place `from` up to `to`, chunk by chunk. An `Err` comes
    /// where no memory is left to have a chunk begin at each of the places, or for the chunks that go out.
    fn exchange_range(
        &mut self,
        from: usize,
        to: usize,
        new: &mut Vec<Chunk>,
        count: usize,
    ) -> Result<Block, AllocError>
        requires order { from ≤ to }
        requires last { to ≤ length (joined self.old.chunks) }
        requires count { count ≡ length (joined new.old.items) }
        requires unflagged { flag_count (joined self.old.chunks) ≡ 0 }
        ensures taken { IfOk result (λ taken. taken ≡ texts (block from to (joined self.old.chunks))) }
        ensures put { OnOk result (joined self.new.chunks ≡ exchanged from to (joined new.old.items) (joined self.old.chunks)) }
        ensures unchanged { OnErr result (joined self.new.chunks ≡ joined self.old.chunks) }
        ensures handed_back { OnErr result (new.new.items ≡ new.old.items) }
    {
        let Some(all) = (self.count - (to - from)).checked_add(count) else {
            return Err(AllocError);
        };
        self.cut(from)?;
        self.cut(to)?;
        let Some((low, high)) = self.chunks_from(from, to) else {
            return Err(AllocError);
        };
        let after = low.saturating_add(new.len());
        let taken = self.swap_in(low, high, new, all)?;
        self.join_at(after);
        self.join_at(low);
        Ok(Block::of_chunks(taken, to - from))
    }

    /// The same, where the chunks that can't come in are handed back as a block. None of their lines has the flag.
    pub(crate) fn exchange_all(
        &mut self,
        from: usize,
        to: usize,
        mut new: Vec<Chunk>,
        count: usize,
    ) -> Result<Block, Block>
        requires order { from ≤ to }
        requires last { to ≤ length (joined self.old.chunks) }
        requires count { count ≡ length (joined new.items) }
        requires bare { flag_count (joined new.items) ≡ 0 }
        requires unflagged { flag_count (joined self.old.chunks) ≡ 0 }
        ensures taken { IfOk result (λ taken. taken ≡ texts (block from to (joined self.old.chunks))) }
        ensures put { OnOk result (joined self.new.chunks ≡ exchanged from to (joined new.items) (joined self.old.chunks)) }
        ensures handed_back { IfErr result (λ back. back ≡ texts (joined new.items)) }
        ensures unchanged { OnErr result (joined self.new.chunks ≡ joined self.old.chunks) }
    {
        match self.exchange_range(from, to, &mut new, count) {
            Ok(taken) => Ok(taken),
            Err(_no_memory) => Err(Block::of_chunks(new, count)),
        }
    }
}
