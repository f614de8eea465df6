//! Copies of many lines, in chunks, so that they come in without a look at each of them.
ghost use Rattle.std.specs.Prelude.{◌≡◌, ◌-◌, ◌≤◌, length, map, IfOk};
ghost use Rattle.ed_base.specs.Buffer.{plain_line, texts};
ghost use Rattle.ed_base.specs.Parts.{block};
ghost use Rattle.line_store.specs.Chunks.{full};
ghost use Rattle.line_store.specs.Cut.{all_lines};

use crate::chunk::{Chunk, FULL};
use crate::cut_lines::CutLines;
use crate::{BareLines, Block};
use std::alloc::{AllocError, Global};

impl<L: BareLines> CutLines<L> {
    /// New lines of the texts of those from place `from` up to `to`, no more than a chunk holds.
    fn copy_chunk(&self, alloc: Global, from: usize, to: usize) -> Result<Chunk, AllocError>
        requires order { from ≤ to }
        requires last { to ≤ length (all_lines self.now) }
        requires fits { to - from ≤ full }
        ensures value { IfOk result (λ chunk. chunk ≡ map plain_line (texts (block from to (all_lines self.now)))) }
    {
        let mut chunk = Chunk::new(alloc)?;
        for i in from..to {
            chunk.push(self.plain_copy(i)?);
        }
        Ok(chunk)
    }

    /// New lines of the texts of those from place `from` up to `to`, in chunks.
    pub(crate) fn copy_chunks(
        &self,
        alloc: Global,
        from: usize,
        to: usize,
    ) -> Result<Block, AllocError>
        requires order { from ≤ to }
        requires last { to ≤ length (all_lines self.now) }
        ensures value { IfOk result (λ copies. copies ≡ texts (block from to (all_lines self.now))) }
    {
        let mut chunks = Vec::new(alloc);
        let mut next = from;
        'chunks: while next < to {
            let end = next + (to - next).min(FULL);
            let chunk = self.copy_chunk(alloc, next, end)?;
            chunks.push(chunk)?;
            next = end;
        }
        Ok(Block::of_chunks(chunks, to - from))
    }
}
