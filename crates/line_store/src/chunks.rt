//! Lines in chunks.
ghost use Rattle.std.specs.Prelude.{ℕ, ◌≡◌, ◌↔◌, ◌+◌, ◌-◌, ◌*◌, ◌<◌, ◌≤◌, ◌++◌, [], length, ◌^◌, slice_index_or, slice_set, insert, remove, IfOk, IsOk, IsTrue, OnErr, OnOk};
ghost use Rattle.ed_base.specs.Buffer.{flagged_at, texts};
ghost use Rattle.ed_base.specs.Lines.{AreLines, bytes_of};
ghost use Rattle.ed_base.specs.Parts.{block};
ghost use Rattle.line_store.specs.Chunks.{ChunksValue, Fits, StandsIn, Touches, full, joined, lines_before, with_chunk};
ghost use Rattle.line_store.specs.Flagged.{FirstFlagged};

mod blocks;
mod swaps;

use crate::chunk::{Chunk, FULL};
use crate::chunk_room::{add_chunks, make_room_at, make_room_first, split_chunk};
use crate::chunk_starts::ChunkStarts;
use crate::{BareLine, BareLines, Block, FileLines, Store};
use ed_base::Pieces;
use std::alloc::{AllocError, Global};
use std::marker::Model;

/// A store whose lines are in chunks.
pub type ChunkStore = Store<ChunkLines>;

/// Lines in chunks of up to `FULL`, of any length. A line that comes in or goes out moves others of its chunk alone. Chunks
/// without lines stand after all others, until one is wanted.
#[derive(Drop)]
pub struct ChunkLines {
    chunks: Vec<Chunk>,
    starts: ChunkStarts,
    // A chunk that was used lately, if there still are so many: a line is looked for there before the chunks are searched.
    near: usize,
    count: usize,
}

impl Model for ChunkLines {
    ghost use Rattle.line_store.specs.Chunks.{ChunksValue, Known};

    ghost Value = { ChunksValue };

    ghost view = { λ l. record { chunks = l.chunks.items } };

    ghost invariant = { λ l. Known l.count l.starts l.chunks.items };
}

/// How many lines a full chunk keeps when it is split for a line at one of its places. At an end of the chunk its lines stay
/// together, so that chunks that are filled in order stay full.
fn kept(place: usize) -> usize
    requires place { place ≤ full }
    ensures bound { result ≤ full }

    // None only for a line at its first place, and all only for a line at its end.
    ensures none { place ≤ full * result }
    ensures all { 2 * result ≤ full + place }
{
    if place == 0 || place == FULL {
        return place;
    }
    FULL / 2
}

/// In which chunk a line is looked for after another was used. The first one is found without it, so that where each line goes to the
/// front the chunk that they come from stays known.
fn hint(near: usize, used: usize) -> usize {
    if used == 0 { near } else { used }
}

impl ChunkLines {
    /// How many lines stand before a chunk.
    fn start(&self, k: usize) -> usize
        requires chunk { k < length self.now.chunks }
        ensures value { result ≡ lines_before k self.now.chunks }
    {
        self.starts.start(k)
    }

    /// Whether a line stands in a chunk.
    fn is_in(&self, i: usize, k: usize) -> bool
        ensures value { IsTrue result ↔ StandsIn i k self.now.chunks }
    {
        if k >= self.chunks.len() {
            return false;
        }
        let start = self.start(k);
        start <= i && i - start < self.chunks[k].len()
    }

    /// The chunk of a line. It is searched only where it is neither the one that it would be if all chunks were full, as they
    /// are in a file that was just read, nor the one that was used lately.
    fn chunk_of(&self, i: usize) -> usize
        requires place { i < length (joined self.now.chunks) }
        ensures chunk { StandsIn i result self.now.chunks }
    {
        let guess = i / FULL;
        if self.is_in(i, guess) {
            return guess;
        }
        if self.is_in(i, self.near) {
            return self.near;
        }
        self.search_chunk(i)
    }

    /// The chunk of a line, which is searched by halves.
    fn search_chunk(&self, i: usize) -> usize
        requires place { i < length (joined self.now.chunks) }
        ensures chunk { StandsIn i result self.now.chunks }
    {
        let mut low = 0;
        let mut high = self.chunks.len();
        'halves: while high - low > 1 {
            let middle = low + (high - low) / 2;
            if self.start(middle) <= i {
                low = middle;
            } else {
                high = middle;
            }
        }
        low
    }

    /// A chunk that has a place in it, or at its end.
    fn chunk_at(&self, at: usize) -> usize
        requires place { at ≤ length (joined self.now.chunks) }
        requires chunk { 0 < length self.now.chunks }
        ensures chunk { Touches at result self.now.chunks }
    {
        if at == 0 {
            return 0;
        }
        self.chunk_of(at - 1)
    }

    /// Splits a full chunk so that a line may come in at one of its places, and says in which chunk.
    fn split(&mut self, k: usize, place: usize) -> Result<usize, AllocError>
        requires chunk { k < length self.old.chunks }
        requires full { length (slice_index_or self.old.chunks k []) ≡ full }
        requires place { place ≤ full }
        ensures fits { IfOk result (λ j. Fits (lines_before k self.old.chunks + place) j self.new.chunks) }
        ensures unchanged { joined self.new.chunks ≡ joined self.old.chunks }
        ensures no_fewer { length self.old.chunks ≤ length self.new.chunks }
    {
        let keep = kept(place);
        self.starts.reserve(1)?;
        split_chunk(&mut self.chunks, k, keep)?;
        self.starts.count(&self.chunks);
        // A chunk that keeps all of its lines has no room.
        if place <= keep.min(FULL - 1) {
            return Ok(k);
        }
        Ok(k + 1)
    }

    /// Moves lines from chunk to chunk so that a line may come in at a place, and says in which chunk.
    fn draw(&mut self, at: usize) -> Result<usize, AllocError>
        requires place { at ≤ length (joined self.old.chunks) }
        ensures fits { IfOk result (λ k. Fits at k self.new.chunks) }
        ensures unchanged { joined self.new.chunks ≡ joined self.old.chunks }
        ensures no_fewer { length self.old.chunks ≤ length self.new.chunks }
        ensures room { length (joined self.old.chunks) < full * length self.old.chunks → IsOk result }
    {
        if self.count / FULL >= self.chunks.len() {
            return Err(AllocError);
        }
        make_room_first(&mut self.chunks);
        let k = make_room_at(&mut self.chunks, at);
        self.starts.count(&self.chunks);
        Ok(k)
    }

    /// Adds empty chunks until there are so many.
    fn add(&mut self, count: usize) -> Result<(), AllocError>
        ensures enough { OnOk result (count ≤ length self.new.chunks) }
        ensures unchanged { joined self.new.chunks ≡ joined self.old.chunks }
        ensures no_fewer { length self.old.chunks ≤ length self.new.chunks }
        ensures in_place { count ≤ length self.old.chunks → IsOk result }
    {
        if count <= self.chunks.len() {
            return Ok(());
        }
        self.starts.reserve(count - self.chunks.len())?;
        let added = add_chunks(&mut self.chunks, count);
        self.starts.count(&self.chunks);
        added
    }

    /// Puts a chunk after all others.
    fn push_chunk(&mut self, chunk: Chunk) -> Result<(), AllocError>
        ensures pushed { OnOk result (joined self.new.chunks ≡ joined self.old.chunks ++ chunk) }
        ensures unchanged { OnErr result (joined self.new.chunks ≡ joined self.old.chunks) }
    {
        let Some(count) = self.count.checked_add(chunk.len()) else {
            return Err(AllocError);
        };
        self.starts.reserve(1)?;
        self.chunks.push(chunk)?;
        self.starts.push(self.count);
        self.count = count;
        Ok(())
    }

    /// Sees that a line may come in at a place, and says in which chunk.
    fn make_room(&mut self, at: usize) -> Result<usize, AllocError>
        requires place { at ≤ length (joined self.old.chunks) }
        ensures fits { IfOk result (λ k. Fits at k self.new.chunks) }
        ensures unchanged { joined self.new.chunks ≡ joined self.old.chunks }
        ensures no_fewer { length self.old.chunks ≤ length self.new.chunks }
        ensures room { length (joined self.old.chunks) < full * length self.old.chunks → IsOk result }
    {
        self.add(1)?;
        let k = self.chunk_at(at);
        if self.chunks[k].len() < FULL {
            return Ok(k);
        }
        let place = at - self.start(k);
        if place == FULL && k + 1 < self.chunks.len() && self.chunks[k + 1].len() < FULL {
            return Ok(k + 1);
        }
        if let Ok(chunk) = self.split(k, place) {
            return Ok(chunk);
        }
        self.draw(at)
    }

    /// Puts a line in a chunk.
    fn put_in(&mut self, k: usize, place: usize, line: BareLine)
        requires chunk { k < length self.old.chunks }
        requires place { place ≤ length (slice_index_or self.old.chunks k []) }
        requires room { length (slice_index_or self.old.chunks k []) < full }
        requires count { length (joined self.old.chunks) + 1 < 2 ^ 64 }
        ensures inserted { self.new ≡ with_chunk k (insert (slice_index_or self.old.chunks k []) place line) self.old }
    {
        self.near = hint(self.near, k);
        self.chunks[k].insert(place, line);
        self.starts.raise(k);
        self.count += 1;
    }

    /// Takes a line out of a chunk.
    fn take_in(&mut self, k: usize, place: usize) -> BareLine
        requires chunk { k < length self.old.chunks }
        requires place { place < length (slice_index_or self.old.chunks k []) }
        ensures value { result ≡ slice_index_or (slice_index_or self.old.chunks k []) place result }
        ensures removed { self.new ≡ with_chunk k (remove (slice_index_or self.old.chunks k []) place) self.old }
    {
        self.near = hint(self.near, k);
        let line = self.chunks[k].remove(place);
        self.starts.lower(k);
        self.count -= 1;
        line
    }

    /// Puts a line in place of another of a chunk.
    fn exchange_in(&mut self, k: usize, place: usize, line: BareLine) -> BareLine
        requires chunk { k < length self.old.chunks }
        requires place { place < length (slice_index_or self.old.chunks k []) }
        ensures value { result ≡ slice_index_or (slice_index_or self.old.chunks k []) place result }
        ensures exchanged { self.new ≡ with_chunk k (slice_set (slice_index_or self.old.chunks k []) place line) self.old }
    {
        self.near = hint(self.near, k);
        self.chunks[k].exchange(place, line)
    }

    /// Flags a line of a chunk, or takes its flag.
    fn flag_in(&mut self, k: usize, place: usize, flag: bool)
        requires chunk { k < length self.old.chunks }
        requires place { place < length (slice_index_or self.old.chunks k []) }
        ensures flagged { self.new ≡ with_chunk k (flagged_at place flag (slice_index_or self.old.chunks k [])) self.old }
    {
        self.near = hint(self.near, k);
        self.chunks[k].set_flag(place, flag);
    }

    /// The first place of a chunk from `from` on where a line has the flag, or the number of its lines.
    fn flagged_in(&self, k: usize, from: usize) -> usize
        requires chunk { k < length self.now.chunks }
        requires place { from ≤ length (slice_index_or self.now.chunks k []) }
        ensures first { FirstFlagged from result (slice_index_or self.now.chunks k []) }
    {
        self.chunks[k].first_flagged(from)
    }

    /// Appends the bytes of the lines of a chunk from place `from` up to `to`, each with a newline.
    fn push_in(
        &self,
        k: usize,
        from: usize,
        to: usize,
        output: &mut Pieces,
    ) -> Result<(), AllocError>
        requires chunk { k < length self.now.chunks }
        requires order { from ≤ to }
        requires last { to ≤ length (slice_index_or self.now.chunks k []) }
        ensures appended { OnOk result
            (output.new ≡ output.old ++ bytes_of (texts (block from to (slice_index_or self.now.chunks k [])))) }
        ensures lines { OnOk result (AreLines (texts (block from to (slice_index_or self.now.chunks k [])))) }
    {
        self.chunks[k].push_lines(from, to, output)
    }

    /// How many lines a chunk has.
    fn lines_in(&self, k: usize) -> usize
        requires chunk { k < length self.now.chunks }
        ensures value { result ≡ length (slice_index_or self.now.chunks k []) }
    {
        self.chunks[k].len()
    }

    /// Puts a chunk that has no lines after all others.
    fn set_aside(&mut self, k: usize)
        requires chunk { k < length self.old.chunks }
        requires empty { length (slice_index_or self.old.chunks k []) ≡ 0 }
        ensures unchanged { joined self.new.chunks ≡ joined self.old.chunks }
        ensures length { length self.new.chunks ≡ length self.old.chunks }
    {
        let empty = self.chunks.remove(k);
        self.chunks.push_reserved(empty);
        self.starts.count(&self.chunks);
    }

    /// Puts a chunk after all others if it has no lines.
    fn tidy(&mut self, k: usize)
        requires chunk { k < length self.old.chunks }
        ensures unchanged { joined self.new.chunks ≡ joined self.old.chunks }
        ensures length { length self.new.chunks ≡ length self.old.chunks }
    {
        if self.chunks[k].len() == 0 {
            self.set_aside(k);
        }
    }

    /// A line.
    fn line(&self, i: usize) -> &BareLine
        requires place { i < length (joined self.now.chunks) }
        ensures value { result.now ≡ slice_index_or (joined self.now.chunks) i result.now }
    {
        let k = self.chunk_of(i);
        self.chunks[k].line(i - self.start(k))
    }

    /// Flags a line, or takes its flag.
    fn set_flag(&mut self, i: usize, flag: bool)
        requires place { i < length (joined self.old.chunks) }
        ensures flagged { joined self.new.chunks ≡ flagged_at i flag (joined self.old.chunks) }
    {
        let k = self.chunk_of(i);
        let place = i - self.start(k);
        self.flag_in(k, place, flag);
    }
}

impl BareLines for ChunkLines {
    ghost use Rattle.line_store.specs.Chunks.{joined, room_among};

    ghost items = { λ l. joined l.chunks };

    ghost spare = { λ l. room_among l.chunks };

    fn empty(alloc: Global) -> Result<Self, AllocError> {
        Ok(ChunkLines {
            chunks: Vec::new(alloc),
            starts: ChunkStarts::new(alloc),
            near: 0,
            count: 0,
        })
    }

    fn len(&self) -> usize {
        self.count
    }

    fn text(&self, i: usize) -> &[u8] {
        self.line(i).as_slice()
    }

    fn plain_copy(&self, i: usize) -> Result<BareLine, AllocError> {
        self.line(i).plain_copy()
    }

    fn push_line(&self, i: usize, output: &mut Pieces) -> Result<(), AllocError> {
        self.line(i).push_to(output)
    }

    fn push_lines(&self, from: usize, to: usize, output: &mut Pieces) -> Result<(), AllocError> {
        if from == to {
            return Ok(());
        }
        let mut k = self.chunk_of(from);
        let mut next = from;
        'chunks: while k < self.chunks.len() {
            let start = self.start(k);
            let count = self.lines_in(k);
            let end = count.min(to - start);
            self.push_in(k, next - start, end, output)?;
            if end < count {
                return Ok(());
            }
            next = start + count;
            k += 1;
        }
        Ok(())
    }

    fn reserve(&mut self, n: usize) -> Result<(), AllocError> {
        if n == 0 {
            return Ok(());
        }
        let Some(count) = self.count.checked_add(n) else {
            return Err(AllocError);
        };
        // As many chunks as so many lines take, a last one in part.
        self.add(count / FULL + (count % FULL).min(1))
    }

    fn insert(&mut self, at: usize, line: BareLine) -> Result<(), BareLine> {
        if self.count == usize::MAX {
            return Err(line);
        }
        let Ok(k) = self.make_room(at) else {
            return Err(line);
        };
        let place = at - self.start(k);
        self.put_in(k, place, line);
        Ok(())
    }

    fn take_in(&mut self, file: &mut FileLines) -> Result<(), AllocError> {
        let mut rest = file.try_copy()?;
        let chunk = Chunk::of_file(&mut rest)?;
        self.push_chunk(chunk)?;
        *file = rest;
        Ok(())
    }

    fn remove(&mut self, i: usize) -> BareLine {
        let k = self.chunk_of(i);
        let place = i - self.start(k);
        let line = self.take_in(k, place);
        self.tidy(k);
        line
    }

    fn exchange(&mut self, i: usize, line: BareLine) -> Result<BareLine, BareLine> {
        let k = self.chunk_of(i);
        let place = i - self.start(k);
        Ok(self.exchange_in(k, place, line))
    }

    fn flagged(&self, i: usize) -> bool {
        self.line(i).flag()
    }

    fn flag(&mut self, i: usize) -> Result<(), AllocError> {
        self.set_flag(i, true);
        Ok(())
    }

    fn unflag(&mut self, i: usize) {
        self.set_flag(i, false);
    }

    fn first_flagged(&self, from: usize) -> usize {
        if from == self.count {
            return from;
        }
        let mut k = self.chunk_of(from);
        let mut next = from;
        'chunks: while k < self.chunks.len() {
            let start = self.start(k);
            let place = self.flagged_in(k, next - start);
            if place < self.lines_in(k) {
                return start + place;
            }
            next = start + place;
            k += 1;
        }
        next
    }

    fn swap_blocks(&mut self, low: usize, middle: usize, high: usize) -> bool {
        // Where few lines move, it is not worth it to split chunks.
        if (middle - low).min(high - middle) < FULL {
            return false;
        }
        match self.swap_whole(low, middle, high) {
            Ok(()) => true,
            Err(_no_memory) => false,
        }
    }

    fn exchange_whole(
        &mut self,
        alloc: Global,
        from: usize,
        to: usize,
        new: Block,
    ) -> Result<Block, Block> {
        // Where few lines go out and come in, it is not worth it to split chunks.
        if to - from < FULL && !new.is_in_chunks() {
            return Err(new);
        }
        let (chunks, count) = new.into_chunks(alloc)?;
        self.exchange_all(from, to, chunks, count)
    }

    fn try_copy(&self) -> Result<Self, AllocError> {
        let count = self.count;
        let alloc = *self.chunks.allocator();
        let mut chunks = Vec::with_capacity(alloc, self.chunks.len())?;
        for chunk in &self.chunks {
            chunks.push(chunk.try_copy(alloc)?)?;
        }
        let mut starts = ChunkStarts::new(alloc);
        starts.reserve(chunks.len())?;
        starts.count(&chunks);
        Ok(ChunkLines {
            chunks,
            starts,
            near: self.near,
            count,
        })
    }
}
