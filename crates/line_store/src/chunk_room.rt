//! Room among chunks: more of them, and lines that move on from one to the next where no memory is left.
ghost use Rattle.std.specs.Prelude.{◌≡◌, ◌+◌, ◌*◌, ◌^◌, ◌<◌, ◌≤◌, [], length, slice_index_or, vec_len, vec_capacity, IfOk, IsOk, OnOk, OnErr};
ghost use Rattle.line_store.specs.Chunks.{Fits, Split, full, joined, lines_before};

use crate::chunk::{Chunk, FULL};
use std::alloc::AllocError;

/// Adds empty chunks until there are so many.
pub(crate) fn add_chunks(chunks: &mut Vec<Chunk>, count: usize) -> Result<(), AllocError>
    requires fewer { length chunks.old.items ≤ count }
    ensures enough { OnOk result (length chunks.new.items ≡ count) }
    ensures no_fewer { length chunks.old.items ≤ length chunks.new.items }
    ensures no_more { length chunks.new.items ≤ count }
    ensures joined { joined chunks.new.items ≡ joined chunks.old.items }
{
    while chunks.len() < count {
        let chunk = Chunk::new(*chunks.allocator())?;
        chunks.push(chunk)?;
    }
    Ok(())
}

/// A chunk without lines: the last one, where that has none, or else a new one. It has room among the others.
fn spare_chunk(chunks: &mut Vec<Chunk>, k: usize) -> Result<Chunk, AllocError>
    requires chunk { k < length chunks.old.items }
    ensures value { IfOk result (λ chunk. chunk ≡ []) }
    ensures room { OnOk result (vec_len chunks.new < vec_capacity chunks.new) }
    ensures unchanged { OnErr result (chunks.new.items ≡ chunks.old.items) }
    ensures joined { joined chunks.new.items ≡ joined chunks.old.items }
    ensures chunk { k < length chunks.new.items }
    ensures same { slice_index_or chunks.new.items k [] ≡ slice_index_or chunks.old.items k [] }
    ensures before { lines_before k chunks.new.items ≡ lines_before k chunks.old.items }
    ensures no_fewer { length chunks.old.items ≤ length chunks.new.items + 1 }
    ensures no_more { length chunks.new.items ≤ length chunks.old.items }
{
    let last = chunks.len() - 1;
    if k < last && chunks[last].len() == 0 {
        return Ok(chunks.remove(last));
    }
    chunks.reserve(1)?;
    Chunk::new(*chunks.allocator())
}

/// Splits a chunk in two, of which the first keeps so many lines.
pub(crate) fn split_chunk(chunks: &mut Vec<Chunk>, k: usize, keep: usize) -> Result<(), AllocError>
    requires chunk { k < length chunks.old.items }
    requires keep { keep ≤ length (slice_index_or chunks.old.items k []) }
    ensures split { OnOk result (Split k keep chunks.old.items chunks.new.items) }
    ensures unchanged { OnErr result (chunks.new.items ≡ chunks.old.items) }
    ensures no_more { length chunks.new.items ≤ length chunks.old.items + 1 }
{
    let mut upper = spare_chunk(chunks, k)?;
    chunks[k].give(keep, &mut upper);
    match chunks.insert(k + 1, upper) {
        Ok(()) => Ok(()),
        Err(_refused) => unreachable!(),
    }
}

/// Joins a chunk with the next one, for whose lines and its own a chunk has room. One that then has none comes after all others.
pub(crate) fn join_chunks(chunks: &mut Vec<Chunk>, k: usize)
    requires chunk { k + 1 < length chunks.old.items }
    requires room { length (slice_index_or chunks.old.items k []) + length (slice_index_or chunks.old.items (k + 1) []) ≤ full }
    ensures joined { joined chunks.new.items ≡ joined chunks.old.items }
    ensures length { length chunks.new.items ≡ length chunks.old.items }
{
    let mut first = chunks.remove(k);
    first.give_all(&mut chunks[k]);
    chunks.push_reserved(first);
}

/// Moves the last line of a chunk to the next one, where there is a line and room for it.
fn pass_on(chunks: &mut Vec<Chunk>, k: usize)
    requires chunk { k + 1 < length chunks.old.items }
    ensures joined { joined chunks.new.items ≡ joined chunks.old.items }
    ensures length { length chunks.new.items ≡ length chunks.old.items }
    ensures room { length (slice_index_or chunks.old.items (k + 1) []) < full → length (slice_index_or chunks.new.items k []) < full }
    ensures unchanged { full ≤ length (slice_index_or chunks.old.items (k + 1) []) → chunks.new.items ≡ chunks.old.items }
{
    let lines = chunks[k].len();
    if lines == 0 || chunks[k + 1].len() == FULL {
        return;
    }
    let last = chunks[k].remove(lines - 1);
    chunks[k + 1].insert(0, last);
}

/// Moves the first line of the next chunk to a chunk that has room, where there is one.
fn draw_back(chunks: &mut Vec<Chunk>, k: usize)
    requires chunk { k + 1 < length chunks.old.items }
    requires room { length (slice_index_or chunks.old.items k []) < full }
    ensures joined { joined chunks.new.items ≡ joined chunks.old.items }
    ensures length { length chunks.new.items ≡ length chunks.old.items }
    ensures before { lines_before k chunks.new.items ≡ lines_before k chunks.old.items }
    ensures room { length (slice_index_or chunks.new.items (k + 1) []) < full }
    ensures one { length (slice_index_or chunks.new.items k []) ≤ length (slice_index_or chunks.old.items k []) + 1 }
{
    if chunks[k + 1].len() == 0 {
        return;
    }
    let first = chunks[k + 1].remove(0);
    chunks[k].push(first);
}

/// Moves lines on so that the first chunk has room, without a want of memory.
pub(crate) fn make_room_first(chunks: &mut Vec<Chunk>)
    requires room { length (joined chunks.old.items) < full * length chunks.old.items }
    ensures joined { joined chunks.new.items ≡ joined chunks.old.items }
    ensures length { length chunks.new.items ≡ length chunks.old.items }
    ensures room { length (slice_index_or chunks.new.items 0 []) < full }
{
    let mut k = chunks.len() - 1;
    'passes: while k > 0 {
        k -= 1;
        pass_on(chunks, k);
    }
}

/// Moves lines back, from the first chunk on, so that a line may come in at a place, and says in which chunk.
pub(crate) fn make_room_at(chunks: &mut Vec<Chunk>, at: usize) -> usize
    requires place { at ≤ length (joined chunks.old.items) }
    requires chunk { 0 < length chunks.old.items }
    requires room { length (slice_index_or chunks.old.items 0 []) < full }
    requires count { length (joined chunks.old.items) < 2 ^ 64 }
    ensures joined { joined chunks.new.items ≡ joined chunks.old.items }
    ensures length { length chunks.new.items ≡ length chunks.old.items }
    ensures fits { Fits at result chunks.new.items }
{
    let mut k = 0;
    let mut before = 0;
    'draws: while before + chunks[k].len() < at {
        draw_back(chunks, k);
        before += chunks[k].len();
        k += 1;
    }
    k
}
