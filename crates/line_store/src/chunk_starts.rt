//! Where chunks begin among all lines.
ghost use Rattle.std.specs.Prelude.{ℕ, ◌≡◌, ◌+◌, ◌-◌, ◌^◌, ◌<◌, ◌≤◌, [], length, slice_index_or, vec_capacity, OnOk};
ghost use Rattle.line_store.specs.Chunks.{Starts, joined};
ghost use Rattle.line_store.specs.Starts.{OneMore};

use crate::chunk::Chunk;
use std::alloc::{AllocError, Global};
use std::marker::Model;

// How many chunks are in a group.
const GROUP: usize = 32;

/// How many lines stand before each chunk. A line that comes in or goes out changes the numbers of the later chunks of a group and of
/// the later groups, and none besides.
#[derive(Drop)]
pub struct ChunkStarts {
    // Of each group, how many lines stand before it.
    groups: Vec<usize>,
    // Of each chunk, how many lines of its group stand before it.
    within: Vec<usize>,
}

impl Model for ChunkStarts {
    ghost use Rattle.std.specs.Prelude.{◌*◌, min, vec_capacity};
    ghost use Rattle.line_store.specs.Starts.{Grouped, StartsValue, group, in_groups};

    ghost Value = { StartsValue };

    ghost view = { λ s. record { starts = in_groups s.groups.items s.within.items; room = min (vec_capacity s.within) (group * vec_capacity s.groups) } };

    ghost invariant = { λ s. Grouped s.groups.items s.within.items };
}

/// Adds one to some of the numbers.
fn raise(numbers: &mut Vec<usize>, from: usize, to: usize)
    requires order { from ≤ to }
    requires within { to ≤ length numbers.old.items }
    requires fits { (k : ℕ) → from ≤ k → k < to → slice_index_or numbers.old.items k 0 < 2 ^ 64 - 1 }
    ensures raised { OneMore from to numbers.old.items numbers.new.items }
    ensures capacity { vec_capacity numbers.new ≡ vec_capacity numbers.old }
{
    for k in from..to {
        numbers[k] += 1;
    }
}

/// Takes one from some of the numbers.
fn lower(numbers: &mut Vec<usize>, from: usize, to: usize)
    requires order { from ≤ to }
    requires within { to ≤ length numbers.old.items }
    requires some { (k : ℕ) → from ≤ k → k < to → 0 < slice_index_or numbers.old.items k 0 }
    ensures lowered { OneMore from to numbers.new.items numbers.old.items }
    ensures capacity { vec_capacity numbers.new ≡ vec_capacity numbers.old }
{
    for k in from..to {
        numbers[k] -= 1;
    }
}

impl ChunkStarts {
    /// Those of no chunks.
    pub(crate) fn new(alloc: Global) -> Self
        ensures value { result.starts ≡ [] }
    {
        ChunkStarts {
            groups: Vec::new(alloc),
            within: Vec::new(alloc),
        }
    }

    /// How many lines stand before a chunk.
    pub(crate) fn start(&self, k: usize) -> usize
        requires chunk { k < length self.now.starts }
        ensures value { result ≡ slice_index_or self.now.starts k 0 }
    {
        self.groups[k / GROUP] + self.within[k]
    }

    /// Makes room for `n` more chunks.
    pub(crate) fn reserve(&mut self, n: usize) -> Result<(), AllocError>
        ensures room { OnOk result (length self.old.starts + n ≤ self.new.room) }
        ensures unchanged { self.new.starts ≡ self.old.starts }
        ensures keeps_room { self.old.room ≤ self.new.room }
    {
        self.within.reserve(n)?;
        self.groups.reserve(n / GROUP + 1)?;
        Ok(())
    }

    /// Counts how many lines stand before each of these chunks.
    pub(crate) fn count(&mut self, chunks: &Vec<Chunk>)
        requires room { length chunks.now.items ≤ self.old.room }
        requires count { length (joined chunks.now.items) < 2 ^ 64 }
        ensures length { length self.new.starts ≡ length chunks.now.items }
        ensures starts { Starts self.new.starts chunks.now.items }
        ensures room { self.new.room ≡ self.old.room }
    {
        self.clear();
        let mut before = 0;
        for k in 0..chunks.len() {
            self.push(before);
            before += chunks[k].len();
        }
    }

    /// A line has come in to a chunk, so that each later one has one more before it.
    pub(crate) fn raise(&mut self, k: usize)
        requires chunk { k < length self.old.starts }
        requires fits { (m : ℕ) → k < m → m < length self.old.starts → slice_index_or self.old.starts m 0 < 2 ^ 64 - 1 }
        ensures raised { OneMore (k + 1) (length self.old.starts) self.old.starts self.new.starts }
        ensures room { self.new.room ≡ self.old.room }
    {
        let end = k + (GROUP - k % GROUP).min(self.within.len() - k);
        raise(&mut self.within, k + 1, end);
        let last = self.groups.len();
        raise(&mut self.groups, k / GROUP + 1, last);
    }

    /// A line has gone out of a chunk, so that each later one has one less before it.
    pub(crate) fn lower(&mut self, k: usize)
        requires chunk { k < length self.old.starts }
        requires more { (m : ℕ) → k < m → m < length self.old.starts → slice_index_or self.old.starts k 0 < slice_index_or self.old.starts m 0 }
        ensures lowered { OneMore (k + 1) (length self.old.starts) self.new.starts self.old.starts }
        ensures room { self.new.room ≡ self.old.room }
    {
        let end = k + (GROUP - k % GROUP).min(self.within.len() - k);
        lower(&mut self.within, k + 1, end);
        let last = self.groups.len();
        lower(&mut self.groups, k / GROUP + 1, last);
    }

    /// Forgets all chunks, and keeps the room.
    fn clear(&mut self)
        ensures empty { self.new.starts ≡ [] }
        ensures room { self.new.room ≡ self.old.room }
    {
        self.groups.clear();
        self.within.clear();
    }

    /// Adds a chunk after all others.
    pub(crate) fn push(&mut self, start: usize)
        requires room { length self.old.starts < self.old.room }
        requires order { (k : ℕ) → k < length self.old.starts → slice_index_or self.old.starts k 0 ≤ start }
        ensures length { length self.new.starts ≡ length self.old.starts + 1 }
        ensures last { slice_index_or self.new.starts (length self.old.starts) 0 ≡ start }
        ensures earlier { (k : ℕ) → k < length self.old.starts → slice_index_or self.new.starts k 0 ≡ slice_index_or self.old.starts k 0 }
        ensures room { self.new.room ≡ self.old.room }
    {
        let k = self.within.len();
        if k % GROUP == 0 {
            self.groups.push_reserved(start);
            return self.within.push_reserved(0);
        }
        let first = self.groups[k / GROUP];
        self.within.push_reserved(start - first);
    }
}
