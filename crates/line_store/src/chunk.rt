//! A chunk of lines.
ghost use Rattle.std.specs.Prelude.{◌≡◌, ◌+◌, ◌<◌, ◌≤◌, [], ◌∷◌, ◌++◌, length, insert, map, min, remove, slice_index_or, slice_set, vec_capacity, IfErr, IfOk, OnOk};
ghost use Rattle.ed_base.specs.Buffer.{flagged_at, plain_line, texts};
ghost use Rattle.ed_base.specs.Lines.{AreLines, bytes_of, lines_of};
ghost use Rattle.ed_base.specs.Parts.{block};
ghost use Rattle.line_store.specs.Chunks.{full};
ghost use Rattle.line_store.specs.Flagged.{FirstFlagged};
ghost use Rattle.line_store.specs.Kept.{flag_count};

use crate::flag_counts::{flags_exchanged, flags_with, flags_without};
use crate::run::LineRun;
use crate::{BareLine, FileLines};
use ed_base::Pieces;
use std::alloc::{AllocError, Global};
use std::collections::VecDeque;
use std::marker::Model;
use std::mem::replace;

/// How many lines a chunk holds when it is full. It has room for them from the start.
pub(crate) const FULL: usize = 1024;

/// Up to `FULL` lines. They stand in a ring, so that one comes in or goes out at either end without a move of the others. As long
/// as they are just those that were filled in from a file, they are known to stand in a row in its block, and are written at once.
#[derive(Drop)]
pub struct Chunk {
    ring: VecDeque<BareLine>,
    // How many of them have the flag.
    flags: usize,
    run: Option<LineRun>,
}

impl Model for Chunk {
    ghost use Rattle.std.specs.Prelude.{◌≡◌, ◌≤◌, List, length};
    ghost use Rattle.std.specs.VecDeque.{deque_capacity};
    ghost use Rattle.ed_base.specs.Buffer.{Line};
    ghost use Rattle.line_store.specs.Chunks.{full};
    ghost use Rattle.line_store.specs.Kept.{flag_count};
    ghost use Rattle.line_store.specs.Runs.{IsRun};

    ghost Value = { List Line };

    ghost view = { λ c. c.ring.items };

    ghost invariant = { λ c. (full ≤ deque_capacity c.ring) × (length c.ring.items ≤ full) × (c.flags ≡ flag_count c.ring.items)
        × IsRun c.run c.ring.items };
}

impl Chunk {
    /// A chunk without lines.
    pub(crate) fn new(alloc: Global) -> Result<Self, AllocError>
        ensures value { IfOk result (λ chunk. chunk ≡ []) }
    {
        Ok(Chunk {
            ring: VecDeque::with_capacity(alloc, FULL)?,
            flags: 0,
            run: None,
        })
    }

    /// The next lines of a file, as many as there is room for or are left. An `Err` comes where a line or the chunk gets no memory.
    pub(crate) fn of_file(file: &mut FileLines) -> Result<Self, AllocError>
        ensures lines { IfOk result (λ chunk. lines_of file.old ≡ texts chunk ++ lines_of file.new) }
        ensures count { IfOk result (λ chunk. length chunk ≡ min full (length (lines_of file.old))) }
        ensures plain { IfOk result (λ chunk. chunk ≡ map plain_line (texts chunk)) }
        ensures unflagged { IfOk result (λ chunk. flag_count chunk ≡ 0) }
    {
        let (ring, run) = file.next_ring()?;
        Ok(Chunk {
            ring,
            flags: 0,
            run: Some(run),
        })
    }

    /// New lines of the texts of others. Where there is no memory for the chunk they come back.
    pub(crate) fn of_lines(alloc: Global, lines: Vec<BareLine>) -> Result<Self, Vec<BareLine>>
        requires fits { length lines.items ≤ full }
        ensures value { IfOk result (λ chunk. chunk ≡ map plain_line (texts lines.items)) }
        ensures handed_back { IfErr result (λ back. back.items ≡ lines.items) }
    {
        match Chunk::new(alloc) {
            Ok(mut chunk) => {
                chunk.load(lines);
                Ok(chunk)
            }
            Err(_no_memory) => Err(lines),
        }
    }

    /// Takes in new lines of the texts of others, where it has none.
    fn load(&mut self, lines: Vec<BareLine>)
        requires empty { self.old ≡ [] }
        requires fits { length lines.items ≤ full }
        ensures loaded { self.new ≡ map plain_line (texts lines.items) }
    {
        for line in lines {
            self.push(line.plain());
        }
    }

    /// How many lines it has.
    pub(crate) fn len(&self) -> usize
        ensures value { result ≡ length self.now }
        ensures bound { length self.now ≤ full }
    {
        self.ring.len()
    }

    /// A line.
    pub(crate) fn line(&self, i: usize) -> &BareLine
        requires place { i < length self.now }
        ensures value { result.now ≡ slice_index_or self.now i result.now }
    {
        &self.ring[i]
    }

    /// Appends the bytes of its lines from place `from` up to `to`, each with a newline.
    pub(crate) fn push_lines(
        &self,
        from: usize,
        to: usize,
        output: &mut Pieces,
    ) -> Result<(), AllocError>
        requires order { from ≤ to }
        requires last { to ≤ length self.now }
        ensures appended { OnOk result (output.new ≡ output.old ++ bytes_of (texts (block from to self.now))) }
        ensures lines { OnOk result (AreLines (texts (block from to self.now))) }
    {
        match &self.run {
            Some(run) if from == 0 && to == self.ring.len() => run.push_to(output),
            _ => self.push_each(from, to, output),
        }
    }

    /// The same line by line.
    fn push_each(&self, from: usize, to: usize, output: &mut Pieces) -> Result<(), AllocError>
        requires order { from ≤ to }
        requires last { to ≤ length self.now }
        ensures appended { OnOk result (output.new ≡ output.old ++ bytes_of (texts (block from to self.now))) }
        ensures lines { OnOk result (AreLines (texts (block from to self.now))) }
    {
        for i in from..to {
            self.line(i).push_to(output)?;
        }
        Ok(())
    }

    /// Puts a line before place `at`.
    pub(crate) fn insert(&mut self, at: usize, line: BareLine)
        requires place { at ≤ length self.old }
        requires room { length self.old < full }
        ensures inserted { self.new ≡ insert self.old at line }
    {
        if at == self.ring.len() {
            return self.push(line);
        }
        self.run = None;
        self.flags = flags_with(self.flags, line.flag());
        match self.ring.insert(at, line) {
            Ok(()) => {}
            Err(_refused) => unreachable!(),
        }
    }

    /// Takes a line out.
    pub(crate) fn remove(&mut self, i: usize) -> BareLine
        requires place { i < length self.old }
        ensures value { result ≡ slice_index_or self.old i result }
        ensures removed { self.new ≡ remove self.old i }
    {
        self.run = None;
        match self.ring.remove(i) {
            Some(line) => {
                self.flags = flags_without(self.flags, line.flag());
                line
            }
            None => unreachable!(),
        }
    }

    /// Puts a line after all others.
    pub(crate) fn push(&mut self, line: BareLine)
        requires room { length self.old < full }
        ensures pushed { self.new ≡ self.old ++ line ∷ [] }
    {
        self.run = None;
        self.flags = flags_with(self.flags, line.flag());
        self.ring.push_back_reserved(line);
    }

    /// Puts a line before all others.
    fn push_first(&mut self, line: BareLine)
        requires room { length self.old < full }
        ensures pushed { self.new ≡ line ∷ self.old }
    {
        self.run = None;
        self.flags = flags_with(self.flags, line.flag());
        self.ring.push_front_reserved(line);
    }

    /// Takes out the last line.
    fn pop(&mut self) -> BareLine
        requires some { 0 < length self.old }
        ensures popped { self.old ≡ self.new ++ result ∷ [] }
    {
        self.run = None;
        let Some(last) = self.ring.pop_back() else {
            unreachable!()
        };
        self.flags = flags_without(self.flags, last.flag());
        last
    }

    /// Gives its lines from place `at` on to a chunk that has room for them, where they come before all others.
    fn pass(&mut self, at: usize, other: &mut Chunk)
        requires place { at ≤ length self.old }
        requires room { length self.old + length other.old ≤ full }
        ensures same { self.new ++ other.new ≡ self.old ++ other.old }
        ensures kept { length self.new ≡ at }
    {
        'moves: while at < self.len() {
            let last = self.pop();
            other.push_first(last);
        }
    }

    /// Gives its lines from place `at` on to a chunk that has none.
    pub(crate) fn give(&mut self, at: usize, other: &mut Chunk)
        requires place { at ≤ length self.old }
        requires empty { other.old ≡ [] }
        ensures same { self.new ++ other.new ≡ self.old }
        ensures kept { length self.new ≡ at }
    {
        // The proof reads off the count of lines that they fit in a chunk.
        let _ = self.len();
        self.pass(at, other);
    }

    /// Gives all of its lines to a chunk that has room for them, where they come before all others.
    pub(crate) fn give_all(&mut self, other: &mut Chunk)
        requires room { length self.old + length other.old ≤ full }
        ensures given { other.new ≡ self.old ++ other.old }
        ensures empty { self.new ≡ [] }
    {
        self.pass(0, other);
    }

    /// Puts its lines after others, among which there is room for them.
    pub(crate) fn unload(self, lines: &mut Vec<BareLine>)
        requires room { length lines.old.items + length self ≤ vec_capacity lines.old }
        ensures unloaded { lines.new.items ≡ lines.old.items ++ self }
        ensures capacity { vec_capacity lines.new ≡ vec_capacity lines.old }
    {
        let Chunk { mut ring, .. } = self;
        'moves: while ring.len() > 0 {
            let Some(line) = ring.pop_front() else {
                unreachable!()
            };
            lines.push_reserved(line);
        }
    }

    /// Puts a line in place of another, which comes back.
    pub(crate) fn exchange(&mut self, i: usize, line: BareLine) -> BareLine
        requires place { i < length self.old }
        ensures value { result ≡ slice_index_or self.old i result }
        ensures exchanged { self.new ≡ slice_set self.old i line }
    {
        let flag = line.flag();
        let before = replace(&mut self.ring[i], line);
        self.flags = flags_exchanged(self.flags, before.flag(), flag);
        self.run = None;
        before
    }

    /// Flags a line, or takes its flag.
    pub(crate) fn set_flag(&mut self, i: usize, flag: bool)
        requires place { i < length self.old }
        ensures flagged { self.new ≡ flagged_at i flag self.old }
    {
        let before = self.ring[i].flag();
        self.ring[i].set_flag(flag);
        self.flags = flags_exchanged(self.flags, before, flag);
    }

    /// The first place from `from` on where a line has the flag, or the number of lines. It looks at no line where none has it.
    pub(crate) fn first_flagged(&self, from: usize) -> usize
        requires place { from ≤ length self.now }
        ensures first { FirstFlagged from result self.now }
    {
        if self.flags == 0 {
            return self.ring.len();
        }
        let mut next = from;
        while next < self.ring.len() && !self.ring[next].flag() {
            next += 1;
        }
        next
    }

    /// The same lines once more, which share their bytes.
    pub(crate) fn try_copy(&self, alloc: Global) -> Result<Self, AllocError>
        ensures value { IfOk result (λ copy. copy ≡ self.now) }
    {
        let mut ring = VecDeque::with_capacity(alloc, FULL)?;
        for i in 0..self.ring.len() {
            ring.push_back(self.ring[i].try_copy()?)?;
        }
        let run = match &self.run {
            Some(run) => Some(run.try_copy()?),
            None => None,
        };
        Ok(Chunk {
            ring,
            flags: self.flags,
            run,
        })
    }
}
