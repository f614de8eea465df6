//! Blocks of lines outside a store.
ghost use Rattle.std.specs.Prelude.{◌≡◌, ◌≤◌, [], ◌∷◌, length, map, vec_capacity, IfErr, IfOk};
ghost use Rattle.ed_base.specs.Buffer.{plain_line, texts};
ghost use Rattle.ed_base.specs.Lines.{lines_of};
ghost use Rattle.line_store.specs.Chunks.{joined};
ghost use Rattle.line_store.specs.Kept.{flag_count};

mod growing;

use crate::chunk::{Chunk, FULL};
use crate::{BareLine, BareLines, FileLines, Line};
use std::alloc::{AllocError, Global};
use std::marker::Model;

/// How a block keeps its lines.
#[derive(Drop)]
pub(crate) enum Kind {
    /// A single line, which takes no memory of its own.
    One(BareLine),
    Lines(Vec<BareLine>),
    /// None of the lines has the flag.
    Chunks {
        chunks: Vec<Chunk>,
        /// How many lines there are in all chunks.
        count: usize,
    },
    /// Lines that aren't cut.
    File {
        file: FileLines,
        /// How many there are.
        count: usize,
    },
}

/// Lines that went out of a store, or are to come in, without letters and flags. A contract sees their bytes.
#[derive(Drop)]
pub struct Block {
    pub(crate) kind: Kind,
}

impl Model for Block {
    ghost use Rattle.std.specs.Prelude.{ℕ, List};
    ghost use Rattle.ed_base.specs.Buffer.{texts};
    ghost use Rattle.line_store.specs.BlockKinds.{IsCounted, lines_in};

    ghost Value = { List (List ℕ) };

    ghost view = { λ b. texts (lines_in b.kind) };

    ghost invariant = { λ b. IsCounted b.kind };
}

impl Block {
    /// No lines. It takes no memory.
    pub fn new(alloc: Global) -> Self
        ensures value { result ≡ [] }
    {
        Block::of_lines(Vec::new(alloc))
    }

    /// A single line. It takes no memory.
    pub fn of(line: Line) -> Self
        ensures value { result ≡ line.bytes ∷ [] }
    {
        let Line {
            bare,
            letters: _letters,
        } = line;
        Block {
            kind: Kind::One(bare),
        }
    }

    pub(crate) fn of_bare(line: BareLine) -> Self
        ensures value { result ≡ line.bytes ∷ [] }
    {
        Block {
            kind: Kind::One(line.plain()),
        }
    }

    pub(crate) fn of_lines(lines: Vec<BareLine>) -> Self
        ensures value { result ≡ texts lines.items }
    {
        Block {
            kind: Kind::Lines(lines),
        }
    }

    pub(crate) fn of_chunks(chunks: Vec<Chunk>, count: usize) -> Self
        requires count { count ≡ length (joined chunks.items) }
        requires unflagged { flag_count (joined chunks.items) ≡ 0 }
        ensures value { result ≡ texts (joined chunks.items) }
    {
        Block {
            kind: Kind::Chunks { chunks, count },
        }
    }

    /// New lines, in order.
    pub fn from_lines(alloc: Global, mut lines: Vec<Line>) -> Result<Self, AllocError>
        ensures value { IfOk result (λ block. block ≡ texts lines.items) }
    {
        if lines.as_slice().len() == 1 {
            let Some(line) = lines.pop() else {
                unreachable!()
            };
            return Ok(Block::of(line));
        }
        let mut bare = Vec::with_capacity(alloc, lines.as_slice().len())?;
        for line in lines {
            bare.push(line.into_bare())?;
        }
        Ok(Block::of_lines(bare))
    }

    /// The lines of a file, which share its bytes. Many are counted and not cut. An `Err` comes where there is no memory for them.
    pub fn of_file(file: FileLines) -> Result<Self, AllocError>
        ensures value { IfOk result (λ block. block ≡ lines_of file) }
    {
        if file.fill_chunk() {
            let count = file.count();
            return Ok(Block::of_counted(file, count));
        }
        Ok(Block::of_lines(cut_lines(&file)?))
    }

    /// The lines of a file, which are so many.
    pub(crate) fn of_counted(file: FileLines, count: usize) -> Self
        requires count { count ≡ length (lines_of file) }
        ensures value { result ≡ lines_of file }
    {
        Block {
            kind: Kind::File { file, count },
        }
    }

    /// How many lines it has.
    pub(crate) fn len(&self) -> usize
        ensures value { result ≡ length self.now }
    {
        match &self.kind {
            Kind::One(_line) => 1,
            Kind::Lines(lines) => lines.as_slice().len(),
            Kind::Chunks { chunks: _, count } => *count,
            Kind::File { file: _, count } => *count,
        }
    }

    /// Its lines as those of a file, and how many they are, where none of them is cut. Otherwise it comes back.
    pub(crate) fn into_file(self) -> Result<(FileLines, usize), Block>
        ensures value { IfOk result (λ made. lines_of made.0 ≡ self) }
        ensures count { IfOk result (λ made. made.1 ≡ length (lines_of made.0)) }
        ensures handed_back { IfErr result (λ back. back ≡ self) }
    {
        let Block { kind } = self;
        match kind {
            Kind::File { file, count } => Ok((file, count)),
            kind => Err(Block { kind }),
        }
    }

    /// Its line, where it was made of a single one; any other comes back.
    pub fn into_line(self) -> Result<Line, Block>
        ensures line { IfOk result (λ line. self ≡ line.bytes ∷ []) }
        ensures new { IfOk result (λ line. line ≡ plain_line line.bytes) }
        ensures handed_back { IfErr result (λ back. back ≡ self) }
    {
        let Block { kind } = self;
        match kind {
            Kind::One(bare) => Ok(Line::of(bare.plain())),
            kind => Err(Block { kind }),
        }
    }

    /// The same lines once more, which share their bytes.
    pub fn try_copy(&self, alloc: Global) -> Result<Self, AllocError>
        ensures value { IfOk result (λ copy. copy ≡ self.now) }
    {
        match &self.kind {
            Kind::One(bare) => Ok(Block {
                kind: Kind::One(bare.try_copy()?),
            }),
            Kind::Lines(lines) => Ok(Block::of_lines(BareLines::try_copy(lines)?)),
            Kind::Chunks { chunks, count } => {
                let copies = copy_chunks(alloc, chunks)?;
                Ok(Block::of_chunks(copies, *count))
            }
            Kind::File { file, count } => Ok(Block::of_counted(file.try_copy()?, *count)),
        }
    }

    /// Whether it has chunks, or so many lines that it may have.
    pub(crate) fn is_in_chunks(&self) -> bool {
        matches!(&self.kind, Kind::Chunks { .. } | Kind::File { .. })
    }

    /// Its lines one by one. Where there is no memory for that it comes back.
    pub(crate) fn into_lines(self, alloc: Global) -> Result<Vec<BareLine>, Block>
        ensures value { IfOk result (λ lines. texts lines.items ≡ self) }
        ensures handed_back { IfErr result (λ back. back ≡ self) }
    {
        let Block { kind } = self;
        match kind {
            Kind::One(bare) => match Vec::with_capacity(alloc, 1) {
                Ok(mut lines) => {
                    lines.push_reserved(bare);
                    Ok(lines)
                }
                Err(_no_memory) => Err(Block {
                    kind: Kind::One(bare),
                }),
            },
            Kind::Lines(lines) => Ok(lines),
            Kind::Chunks { chunks, count } => match Vec::with_capacity(alloc, count) {
                Ok(mut lines) => {
                    unload_chunks(chunks, &mut lines);
                    Ok(lines)
                }
                Err(_no_memory) => Err(Block::of_chunks(chunks, count)),
            },
            Kind::File { file, count } => match cut_lines(&file) {
                Ok(lines) => Ok(lines),
                Err(_no_memory) => Err(Block::of_counted(file, count)),
            },
        }
    }

    /// Its lines in chunks, without flags, and how many they are. Where there is no memory for that, or it has more lines than a
    /// chunk holds and keeps them otherwise, it comes back.
    pub(crate) fn into_chunks(self, alloc: Global) -> Result<(Vec<Chunk>, usize), Block>
        ensures value { IfOk result (λ made. texts (joined made.0.items) ≡ self) }
        ensures unflagged { IfOk result (λ made. flag_count (joined made.0.items) ≡ 0) }
        ensures count { IfOk result (λ made. made.1 ≡ length (joined made.0.items)) }
        ensures handed_back { IfErr result (λ back. back ≡ self) }
    {
        let Block { kind } = self;
        match kind {
            Kind::Chunks { chunks, count } => Ok((chunks, count)),
            Kind::File { file, count } => match cut_chunks(&file) {
                Ok(made) => Ok(made),
                Err(_no_memory) => Err(Block::of_counted(file, count)),
            },
            kind => chunk_of_lines(alloc, Block { kind }.into_lines(alloc)?),
        }
    }
}

/// The lines of a file one by one.
fn cut_lines(file: &FileLines) -> Result<Vec<BareLine>, AllocError>
    ensures value { IfOk result (λ lines. lines.items ≡ map plain_line (lines_of file.now)) }
{
    let mut rest = file.try_copy()?;
    let mut lines = Vec::new(file.allocator());
    while let Some(line) = rest.next_line()? {
        lines.push(line.into_bare())?;
    }
    Ok(lines)
}

/// The lines of a file in chunks, and how many they are.
fn cut_chunks(file: &FileLines) -> Result<(Vec<Chunk>, usize), AllocError>
    ensures value { IfOk result (λ made. texts (joined made.0.items) ≡ lines_of file.now) }
    ensures unflagged { IfOk result (λ made. flag_count (joined made.0.items) ≡ 0) }
    ensures count { IfOk result (λ made. made.1 ≡ length (joined made.0.items)) }
{
    let mut rest = file.try_copy()?;
    let mut chunks = Vec::new(file.allocator());
    let mut count: usize = 0;
    'chunks: while !rest.is_done() {
        let chunk = Chunk::of_file(&mut rest)?;
        let Some(more) = count.checked_add(chunk.len()) else {
            return Err(AllocError);
        };
        chunks.push(chunk)?;
        count = more;
    }
    Ok((chunks, count))
}

/// The same for lines that a chunk holds.
fn chunk_of_lines(alloc: Global, lines: Vec<BareLine>) -> Result<(Vec<Chunk>, usize), Block>
    ensures value { IfOk result (λ made. texts (joined made.0.items) ≡ texts lines.items) }
    ensures unflagged { IfOk result (λ made. flag_count (joined made.0.items) ≡ 0) }
    ensures count { IfOk result (λ made. made.1 ≡ length (joined made.0.items)) }
    ensures handed_back { IfErr result (λ back. back ≡ texts lines.items) }
{
    let count = lines.as_slice().len();
    if count > FULL {
        return Err(Block::of_lines(lines));
    }
    let Ok(mut chunks) = Vec::with_capacity(alloc, 1) else {
        return Err(Block::of_lines(lines));
    };
    match Chunk::of_lines(alloc, lines) {
        Ok(chunk) => {
            chunks.push_reserved(chunk);
            Ok((chunks, count))
        }
        Err(lines) => Err(Block::of_lines(lines)),
    }
}

/// The same chunks once more.
fn copy_chunks(alloc: Global, chunks: &Vec<Chunk>) -> Result<Vec<Chunk>, AllocError>
    ensures value { IfOk result (λ copies. copies.items ≡ chunks.now.items) }
{
    let mut copies = Vec::with_capacity(alloc, chunks.len())?;
    for chunk in chunks {
        copies.push(chunk.try_copy(alloc)?)?;
    }
    Ok(copies)
}

/// Puts the lines of all chunks after others, among which there is room for them.
fn unload_chunks(chunks: Vec<Chunk>, lines: &mut Vec<BareLine>)
    requires none { lines.old.items ≡ [] }
    requires room { length (joined chunks.items) ≤ vec_capacity lines.old }
    ensures unloaded { lines.new.items ≡ joined chunks.items }
{
    for chunk in chunks {
        chunk.unload(lines);
    }
}
