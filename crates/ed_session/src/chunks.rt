//! Bytes in pieces given out in chunks, so that short pieces don't cost a call of the system each.
ghost use Rattle.std.specs.Prelude.{◌≡◌, ◌<◌, ◌≤◌, ◌+◌, ◌++◌, ◌↔◌, [], drop, length, vec_len, IsTrue, IfNone, IfSome};
ghost use Rattle.std.specs.Borrow.{sem};
ghost use Rattle.std.specs.Io.BufRead.{Rests};
ghost use Rattle.ed_session.specs.Chunks.{left};
ghost use Rattle.ed_session.specs.contracts.chunks.Chunks.{the_row};
ghost use mir.Syntax.{named};

use ed_base::{Pieces, Walk};
use std::marker::Model;

/// Room for more bytes isn't worth its memory.
pub(crate) const ROOM: usize = 1 << 16;

/// What is left of bytes in pieces when some chunks were given out. A contract sees the bytes that are left.
///
/// A chunk is several pieces, gathered in a room, or one piece where no other fits in the room with it. No memory is asked
/// for: without room each piece comes by itself.
#[derive(Drop)]
pub(crate) struct Chunks<'a> {
    // The next piece, which is empty only where there is none,
    piece: &'a [u8],
    // and the pieces after it.
    walk: Walk<'a>,
    room: Vec<u8>,
}

impl<'a> Model for Chunks<'a> {
    ghost use Rattle.std.specs.Prelude.{ℕ, List};
    ghost use Rattle.ed_session.specs.Chunks.{left};

    ghost Value = { List ℕ };

    ghost view = { λ c. left c.piece.now c.walk };
}

impl<'a> Chunks<'a> {
    /// All bytes are left. The chunks are gathered in the capacity of this vector.
    pub(crate) fn new(bytes: &'a Pieces, room: Vec<u8>) -> Self
        ensures value { result ≡ bytes.now }
    {
        let mut walk = bytes.walk();
        let piece = take_piece(&mut walk);
        Chunks { piece, walk, room }
    }

    /// All bytes but the first so many are left.
    pub(crate) fn after(bytes: &'a Pieces, count: usize, room: Vec<u8>) -> Self
        ensures value { result ≡ drop count bytes.now }
    {
        let mut walk = bytes.walk();
        let piece = skip(&mut walk, count);
        Chunks { piece, walk, room }
    }

    /// The room in which chunks were gathered, for others.
    pub(crate) fn into_room(self) -> Vec<u8> {
        self.room
    }

    /// The next chunk, which isn't empty; none after the last one.
    pub(crate) fn next_chunk(&mut self) -> Option<&[u8]>
        ensures ended { IfNone result (self.old ≡ []) }
        ensures some { IfSome result (λ chunk. 0 < length chunk.now) }
        ensures* first { sem 𝓛 (Rests (the_row (record { mir = named 0; lft = [] })) self.entry
            (λ new. IfSome result (λ chunk. self.old ≡ chunk.now ++ new))) }
    {
        let first = self.piece;
        if first.is_empty() {
            return None;
        }
        self.room.clear();
        self.piece = gather(first, &mut self.walk, &mut self.room);
        if self.room.is_empty() {
            Some(first)
        } else {
            Some(self.room.as_slice())
        }
    }
}

/// The next piece of a walk; an empty one after the last.
fn take_piece<'a>(walk: &mut Walk<'a>) -> &'a [u8]
    ensures first { walk.old ≡ left result.now walk.new }
{
    match walk.next_piece() {
        Some(piece) => piece,
        None => &[],
    }
}

/// What is left of the next piece when so many bytes of a walk were skipped; an empty one where no byte is left.
fn skip<'a>(walk: &mut Walk<'a>, count: usize) -> &'a [u8]
    ensures rest { drop count walk.old ≡ left result.now walk.new }
{
    let mut more = count;
    'pieces: while let Some(piece) = walk.next_piece() {
        if more < piece.len() {
            return &piece[more..];
        }
        more -= piece.len();
    }
    &[]
}

/// Gathers this piece and those after it in an empty room, as far as they fit, or none where not even two of them do. It hands
/// back the first that it took from the walk and didn't gather.
fn gather<'a>(first: &[u8], walk: &mut Walk<'a>, room: &mut Vec<u8>) -> &'a [u8]
    requires some { 0 < length first.now }
    requires empty { vec_len room.old ≡ 0 }
    ensures gathered { 0 < vec_len room.new → first.now ++ walk.old ≡ room.new.items ++ left result.now walk.new }
    ensures none { vec_len room.new ≡ 0 → walk.old ≡ left result.now walk.new }
{
    let mut next = take_piece(walk);
    if next.is_empty() || !fits(first, next, room.capacity()) {
        return next;
    }
    if room.extend_from_slice(first).is_err() {
        return next;
    }
    'pieces: while !next.is_empty() && next.len() <= room.capacity() - room.len() {
        if room.extend_from_slice(next).is_err() {
            return next;
        }
        next = take_piece(walk);
    }
    next
}

/// Whether two pieces fit in a room of this size.
fn fits(first: &[u8], second: &[u8], room: usize) -> bool
    ensures exact { IsTrue result ↔ length first.now + length second.now ≤ room }
{
    first.len() <= room && second.len() <= room - first.len()
}
