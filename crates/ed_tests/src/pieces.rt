//! Bytes in pieces: which parts become one piece, and what is written of lines after edits.
use crate::applying::{apply, loaded};
use crate::asserting::{same, same_as};
use crate::expected::{bytes, only, script};
use ed_base::{Bytes, Pieces};
use ed_commands::Reply;
use ed_syntax::Request;
use line_store::{ChunkStore, GapStore, LineStore, PlainStore};
use std::alloc::Global;
use std::process::Abort;
use std::rc::Rc;

/// A block that parts are taken of.
#[derive(Clone, Copy, Debug)]
enum Block {
    Digits,
    /// The same bytes once more, in a block of their own.
    Again,
    Letters,
}

/// One call.
#[derive(Clone, Copy, Debug)]
enum Step {
    Copy(&'static [u8]),
    Share(Block, usize, usize),
}

struct Row {
    steps: &'static [Step],
    pieces: &'static [&'static [u8]],
}

const DIGITS: &[u8] = b"0123456789012345678901234567890123456789012345678901234567890123456789";

const LETTERS: &[u8] = b"abcdefghijabcdefghijabcdefghijabcdefghijabcdefghijabcdefghijabcdefghij";

// The first 64 digits, which are as many as make a piece of their own.
const LONG: &[u8] = b"0123456789012345678901234567890123456789012345678901234567890123";

#[rattlefmt::skip]
static ROWS: [Row; 12] = [
    Row { steps: &[], pieces: &[] },
    Row { steps: &[Step::Copy(b"ab"), Step::Copy(b""), Step::Copy(b"c")], pieces: &[b"abc"] },
    Row { steps: &[Step::Share(Block::Digits, 5, 5)], pieces: &[] },
    // A part that goes on where the one before it ends.
    Row {
        steps: &[Step::Share(Block::Digits, 0, 2), Step::Share(Block::Digits, 2, 64), Step::Share(Block::Digits, 64, 70)],
        pieces: &[DIGITS],
    },
    Row { steps: &[Step::Share(Block::Digits, 0, 64), Step::Share(Block::Again, 64, 70)], pieces: &[DIGITS] },
    // One that doesn't, by its bytes or by its place.
    Row { steps: &[Step::Share(Block::Digits, 0, 64), Step::Share(Block::Letters, 64, 70)], pieces: &[LONG, b"efghij"] },
    Row { steps: &[Step::Share(Block::Digits, 0, 64), Step::Share(Block::Digits, 65, 70)], pieces: &[LONG, b"56789"] },
    // A short part in front of others is copied.
    Row { steps: &[Step::Share(Block::Digits, 0, 2), Step::Copy(b"x")], pieces: &[b"01x"] },
    Row {
        steps: &[Step::Share(Block::Digits, 0, 2), Step::Share(Block::Letters, 0, 2), Step::Share(Block::Digits, 0, 64)],
        pieces: &[b"01ab", LONG],
    },
    Row { steps: &[Step::Share(Block::Digits, 0, 2), Step::Share(Block::Digits, 2, 4), Step::Copy(b"\n")], pieces: &[b"0123\n"] },
    // A long one isn't.
    Row { steps: &[Step::Share(Block::Digits, 0, 64), Step::Copy(b"x")], pieces: &[LONG, b"x"] },
    Row { steps: &[Step::Copy(b"x"), Step::Share(Block::Digits, 0, 64), Step::Copy(b"y")], pieces: &[b"x", LONG, b"y"] },
];

/// The blocks of the rows.
#[derive(Drop)]
struct Blocks {
    digits: Rc<Bytes>,
    again: Rc<Bytes>,
    letters: Rc<Bytes>,
}

fn share(rt: &impl Abort, alloc: Global, of: &[u8]) -> Rc<Bytes> {
    Rc::new(alloc, bytes(rt, alloc, of)).expect(rt, "memory")
}

impl Blocks {
    fn new(rt: &impl Abort, alloc: Global) -> Blocks {
        Blocks {
            digits: share(rt, alloc, DIGITS),
            again: share(rt, alloc, DIGITS),
            letters: share(rt, alloc, LETTERS),
        }
    }

    fn get(&self, block: Block) -> &Rc<Bytes> {
        match block {
            Block::Digits => &self.digits,
            Block::Again => &self.again,
            Block::Letters => &self.letters,
        }
    }
}

fn append(rt: &impl Abort, pieces: &mut Pieces, blocks: &Blocks, step: Step) {
    let appended = match step {
        Step::Copy(bytes) => pieces.extend_from_slice(bytes),
        Step::Share(of, start, end) => {
            let block = blocks.get(of);
            assert!(rt; start <= end && end <= block.len());
            pieces.extend_from_block(block, start, end)
        }
    };
    appended.expect(rt, "memory")
}

fn built(rt: &impl Abort, alloc: Global, blocks: &Blocks, steps: &[Step]) -> Pieces {
    let mut pieces = Pieces::new(alloc);
    for step in steps {
        append(rt, &mut pieces, blocks, *step);
    }
    pieces
}

/// The pieces are those of the row, whose bytes are handed on as one.
fn check_walk(rt: &impl Abort, alloc: Global, pieces: &Pieces, row: &Row) -> Bytes {
    let mut whole = Bytes::new(alloc);
    let mut walk = pieces.walk();
    for piece in row.pieces {
        same(rt, walk.next_piece(), Some(*piece), row.steps);
        whole.extend_from_slice(piece).expect(rt, "memory");
    }
    same(rt, walk.next_piece(), None, row.steps);
    whole
}

fn check(rt: &impl Abort, alloc: Global, blocks: &Blocks, row: &Row) {
    let pieces = built(rt, alloc, blocks, row.steps);
    let whole = check_walk(rt, alloc, &pieces, row);
    same(rt, pieces.len(), whole.len(), row.steps);
    let joined = pieces.to_bytes(alloc).expect(rt, "memory");
    same_as(rt, &whole, joined, row.steps);
    same_as(rt, &pieces, Pieces::from_bytes(alloc, whole), row.steps);
}

#[test]
fn parts_that_follow_each_other_are_one_piece(rt: HostRuntime) {
    let blocks = Blocks::new(&rt, rt.alloc());
    for row in &ROWS {
        check(&rt, rt.alloc(), &blocks, row);
    }
}

static OTHERS: [&[u8]; 4] = [b"", b"0", b"11", b"012"];

#[test]
fn pieces_with_other_bytes_differ(rt: HostRuntime) {
    let alloc = rt.alloc();
    let blocks = Blocks::new(&rt, alloc);
    let pieces = built(&rt, alloc, &blocks, &[Step::Share(Block::Digits, 0, 2)]);
    for other in &OTHERS {
        let others = Pieces::from_bytes(alloc, bytes(&rt, alloc, other));
        assert!(rt; pieces != others, "{other:?}");
    }
}

/// The last line of the file lacks its newline, one line is new, and one stands twice.
fn check_write<S: LineStore>(rt: &impl Abort, alloc: Global) {
    let mut editor = loaded::<S>(rt, alloc, b"one\ntwo\nthree\nfour");
    apply(rt, alloc, &mut editor, b"2s/w/W/\n1t3\n");
    let write = script(rt, alloc, b"2,5w G\n");
    let lines = bytes(rt, alloc, b"tWo\nthree\none\nfour\n");
    let lines = Pieces::from_bytes(alloc, lines);
    let asked = Reply::Wants(Request::Write(bytes(rt, alloc, b"G"), lines));
    let reply = editor.apply(only(rt, &write), None);
    same(rt, reply, Ok(asked), "2,5w G");
}

#[test]
fn a_range_is_written_as_its_lines_are(rt: HostRuntime) {
    check_write::<PlainStore>(&rt, rt.alloc());
    check_write::<GapStore>(&rt, rt.alloc());
    check_write::<ChunkStore>(&rt, rt.alloc());
}
