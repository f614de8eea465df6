//! Blocks of so many lines that a store may take and put them at once: that they go, and that `u` brings them back.
use crate::applying::{apply, check_values, loaded};
use crate::asserting::same;
use crate::expected::Place;
use ed_base::Fault;
use ed_commands::Editor;
use line_store::{ChunkStore, GapStore, LineStore, PlainStore};
use std::alloc::Global;
use std::process::Abort;

// How many lines there are, and those before and after the block.
const COUNT: usize = 7168;

const FROM: usize = 1000;

const TO: usize = 4000;

/// The lines, of which `x` marks one before the block, `y` one in it and `z` one after it.
fn marked<S: LineStore>(rt: &impl Abort, alloc: Global) -> Editor<S> {
    let mut editor = loaded::<S>(rt, alloc, b"a\nb\nc\nd\ne\nf\ng\n");
    for _ in 0..10 {
        apply(rt, alloc, &mut editor, b"1,$t$\n");
    }
    apply(rt, alloc, &mut editor, b"1000kx\n4000ky\n4001kz\n");
    editor
}

/// The lines are the earlier ones, but so many others in place of the block.
fn check_others<S: LineStore>(rt: &impl Abort, lines: &S, earlier: &S, entered: usize) {
    assert!(rt; entered < COUNT);
    same(rt, earlier.len(), COUNT, "the earlier lines");
    same(rt, lines.len(), COUNT - (TO - FROM) + entered, "the lines");
    for i in 0..FROM {
        assert!(rt; i < lines.len() && i < earlier.len());
        same(
            rt,
            lines.text(i),
            earlier.text(i),
            "a line before the block",
        );
    }
    for i in TO..COUNT {
        let place = i - (TO - FROM) + entered;
        assert!(rt; place < lines.len() && i < earlier.len());
        same(
            rt,
            lines.text(place),
            earlier.text(i),
            "a line after the block",
        );
    }
}

/// All lines are the earlier ones.
fn check_all<S: LineStore>(rt: &impl Abort, lines: &S, earlier: &S) {
    same(rt, lines.len(), earlier.len(), "the lines");
    for i in 0..lines.len() {
        assert!(rt; i < earlier.len());
        same(rt, lines.text(i), earlier.text(i), "a line");
    }
}

struct BlockRow {
    script: &'static [u8],
    /// How many lines come in place of the block.
    entered: usize,
    /// Where the line after the block is then, counted from 1.
    after: usize,
}

#[rattlefmt::skip]
static BLOCKS: [BlockRow; 3] = [
    BlockRow { script: b"1001,4000d\n", entered: 0, after: 1001 },
    BlockRow { script: b"1001,4000c\nx\ny\n.\n", entered: 2, after: 1003 },
    BlockRow { script: b"1001,4000j\n", entered: 1, after: 1002 },
];

fn check_marks<S: LineStore>(
    rt: &impl Abort,
    alloc: Global,
    editor: &mut Editor<S>,
    y: Result<usize, Fault>,
    z: usize,
) {
    let values = [
        (Place::Marked(b'x', 0), Ok(1000)),
        (Place::Marked(b'y', 0), y),
        (Place::Marked(b'z', 0), Ok(z)),
    ];
    check_values(rt, alloc, editor, &values);
}

fn check_blocks<S: LineStore>(rt: &impl Abort, alloc: Global) {
    for row in &BLOCKS {
        let mut editor = marked::<S>(rt, alloc);
        let earlier = editor.lines().try_copy().expect(rt, "memory");
        apply(rt, alloc, &mut editor, row.script);
        check_others(rt, editor.lines(), &earlier, row.entered);
        check_marks(rt, alloc, &mut editor, Err(Fault::Mark), row.after);
        apply(rt, alloc, &mut editor, b"u\n");
        check_all(rt, editor.lines(), &earlier);
        check_marks(rt, alloc, &mut editor, Ok(4000), 4001);
        apply(rt, alloc, &mut editor, b"u\n");
        check_others(rt, editor.lines(), &earlier, row.entered);
        check_marks(rt, alloc, &mut editor, Err(Fault::Mark), row.after);
    }
}

#[test]
fn blocks_in_a_vector_go_and_come_back(rt: HostRuntime) {
    check_blocks::<PlainStore>(&rt, rt.alloc());
}

#[test]
fn blocks_about_a_gap_go_and_come_back(rt: HostRuntime) {
    check_blocks::<GapStore>(&rt, rt.alloc());
}

#[test]
fn blocks_of_chunks_go_and_come_back(rt: HostRuntime) {
    check_blocks::<ChunkStore>(&rt, rt.alloc());
}
