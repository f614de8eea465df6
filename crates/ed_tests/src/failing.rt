//! An editor after a command has failed: whatever comes next fails by the same fault, and changes nothing.
use crate::applying::{apply, check_texts, loaded};
use crate::asserting::same;
use crate::expected::{bytes, only, pattern, script};
use crate::undoing::{ABCD, global};
use ed_base::Fault;
use ed_commands::Editor;
use ed_syntax::{Answer, Command, Sense};
use line_store::{ChunkStore, GapStore, LineStore, PlainStore};
use std::alloc::Global;
use std::process::Abort;

struct FailingRow {
    /// These commands go well, and this one fails.
    before: &'static [u8],
    failing: &'static [u8],
    fault: Fault,
    /// What the editor holds then.
    lines: &'static [u8],
    current: usize,
    changed: bool,
}

#[rattlefmt::skip]
static FAILING: [FailingRow; 6] = [
    FailingRow { before: b"", failing: b"9p", fault: Fault::Address, lines: ABCD, current: 4, changed: false },
    FailingRow { before: b"2d\n", failing: b"/z/d", fault: Fault::NoMatch, lines: b"a\nc\nd\n", current: 2, changed: true },
    FailingRow { before: b"1d\n", failing: b"'xp", fault: Fault::Mark, lines: b"b\nc\nd\n", current: 1, changed: true },
    FailingRow { before: b"3p\n", failing: b"//p", fault: Fault::Pattern, lines: ABCD, current: 3, changed: false },
    FailingRow { before: b"$m0\n", failing: b"1,2m1", fault: Fault::Destination, lines: b"d\na\nb\nc\n", current: 1, changed: true },
    FailingRow { before: b"2p\n", failing: b"u", fault: Fault::Undo, lines: ABCD, current: 2, changed: false },
];

// Each of these would go well on the lines of each row.
const LATER: &[u8] = b"1d\n1p\n$a\nx\n.\n1,2j\n1ka\nf H\nw G\nr G\n";

/// The editor has failed by the row's fault, and holds what it held then.
fn check_held<S: LineStore>(rt: &impl Abort, alloc: Global, editor: &Editor<S>, row: &FailingRow) {
    same(rt, editor.failed(), Some(row.fault), row.failing);
    let held = (editor.current(), editor.changed());
    same(rt, held, (row.current, row.changed), row.failing);
    check_texts(rt, alloc, editor.lines(), row.lines, row.failing);
}

fn check_refused<S: LineStore>(
    rt: &impl Abort,
    alloc: Global,
    editor: &mut Editor<S>,
    row: &FailingRow,
    command: &Command,
    answer: Option<Answer>,
) {
    let reply = editor.apply(command, answer);
    same(rt, reply, Err(row.fault), row.failing);
    check_held(rt, alloc, editor, row);
}

/// The commands of a script, each before its file is asked for, and with answers, also where it needs none.
fn check_later<S: LineStore>(
    rt: &impl Abort,
    alloc: Global,
    editor: &mut Editor<S>,
    row: &FailingRow,
    commands: &[u8],
) {
    for command in &script(rt, alloc, commands).commands {
        check_refused(rt, alloc, editor, row, command, None);
        check_refused(rt, alloc, editor, row, command, Some(Answer::Done));
        let lines = Answer::Bytes(bytes(rt, alloc, b"e\n"));
        check_refused(rt, alloc, editor, row, command, Some(lines));
    }
}

fn check_global<S: LineStore>(
    rt: &impl Abort,
    alloc: Global,
    editor: &mut Editor<S>,
    row: &FailingRow,
) {
    let global = global(alloc, Sense::Matching, pattern(rt, alloc, b"."));
    let begun = editor.begin_global(&global);
    drop(global);
    same(rt, begun, Err(row.fault), row.failing);
    check_held(rt, alloc, editor, row);
}

fn check_loads<S: LineStore>(
    rt: &impl Abort,
    alloc: Global,
    editor: &mut Editor<S>,
    row: &FailingRow,
) {
    let loaded = editor.load(b"e\n", bytes(rt, alloc, b"G"));
    same(rt, loaded, Err(row.fault), row.failing);
    check_held(rt, alloc, editor, row);
    let file = bytes(rt, alloc, b"e\n");
    let loaded = editor.load_bytes(file, bytes(rt, alloc, b"G"));
    same(rt, loaded, Err(row.fault), row.failing);
    check_held(rt, alloc, editor, row);
}

/// An editor for which all commands of a row went well but the last, which failed.
fn failed<S: LineStore>(rt: &impl Abort, alloc: Global, row: &FailingRow) -> Editor<S> {
    let mut editor = loaded::<S>(rt, alloc, ABCD);
    apply(rt, alloc, &mut editor, row.before);
    let failing = script(rt, alloc, row.failing);
    check_refused(rt, alloc, &mut editor, row, only(rt, &failing), None);
    editor
}

fn check_failed<S: LineStore>(rt: &impl Abort, alloc: Global) {
    for row in &FAILING {
        let mut editor = failed::<S>(rt, alloc, row);
        check_later(rt, alloc, &mut editor, row, LATER);
        check_global(rt, alloc, &mut editor, row);
        check_loads(rt, alloc, &mut editor, row);
        check_later(rt, alloc, &mut editor, row, LATER);
    }
}

#[test]
fn after_a_fault_all_fails_by_it_and_changes_nothing(rt: HostRuntime) {
    check_failed::<PlainStore>(&rt, rt.alloc());
    check_failed::<GapStore>(&rt, rt.alloc());
    check_failed::<ChunkStore>(&rt, rt.alloc());
}
