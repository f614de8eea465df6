//! `u`, after a command and after a global one (XCU ed, "Undo Command", "Global Command").
ghost use Rattle.std.specs.Prelude.{IsTrue};
ghost use Rattle.ed_syntax.specs.PublicTypes.{command_value};
ghost use Rattle.ed_syntax.specs.meaning.Verbs.{is_global};

use crate::applying::{Value, apply, apply_listed, check_texts, check_values, loaded};
use crate::asserting::same;
use crate::expected::{Place, only, pattern, script};
use ed_base::Fault;
use ed_commands::Editor;
use ed_syntax::{Addresses, Command, Pattern, Sense, Verb};
use line_store::{ChunkStore, GapStore, LineStore, PlainStore};
use std::alloc::Global;
use std::process::Abort;

/// The lines that each editor begins with, of which the last is current.
pub(crate) const ABCD: &[u8] = b"a\nb\nc\nd\n";

/// The lines are these, each with its newline, and this one is current.
fn check_lines<S: LineStore>(
    rt: &impl Abort,
    alloc: Global,
    editor: &Editor<S>,
    lines: &[u8],
    current: usize,
) {
    check_texts(rt, alloc, editor.lines(), lines, lines);
    same(rt, editor.current(), current, lines);
}

/// The lines are these now, `u` brings back those that the editor began with, and the next `u` these.
fn check_exchange<S: LineStore>(
    rt: &impl Abort,
    alloc: Global,
    editor: &mut Editor<S>,
    lines: &[u8],
    current: usize,
) {
    check_lines(rt, alloc, editor, lines, current);
    apply(rt, alloc, editor, b"u\n");
    check_lines(rt, alloc, editor, ABCD, 4);
    assert!(rt; editor.changed());
    apply(rt, alloc, editor, b"u\n");
    check_lines(rt, alloc, editor, lines, current);
}

struct UndoneRow {
    script: &'static [u8],
    lines: &'static [u8],
    current: usize,
}

// After a command that changes the lines `u` brings `a`, `b`, `c` and `d` back, and the next `u` what the command left.
#[rattlefmt::skip]
static UNDONE: [UndoneRow; 10] = [
    UndoneRow { script: b"2d", lines: b"a\nc\nd\n", current: 2 },
    UndoneRow { script: b"1;2d", lines: b"c\nd\n", current: 1 },
    UndoneRow { script: b"1,4d", lines: b"", current: 0 },
    UndoneRow { script: b"2,3j", lines: b"a\nbc\nd\n", current: 2 },
    UndoneRow { script: b"1,2m3", lines: b"c\na\nb\nd\n", current: 3 },
    UndoneRow { script: b"3,4m0", lines: b"c\nd\na\nb\n", current: 2 },
    UndoneRow { script: b"1,2t$", lines: b"a\nb\nc\nd\na\nb\n", current: 6 },
    UndoneRow { script: b"2c\nx\n\ny\n.\n", lines: b"a\nx\n\ny\nc\nd\n", current: 4 },
    UndoneRow { script: b"0a\nx\n.\n", lines: b"x\na\nb\nc\nd\n", current: 1 },
    UndoneRow { script: b"2,3s/./<\\\n&/", lines: b"a\n<\nb\n<\nc\nd\n", current: 5 },
];

fn check_undone<S: LineStore>(rt: &impl Abort, alloc: Global) {
    for row in &UNDONE {
        let mut editor = loaded::<S>(rt, alloc, ABCD);
        apply(rt, alloc, &mut editor, row.script);
        check_exchange(rt, alloc, &mut editor, row.lines, row.current);
        check_exchange(rt, alloc, &mut editor, row.lines, row.current);
    }
}

#[test]
fn undo_exchanges_the_buffer_before_a_command_with_the_one_after_it(rt: HostRuntime) {
    check_undone::<PlainStore>(&rt, rt.alloc());
    check_undone::<GapStore>(&rt, rt.alloc());
    check_undone::<ChunkStore>(&rt, rt.alloc());
}

fn check_start<S: LineStore>(rt: &impl Abort, alloc: Global) {
    let mut editor = loaded::<S>(rt, alloc, ABCD);
    let undo = script(rt, alloc, b"u\n");
    let reply = editor.apply(only(rt, &undo), None);
    same(rt, reply, Err(Fault::Undo), "u");
    same(rt, editor.failed(), Some(Fault::Undo), "u");
}

#[test]
fn before_the_first_change_nothing_is_to_be_undone(rt: HostRuntime) {
    check_start::<PlainStore>(&rt, rt.alloc());
    check_start::<GapStore>(&rt, rt.alloc());
    check_start::<ChunkStore>(&rt, rt.alloc());
}

// Where the lines are that letters mark.
static AFTER_CHANGES: &[Value] = &[(Place::Marked(b'y', 0), Err(Fault::Mark))];

#[rattlefmt::skip]
static AFTER_UNDO: &[Value] = &[
    (Place::Marked(b'x', 0), Ok(1)),
    (Place::Marked(b'y', 0), Ok(2)),
    (Place::Marked(b'z', 0), Ok(4)),
    (Place::Marked(b'w', 0), Err(Fault::Mark)),
];

static AFTER_UNDO_AGAIN: &[Value] = &[
    (Place::Marked(b'z', 0), Ok(1)),
    (Place::Marked(b'w', 0), Ok(1)),
];

fn check_marks<S: LineStore>(rt: &impl Abort, alloc: Global) {
    let mut editor = loaded::<S>(rt, alloc, ABCD);
    apply(rt, alloc, &mut editor, b"1kx\n2ky\n4kz\n1,2d\n1kz\n1kw\n");
    check_values(rt, alloc, &mut editor, AFTER_CHANGES);
    apply(rt, alloc, &mut editor, b"u\n");
    check_values(rt, alloc, &mut editor, AFTER_UNDO);
    apply(rt, alloc, &mut editor, b"u\n");
    check_values(rt, alloc, &mut editor, AFTER_UNDO_AGAIN);
}

#[test]
fn undo_brings_the_marks_back_and_takes_later_ones(rt: HostRuntime) {
    check_marks::<PlainStore>(&rt, rt.alloc());
    check_marks::<GapStore>(&rt, rt.alloc());
    check_marks::<ChunkStore>(&rt, rt.alloc());
}

struct GlobalRow {
    sense: Sense,
    pattern: &'static [u8],
    /// How many lines it takes.
    taken: usize,
    list: &'static [u8],
    lines: &'static [u8],
    current: usize,
}

// A global command takes the flagged line that comes first in the buffer as it is then, and `u` takes back all that its list did.
#[rattlefmt::skip]
static GLOBALS: [GlobalRow; 7] = [
    GlobalRow { sense: Sense::Matching, pattern: b".", taken: 4, list: b"m0", lines: b"d\nc\nb\na\n", current: 1 },
    GlobalRow { sense: Sense::Matching, pattern: b"[ab]", taken: 2, list: b"d", lines: b"c\nd\n", current: 1 },
    GlobalRow { sense: Sense::Others, pattern: b"[ab]", taken: 2, list: b"s/./&\\&/\nt.\n", lines: b"a\nb\nc&\nc&\nd&\nd&\n", current: 6 },
    GlobalRow { sense: Sense::Matching, pattern: b"[bd]", taken: 2, list: b"-1d", lines: b"b\nd\n", current: 2 },
    GlobalRow { sense: Sense::Matching, pattern: b"[ac]", taken: 2, list: b"1,2d", lines: b"", current: 0 },
    // What goes out at a place is what came in there before, and more, or less.
    GlobalRow { sense: Sense::Matching, pattern: b"[bcd]", taken: 3, list: b"1,2j", lines: b"abcd\n", current: 1 },
    GlobalRow { sense: Sense::Matching, pattern: b"[ab]", taken: 2, list: b"1c\nx\ny\n.\n", lines: b"x\ny\ny\nb\nc\nd\n", current: 2 },
];

/// A global command with this pattern, whose list a test applies by itself.
pub(crate) fn global(alloc: Global, sense: Sense, pattern: Pattern) -> Command
    ensures global { IsTrue (is_global (command_value result).verb) }
{
    Command {
        addresses: Addresses::Without,
        verb: Verb::Global {
            sense,
            pattern: Some(pattern),
            list: Vec::new(alloc),
        },
        suffix: None,
        listed: false,
    }
}

/// How many lines a global command takes. The command is handed over to be dropped, since that in place is dear to prove.
fn begin_global<S: LineStore>(
    rt: &impl Abort,
    alloc: Global,
    editor: &mut Editor<S>,
    row: &GlobalRow,
) -> usize {
    let global = global(alloc, row.sense, pattern(rt, alloc, row.pattern));
    let begun = editor.begin_global(&global).expect(rt, "begun");
    drop(global);
    begun.lines
}

/// Runs a list for each line that a global command takes.
fn run_global<S: LineStore>(
    rt: &impl Abort,
    alloc: Global,
    editor: &mut Editor<S>,
    row: &GlobalRow,
) {
    let taken = begin_global(rt, alloc, editor, row);
    same(rt, taken, row.taken, row.pattern);
    for _ in 0..taken {
        if !editor.next_global() {
            break;
        }
        apply_listed(rt, alloc, editor, row.list);
    }
    editor.end_global();
    assert!(rt; !editor.next_global());
}

fn check_globals<S: LineStore>(rt: &impl Abort, alloc: Global) {
    for row in &GLOBALS {
        let mut editor = loaded::<S>(rt, alloc, ABCD);
        run_global(rt, alloc, &mut editor, row);
        check_exchange(rt, alloc, &mut editor, row.lines, row.current);
    }
}

#[test]
fn a_global_command_is_one_change_for_undo(rt: HostRuntime) {
    check_globals::<PlainStore>(&rt, rt.alloc());
    check_globals::<GapStore>(&rt, rt.alloc());
    check_globals::<ChunkStore>(&rt, rt.alloc());
}

static UNCHANGING: GlobalRow = GlobalRow {
    sense: Sense::Matching,
    pattern: b"[bc]",
    taken: 2,
    list: b"p",
    lines: ABCD,
    current: 3,
};

fn check_unchanged<S: LineStore>(rt: &impl Abort, alloc: Global) {
    let mut editor = loaded::<S>(rt, alloc, ABCD);
    run_global(rt, alloc, &mut editor, &UNCHANGING);
    apply(rt, alloc, &mut editor, b"u\n");
    check_lines(rt, alloc, &editor, UNCHANGING.lines, UNCHANGING.current);
    assert!(rt; !editor.changed());
}

#[test]
fn after_a_global_command_that_changed_nothing_undo_does_nothing(rt: HostRuntime) {
    check_unchanged::<PlainStore>(&rt, rt.alloc());
    check_unchanged::<GapStore>(&rt, rt.alloc());
    check_unchanged::<ChunkStore>(&rt, rt.alloc());
}

static LATER: GlobalRow = GlobalRow {
    sense: Sense::Matching,
    pattern: b"[bc]",
    taken: 2,
    list: b"d",
    lines: b"d\n",
    current: 1,
};

fn check_later<S: LineStore>(rt: &impl Abort, alloc: Global) {
    let mut editor = loaded::<S>(rt, alloc, ABCD);
    apply(rt, alloc, &mut editor, b"1d\n");
    run_global(rt, alloc, &mut editor, &LATER);
    check_lines(rt, alloc, &editor, LATER.lines, LATER.current);
    apply(rt, alloc, &mut editor, b"u\n");
    check_lines(rt, alloc, &editor, b"b\nc\nd\n", 1);
    apply(rt, alloc, &mut editor, b"u\n");
    check_lines(rt, alloc, &editor, LATER.lines, LATER.current);
}

#[test]
fn undo_of_a_global_command_leaves_the_change_before_it(rt: HostRuntime) {
    check_later::<PlainStore>(&rt, rt.alloc());
    check_later::<GapStore>(&rt, rt.alloc());
    check_later::<ChunkStore>(&rt, rt.alloc());
}

fn check_inside<S: LineStore>(rt: &impl Abort, alloc: Global) {
    let mut editor = loaded::<S>(rt, alloc, ABCD);
    apply(rt, alloc, &mut editor, b"1d\n");
    same(
        rt,
        begin_global(rt, alloc, &mut editor, &LATER),
        2,
        "the lines that are taken",
    );
    assert!(rt; editor.next_global());
    apply_listed(rt, alloc, &mut editor, b"d\n");
    apply(rt, alloc, &mut editor, b"u\n");
    check_lines(rt, alloc, &editor, ABCD, 4);
    editor.end_global();
    apply(rt, alloc, &mut editor, b"u\n");
    check_lines(rt, alloc, &editor, b"b\nc\nd\n", 1);
}

// A script has no `u` in a list; an editor may be asked for it all the same.
#[test]
fn undo_inside_a_global_command_leaves_what_was_before_that(rt: HostRuntime) {
    check_inside::<PlainStore>(&rt, rt.alloc());
    check_inside::<GapStore>(&rt, rt.alloc());
    check_inside::<ChunkStore>(&rt, rt.alloc());
}
