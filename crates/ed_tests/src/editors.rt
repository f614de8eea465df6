//! An editor between two commands: an address is evaluated, and a file is loaded.
use crate::applying::{check_texts, check_values, loaded};
use crate::asserting::same;
use crate::expected::{Place, bytes, script};
use ed_base::{Fault, Pieces};
use ed_commands::{Editor, Reply};
use ed_syntax::{Answer, Command, Request};
use line_store::{LineStore, PlainStore};
use std::alloc::Global;
use std::process::Abort;

// The pattern is remembered although no line matched.
#[rattlefmt::skip]
static VALUES: [(Place, Result<usize, Fault>); 4] = [
    (Place::Last(0), Ok(3)),
    (Place::Forward(None), Err(Fault::Pattern)),
    (Place::Backward(Some(b"z")), Err(Fault::NoMatch)),
    (Place::Forward(None), Err(Fault::NoMatch)),
];

#[test]
fn an_address_that_meets_a_fault_leaves_an_editor_that_goes_on(rt: HostRuntime) {
    let mut editor = loaded::<PlainStore>(&rt, rt.alloc(), b"a\nb\nc\n");
    check_values(&rt, rt.alloc(), &mut editor, &VALUES);
    assert!(rt; editor.failed().is_none());
    assert!(rt; editor.current() == 3);
}

#[test]
fn a_file_is_loaded_from_its_own_bytes(rt: HostRuntime) {
    let alloc = rt.alloc();
    let mut editor = Editor::new(alloc, PlainStore::empty(alloc).expect(&rt, "memory"));
    let (file, path) = (bytes(&rt, alloc, b"a\n\nc"), bytes(&rt, alloc, b"F"));
    editor.load_bytes(file, path).expect(&rt, "loaded");
    assert!(rt; editor.current() == 3 && !editor.changed());
    check_texts(&rt, alloc, editor.lines(), b"a\n\nc\n", "the file");
}

fn writes(rt: &impl Abort, alloc: Global, path: &[u8], lines: &[u8]) -> Reply {
    let lines = Pieces::from_bytes(alloc, bytes(rt, alloc, lines));
    Reply::Wants(Request::Write(bytes(rt, alloc, path), lines))
}

fn reads(rt: &impl Abort, alloc: Global, path: &[u8]) -> Reply {
    Reply::Wants(Request::Read(bytes(rt, alloc, path)))
}

fn gives(rt: &impl Abort, alloc: Global, output: &[u8]) -> Reply {
    Reply::Done(Pieces::from_bytes(alloc, bytes(rt, alloc, output)))
}

fn check_reply(
    rt: &impl Abort,
    editor: &mut Editor<PlainStore>,
    command: &Command,
    answer: Option<Answer>,
    reply: Reply,
) {
    same(rt, editor.apply(command, answer), Ok(reply), command);
}

/// A write asks first, and leaves nothing to be saved once it is done.
fn check_write(rt: &impl Abort, alloc: Global, editor: &mut Editor<PlainStore>, write: &Command) {
    check_reply(rt, editor, write, None, writes(rt, alloc, b"G", b"b\nc\n"));
    check_reply(rt, editor, write, Some(Answer::Done), gives(rt, alloc, b""));
    assert!(rt; !editor.changed());
}

/// A read asks first, and puts the lines of the answer after its line.
fn check_read(rt: &impl Abort, alloc: Global, editor: &mut Editor<PlainStore>, enter: &Command) {
    check_reply(rt, editor, enter, None, reads(rt, alloc, b"F"));
    let answer = Answer::Bytes(bytes(rt, alloc, b"d\ne"));
    check_reply(rt, editor, enter, Some(answer), gives(rt, alloc, b""));
    let found = (editor.current(), editor.lines().len(), editor.changed());
    same(rt, found, (3, 4, true), "after the read");
}

fn check_commands(
    rt: &impl Abort,
    alloc: Global,
    editor: &mut Editor<PlainStore>,
    commands: &[Command],
) {
    let [delete, write, enter, name] = commands else {
        panic!(rt; "there are four commands");
    };
    check_reply(rt, editor, delete, None, gives(rt, alloc, b""));
    check_write(rt, alloc, editor, write);
    check_read(rt, alloc, editor, enter);
    check_reply(rt, editor, name, None, gives(rt, alloc, b"F\n"));
}

/// XCU ed, "Write Command", "Read Command", "Filename Command".
#[test]
fn a_command_asks_for_its_file_and_goes_on_with_the_answer(rt: HostRuntime) {
    let alloc = rt.alloc();
    let mut editor = loaded(&rt, alloc, b"a\nb\nc\n");
    let read = script(&rt, alloc, b"1d\nw G\n1r\nf\n");
    check_commands(&rt, alloc, &mut editor, read.commands.as_slice());
}
