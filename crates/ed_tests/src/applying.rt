//! Editors over any store: a file is loaded, scripts are applied to it, and what came of them is compared.
use crate::asserting::same;
use crate::expected::{Place, address, bytes, script};
use ed_base::{Bytes, Fault};
use ed_commands::Editor;
use ed_syntax::Command;
use line_store::LineStore;
use std::alloc::Global;
use std::fmt::Debug;
use std::process::Abort;

/// An editor of the file `F`, which has these bytes.
pub(crate) fn loaded<S: LineStore>(rt: &impl Abort, alloc: Global, file: &[u8]) -> Editor<S> {
    let mut editor = Editor::new(alloc, S::empty(alloc).expect(rt, "memory"));
    let path = bytes(rt, alloc, b"F");
    editor.load(file, path).expect(rt, "loaded");
    editor
}

/// Carries out a command that needs no file.
fn carry_out<S: LineStore>(rt: &impl Abort, editor: &mut Editor<S>, command: &Command) {
    let reply = editor.apply(command, None).expect(rt, "carried out");
    drop(reply);
}

/// Applies the commands of a script.
pub(crate) fn apply<S: LineStore>(
    rt: &impl Abort,
    alloc: Global,
    editor: &mut Editor<S>,
    commands: &[u8],
) {
    for command in &script(rt, alloc, commands).commands {
        carry_out(rt, editor, command);
    }
}

/// Applies commands as those of the list of a global command.
pub(crate) fn apply_listed<S: LineStore>(
    rt: &impl Abort,
    alloc: Global,
    editor: &mut Editor<S>,
    commands: &[u8],
) {
    for command in &mut script(rt, alloc, commands).commands {
        command.listed = true;
        carry_out(rt, editor, command);
    }
}

/// The lines of a store, each with its newline.
fn texts<S: LineStore>(rt: &impl Abort, alloc: Global, store: &S) -> Bytes {
    let mut texts = Bytes::new(alloc);
    for place in 0..store.len() {
        let text = store.text(place);
        texts.extend_from_slice(text).expect(rt, "memory");
        texts.push(b'\n').expect(rt, "memory");
    }
    texts
}

/// The lines of a store are these, each with its newline.
pub(crate) fn check_texts<S: LineStore, P: Debug + Copy>(
    rt: &impl Abort,
    alloc: Global,
    store: &S,
    expected: &[u8],
    at: P,
) {
    same(rt, texts(rt, alloc, store).as_slice(), expected, at);
}

/// An address, and the line that it names.
pub(crate) type Value = (Place, Result<usize, Fault>);

/// Each address has its value, one after another.
pub(crate) fn check_values<S: LineStore>(
    rt: &impl Abort,
    alloc: Global,
    editor: &mut Editor<S>,
    values: &[Value],
) {
    for (place, value) in values {
        let address = address(rt, alloc, *place);
        same(rt, editor.value_of(&address), *value, place);
    }
}
