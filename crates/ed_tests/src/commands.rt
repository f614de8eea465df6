//! Commands as they are read, with the values that the standard says (XCU ed, "Commands in ed").
use crate::asserting::{same, same_as};
use crate::expected::{Given, Place, address, addresses, only, script};
use ed_syntax::{Command, Form, Taking, Verb};
use std::alloc::Global;
use std::process::Abort;

/// A command's letter with its parameters, as rows have it.
#[derive(Clone, Copy)]
pub(crate) enum RowVerb {
    Delete,
    Join,
    Move(Place),
    Copy(Place),
    LineNumber,
    Null,
    Write(Form),
    Help,
    HelpMode,
    PromptMode,
    QuitAnyway,
}

fn verb(rt: &impl Abort, alloc: Global, row: RowVerb) -> Verb {
    match row {
        RowVerb::Delete => Verb::Delete,
        RowVerb::Join => Verb::Join,
        RowVerb::Move(target) => Verb::Move(address(rt, alloc, target)),
        RowVerb::Copy(target) => Verb::Copy(address(rt, alloc, target)),
        RowVerb::LineNumber => Verb::LineNumber,
        RowVerb::Null => Verb::Null,
        RowVerb::Write(form) => Verb::Write(form),
        RowVerb::Help => Verb::Help,
        RowVerb::HelpMode => Verb::HelpMode,
        RowVerb::PromptMode => Verb::PromptMode,
        RowVerb::QuitAnyway => Verb::QuitAnyway,
    }
}

/// A script of one command.
#[derive(Clone, Copy)]
pub(crate) struct CommandRow {
    pub script: &'static [u8],
    pub given: Given,
    pub verb: RowVerb,
    pub suffix: Option<Form>,
}

/// A command `p`.
pub(crate) const PRINTED: CommandRow = CommandRow {
    script: b"p",
    given: Given::Without,
    verb: RowVerb::Write(Form::Plain),
    suffix: None,
};

// XCU ed, "Commands in ed": each command has one letter, and the target of `m` and `t` is an address. A suffix stands directly
// after the letter and its parameters.
#[rattlefmt::skip]
static COMMANDS: [CommandRow; 19] = [
    CommandRow { script: b" 2 d\t\n", given: Given::One(Place::Number(2)), verb: RowVerb::Delete, suffix: None },
    CommandRow { script: b",p", given: Given::Comma(Place::Number(1), Place::Last(0)), verb: RowVerb::Write(Form::Plain), suffix: None },
    CommandRow { script: b"=", given: Given::Without, verb: RowVerb::LineNumber, suffix: None },
    CommandRow { script: b"\n", given: Given::Without, verb: RowVerb::Null, suffix: None },
    CommandRow { script: b"Q", given: Given::Without, verb: RowVerb::QuitAnyway, suffix: None },
    CommandRow { script: b"j", given: Given::Without, verb: RowVerb::Join, suffix: None },
    CommandRow { script: b"2,3jl", given: Given::Comma(Place::Number(2), Place::Number(3)), verb: RowVerb::Join, suffix: Some(Form::Unambiguous) },
    CommandRow { script: b"1m3p", given: Given::One(Place::Number(1)), verb: RowVerb::Move(Place::Number(3)), suffix: Some(Form::Plain) },
    CommandRow { script: b"m \t+ \t", given: Given::Without, verb: RowVerb::Move(Place::Current(1)), suffix: None },
    CommandRow { script: b"t$ -1n ", given: Given::Without, verb: RowVerb::Copy(Place::Last(-1)), suffix: Some(Form::Numbered) },
    CommandRow { script: b"t0", given: Given::Without, verb: RowVerb::Copy(Place::Number(0)), suffix: None },
    CommandRow { script: b"t.l", given: Given::Without, verb: RowVerb::Copy(Place::Current(0)), suffix: Some(Form::Unambiguous) },
    CommandRow { script: b"l", given: Given::Without, verb: RowVerb::Write(Form::Unambiguous), suffix: None },
    CommandRow { script: b"n", given: Given::Without, verb: RowVerb::Write(Form::Numbered), suffix: None },
    CommandRow { script: b"lp", given: Given::Without, verb: RowVerb::Write(Form::Unambiguous), suffix: Some(Form::Plain) },
    CommandRow { script: b"=n", given: Given::Without, verb: RowVerb::LineNumber, suffix: Some(Form::Numbered) },
    CommandRow { script: b"h", given: Given::Without, verb: RowVerb::Help, suffix: None },
    CommandRow { script: b"Hp", given: Given::Without, verb: RowVerb::HelpMode, suffix: Some(Form::Plain) },
    CommandRow { script: b"P", given: Given::Without, verb: RowVerb::PromptMode, suffix: None },
];

fn check(rt: &impl Abort, alloc: Global, row: &CommandRow) {
    let read = script(rt, alloc, row.script);
    let expected = Command {
        addresses: addresses(rt, alloc, row.given),
        verb: verb(rt, alloc, row.verb),
        suffix: row.suffix,
        listed: false,
    };
    same_as(rt, only(rt, &read), expected, row.script);
}

/// Each row's script is its command, and no fault.
pub(crate) fn check_each(rt: &impl Abort, alloc: Global, rows: &[CommandRow]) {
    for row in rows {
        check(rt, alloc, row);
    }
}

#[test]
fn a_command_is_read_with_its_target_and_suffix(rt: HostRuntime) {
    check_each(&rt, rt.alloc(), &COMMANDS);
}

struct SynopsisRow {
    script: &'static [u8],
    /// The same command with its default addresses spelled out.
    spelled_out: &'static [u8],
    taking: Taking,
    has_text: bool,
    has_target: bool,
    takes_suffix: bool,
}

// XCU ed, "Commands in ed": each command's synopsis, and what line 0 means to it.
#[rattlefmt::skip]
static SYNOPSES: [SynopsisRow; 16] = [
    SynopsisRow { script: b"a", spelled_out: b".a", taking: Taking::Place, has_text: true, has_target: false, takes_suffix: true },
    SynopsisRow { script: b"c", spelled_out: b".,.c", taking: Taking::Lines, has_text: true, has_target: false, takes_suffix: true },
    SynopsisRow { script: b"d", spelled_out: b".,.d", taking: Taking::Range, has_text: false, has_target: false, takes_suffix: true },
    SynopsisRow { script: b"h", spelled_out: b"h", taking: Taking::NoAddress, has_text: false, has_target: false, takes_suffix: true },
    SynopsisRow { script: b"H", spelled_out: b"H", taking: Taking::NoAddress, has_text: false, has_target: false, takes_suffix: true },
    SynopsisRow { script: b"i", spelled_out: b".i", taking: Taking::FirstPlace, has_text: true, has_target: false, takes_suffix: true },
    SynopsisRow { script: b"j", spelled_out: b".,.+1j", taking: Taking::Range, has_text: false, has_target: false, takes_suffix: true },
    SynopsisRow { script: b"ka", spelled_out: b".ka", taking: Taking::OneLine, has_text: false, has_target: false, takes_suffix: true },
    SynopsisRow { script: b"m$", spelled_out: b".,.m$", taking: Taking::Range, has_text: false, has_target: true, takes_suffix: true },
    SynopsisRow { script: b"n", spelled_out: b".,.n", taking: Taking::Range, has_text: false, has_target: false, takes_suffix: true },
    SynopsisRow { script: b"p", spelled_out: b".,.p", taking: Taking::Range, has_text: false, has_target: false, takes_suffix: true },
    SynopsisRow { script: b"P", spelled_out: b"P", taking: Taking::NoAddress, has_text: false, has_target: false, takes_suffix: true },
    SynopsisRow { script: b"Q", spelled_out: b"Q", taking: Taking::NoAddress, has_text: false, has_target: false, takes_suffix: false },
    SynopsisRow { script: b"t$", spelled_out: b".,.t$", taking: Taking::Range, has_text: false, has_target: true, takes_suffix: true },
    SynopsisRow { script: b"=", spelled_out: b"$=", taking: Taking::Place, has_text: false, has_target: false, takes_suffix: true },
    SynopsisRow { script: b"\n", spelled_out: b".+1\n", taking: Taking::OneLine, has_text: false, has_target: false, takes_suffix: false },
];

fn check_synopsis(rt: &impl Abort, alloc: Global, row: &SynopsisRow) {
    let read = script(rt, alloc, row.script);
    let spelled_out = script(rt, alloc, row.spelled_out);
    let takes = only(rt, &read).verb.takes();
    same_as(
        rt,
        &only(rt, &spelled_out).addresses,
        takes.default.addresses(),
        row.script,
    );
    let found = (
        takes.taking,
        takes.text,
        takes.target.is_some(),
        takes.suffix,
    );
    let expected = (row.taking, row.has_text, row.has_target, row.takes_suffix);
    same(rt, found, expected, row.script);
}

#[test]
fn a_command_takes_what_its_synopsis_says(rt: HostRuntime) {
    for row in &SYNOPSES {
        check_synopsis(&rt, rt.alloc(), row);
    }
}
