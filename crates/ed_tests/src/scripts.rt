//! Scripts as they are read: up to the first fault, with the addresses that the standard says (XCU ed, "Addresses in ed").
use crate::asserting::{same, same_as};
use crate::commands::{CommandRow, PRINTED, RowVerb, check_each};
use crate::expected::{Given, Place, are_lines, bytes, only, pattern, script};
use bre_parse::fault::BreFault;
use ed_syntax::{Address, Answer, Base, Pattern, Verb};
use std::alloc::Global;
use std::process::Abort;

/// The command `a` with each byte in turn.
fn every_byte(rt: &impl Abort, alloc: Global) -> Vec<u8> {
    let mut bytes = Vec::from_slice(alloc, b"a\n".as_slice()).expect(rt, "memory");
    for byte in 0..=255 {
        bytes.push(byte).expect(rt, "memory");
    }
    bytes
}

#[test]
fn a_text_holds_any_byte_but_newline(rt: HostRuntime) {
    let bytes = every_byte(&rt, rt.alloc());
    assert!(rt; bytes.len() == 258);
    let read = script(&rt, rt.alloc(), bytes.as_slice());
    let Verb::Append(text) = &only(&rt, &read).verb else {
        panic!(rt; "no text");
    };
    assert!(rt; are_lines(text, &[&bytes[2..12], &bytes[13..]]), "{text:?}");
}

struct ScriptRow {
    script: &'static [u8],
    commands: usize,
    fault: Option<usize>,
}

#[rattlefmt::skip]
static SCRIPTS: [ScriptRow; 34] = [
    ScriptRow { script: b"", commands: 0, fault: None },
    ScriptRow { script: b"p", commands: 1, fault: None },
    ScriptRow { script: b"999999999p\n", commands: 1, fault: None },
    ScriptRow { script: b"9999999999p\n", commands: 0, fault: Some(1) },
    ScriptRow { script: b".+999999999p\n", commands: 1, fault: None },
    ScriptRow { script: b".+1000000000p\n", commands: 0, fault: Some(1) },
    ScriptRow { script: b"a\nx\n.\nz\np\n", commands: 1, fault: Some(4) },
    ScriptRow { script: b"p\n\xff", commands: 1, fault: Some(2) },
    ScriptRow { script: b"- 1p\n", commands: 0, fault: Some(1) },
    ScriptRow { script: b"'Ap\n", commands: 0, fault: Some(1) },
    ScriptRow { script: b"ka\nk\n", commands: 1, fault: Some(2) },
    ScriptRow { script: b"k a\n", commands: 0, fault: Some(1) },
    ScriptRow { script: b"Q\n1Q\n", commands: 1, fault: Some(2) },
    ScriptRow { script: b"/x\n?x\n/\n", commands: 3, fault: None },
    ScriptRow { script: b"/\\(/p\n", commands: 0, fault: Some(1) },
    ScriptRow { script: b"/[/p\n", commands: 0, fault: Some(1) },
    ScriptRow { script: b"/x\\\n", commands: 0, fault: Some(1) },
    // A target is left out, or more than a suffix stands after the letter.
    ScriptRow { script: b"m", commands: 0, fault: Some(1) },
    ScriptRow { script: b"t", commands: 0, fault: Some(1) },
    ScriptRow { script: b"mp", commands: 0, fault: Some(1) },
    ScriptRow { script: b"tp", commands: 0, fault: Some(1) },
    ScriptRow { script: b"m3 p", commands: 0, fault: Some(1) },
    ScriptRow { script: b"m3,4", commands: 0, fault: Some(1) },
    ScriptRow { script: b"m3t4", commands: 0, fault: Some(1) },
    ScriptRow { script: b"m1234567890", commands: 0, fault: Some(1) },
    ScriptRow { script: b"m/[/", commands: 0, fault: Some(1) },
    ScriptRow { script: b"d p", commands: 0, fault: Some(1) },
    ScriptRow { script: b"dd", commands: 0, fault: Some(1) },
    ScriptRow { script: b"ppp", commands: 0, fault: Some(1) },
    ScriptRow { script: b"Qp", commands: 0, fault: Some(1) },
    ScriptRow { script: b"jz", commands: 0, fault: Some(1) },
    ScriptRow { script: b"1h", commands: 0, fault: Some(1) },
    ScriptRow { script: b"1H", commands: 0, fault: Some(1) },
    ScriptRow { script: b"1P", commands: 0, fault: Some(1) },
];

fn check_script(rt: &impl Abort, alloc: Global, row: &ScriptRow) {
    let read = script(rt, alloc, row.script);
    let expected = (row.commands, row.fault);
    same(rt, (read.commands.len(), read.fault), expected, row.script);
}

#[test]
fn a_script_is_read_up_to_its_first_fault(rt: HostRuntime) {
    for row in &SCRIPTS {
        check_script(&rt, rt.alloc(), row);
    }
}

// XCU ed, "Addresses in ed": a sign alone counts 1, and blanks don't matter.
#[rattlefmt::skip]
static OFFSETS: [CommandRow; 8] = [
    CommandRow { script: b".p", given: Given::One(Place::Current(0)), ..PRINTED },
    CommandRow { script: b"+p", given: Given::One(Place::Current(1)), ..PRINTED },
    CommandRow { script: b"--p", given: Given::One(Place::Current(-2)), ..PRINTED },
    CommandRow { script: b".+5p", given: Given::One(Place::Current(5)), ..PRINTED },
    CommandRow { script: b"-12p", given: Given::One(Place::Current(-12)), ..PRINTED },
    CommandRow { script: b" . +7 -\t+3 p", given: Given::One(Place::Current(9)), ..PRINTED },
    CommandRow { script: b"-999999999-p", given: Given::One(Place::Current(-1_000_000_000)), ..PRINTED },
    CommandRow { script: b"+0p", given: Given::One(Place::Current(0)), ..PRINTED },
];

#[test]
fn offsets_are_summed(rt: HostRuntime) {
    check_each(&rt, rt.alloc(), &OFFSETS);
}

// What an address begins with, and what stands for one that is left out.
#[rattlefmt::skip]
static ADDRESSES: [CommandRow; 12] = [
    CommandRow { script: b"7p", given: Given::One(Place::Number(7)), ..PRINTED },
    CommandRow { script: b"$-p", given: Given::One(Place::Last(-1)), ..PRINTED },
    CommandRow { script: b"'z+2p", given: Given::One(Place::Marked(b'z', 2)), ..PRINTED },
    CommandRow { script: b"p", given: Given::Without, ..PRINTED },
    CommandRow { script: b",p", given: Given::Comma(Place::Number(1), Place::Last(0)), ..PRINTED },
    CommandRow { script: b",7p", given: Given::Comma(Place::Number(1), Place::Number(7)), ..PRINTED },
    CommandRow { script: b"7,p", given: Given::Comma(Place::Number(7), Place::Number(7)), ..PRINTED },
    CommandRow { script: b" 7 , + p", given: Given::Comma(Place::Number(7), Place::Current(1)), ..PRINTED },
    CommandRow { script: b";p", given: Given::Semicolon(Place::Current(0), Some(Place::Last(0))), ..PRINTED },
    CommandRow { script: b";7p", given: Given::Semicolon(Place::Current(0), Some(Place::Number(7))), ..PRINTED },
    CommandRow { script: b"7;p", given: Given::Semicolon(Place::Number(7), None), ..PRINTED },
    CommandRow { script: b" 7 ; + p", given: Given::Semicolon(Place::Number(7), Some(Place::Current(1))), ..PRINTED },
];

#[test]
fn an_address_that_is_left_out_is_filled_in(rt: HostRuntime) {
    check_each(&rt, rt.alloc(), &ADDRESSES);
}

// No letter after a search that its line ends.
const UNLETTERED: CommandRow = CommandRow {
    verb: RowVerb::Null,
    ..PRINTED
};

// XCU ed, "Regular Expressions in ed": the delimiter in a pattern, and the pattern that is left out.
#[rattlefmt::skip]
static SEARCHES: [CommandRow; 13] = [
    CommandRow { script: b"/a b/p", given: Given::One(Place::Forward(Some(b"a b"))), ..PRINTED },
    CommandRow { script: b"/a?b", given: Given::One(Place::Forward(Some(b"a?b"))), ..UNLETTERED },
    CommandRow { script: b"/a\\/b/p", given: Given::One(Place::Forward(Some(b"a/b"))), ..PRINTED },
    CommandRow { script: b"/a\\.b/p", given: Given::One(Place::Forward(Some(b"a\\.b"))), ..PRINTED },
    CommandRow { script: b"/a\\\\/p", given: Given::One(Place::Forward(Some(b"a\\\\"))), ..PRINTED },
    CommandRow { script: b"/[/]x/p", given: Given::One(Place::Forward(Some(b"[/]x"))), ..PRINTED },
    CommandRow { script: b"/[]/]/p", given: Given::One(Place::Forward(Some(b"[]/]"))), ..PRINTED },
    CommandRow { script: b"//p", given: Given::One(Place::Forward(None)), ..PRINTED },
    CommandRow { script: b"/", given: Given::One(Place::Forward(None)), ..UNLETTERED },
    CommandRow { script: b"?a/b?p", given: Given::One(Place::Backward(Some(b"a/b"))), ..PRINTED },
    CommandRow { script: b"?a\\?b", given: Given::One(Place::Backward(Some(b"a?b"))), ..UNLETTERED },
    CommandRow { script: b"?[?]?p", given: Given::One(Place::Backward(Some(b"[?]"))), ..PRINTED },
    CommandRow { script: b"??p", given: Given::One(Place::Backward(None)), ..PRINTED },
];

#[test]
fn a_search_has_its_pattern(rt: HostRuntime) {
    check_each(&rt, rt.alloc(), &SEARCHES);
}

fn push_times(rt: &impl Abort, bytes: &mut Vec<u8>, byte: u8, times: usize) {
    for _ in 0..times {
        bytes.push(byte).expect(rt, "memory");
    }
}

#[test]
fn long_lines_are_read(rt: HostRuntime) {
    let mut bytes = Vec::from_slice(rt.alloc(), b"a\n".as_slice()).expect(&rt, "memory");
    push_times(&rt, &mut bytes, b'x', 100_000);
    bytes
        .extend_from_slice(b"\n.\n/".as_slice())
        .expect(&rt, "memory");
    push_times(&rt, &mut bytes, b'y', 10_000);
    let read = script(&rt, rt.alloc(), bytes.as_slice());
    assert!(rt; read.commands.len() == 2 && read.fault.is_none());
}

fn check_pattern(rt: &impl Abort, pattern: &Pattern, copied: &str) {
    same(rt, pattern.text(), b"\\(x\\)*y".as_slice(), copied);
    same(rt, pattern.bre().groups(), 1, copied);
}

#[test]
fn a_pattern_has_its_text_and_its_meaning(rt: HostRuntime) {
    let pattern = pattern(&rt, rt.alloc(), b"\\(x\\)*y");
    check_pattern(&rt, &pattern, "as it was read");
    let copy = pattern.try_copy().expect(&rt, "memory");
    check_pattern(&rt, &copy, "copied");
    same_as(&rt, &pattern, copy, "the copy");
}

#[test]
fn a_pattern_that_cannot_be_read_tells_why(rt: HostRuntime) {
    let read = Pattern::read(rt.alloc(), bytes(&rt, rt.alloc(), b"[x"));
    same(&rt, read.err(), Some(BreFault::Bracket), "[x");
}

#[test]
fn copies_are_equal(rt: HostRuntime) {
    let address = Address {
        base: Base::Forward(Some(pattern(&rt, rt.alloc(), b"x*"))),
        offset: -3,
    };
    let copy = address.try_copy().expect(&rt, "memory");
    same(&rt, copy, address, "the address");
    let answer = Answer::Bytes(bytes(&rt, rt.alloc(), b"x\n"));
    let copy = answer.try_copy().expect(&rt, "memory");
    same(&rt, copy, answer, "the answer");
}
