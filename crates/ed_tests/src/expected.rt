//! Values that tests expect of a script. A `static` holds nothing that is dropped: its rows have an address as a `Place` and those of a
//! command as `Given`, and the values that these stand for are made when they are compared.
use ed_base::{Bytes, Letter, Text, next_line};
use ed_syntax::{Address, Addresses, Base, Command, Pattern, Script, read_script};
use std::alloc::Global;
use std::process::Abort;

/// An address. The numbers after a base are offsets, and a pattern that is left out is the remembered one.
#[derive(Clone, Copy, Debug)]
pub(crate) enum Place {
    Number(u32),
    Current(i128),
    Last(i128),
    Marked(u8, i128),
    Forward(Option<&'static [u8]>),
    Backward(Option<&'static [u8]>),
}

/// The addresses of a command.
#[derive(Clone, Copy)]
pub(crate) enum Given {
    Without,
    One(Place),
    Comma(Place, Place),
    Semicolon(Place, Option<Place>),
}

pub(crate) fn address(rt: &impl Abort, alloc: Global, place: Place) -> Address {
    match place {
        Place::Number(number) => from(Base::Number(number), 0),
        Place::Current(offset) => from(Base::Current, offset),
        Place::Last(offset) => from(Base::Last, offset),
        Place::Marked(byte, offset) => from(Base::Marked(letter(rt, byte)), offset),
        Place::Forward(text) => from(Base::Forward(searched(rt, alloc, text)), 0),
        Place::Backward(text) => from(Base::Backward(searched(rt, alloc, text)), 0),
    }
}

pub(crate) fn addresses(rt: &impl Abort, alloc: Global, given: Given) -> Addresses {
    match given {
        Given::Without => Addresses::Without,
        Given::One(place) => Addresses::One(address(rt, alloc, place)),
        Given::Comma(first, second) => {
            Addresses::Comma(address(rt, alloc, first), address(rt, alloc, second))
        }
        Given::Semicolon(first, second) => Addresses::Semicolon(
            address(rt, alloc, first),
            second.map(|second| address(rt, alloc, second)),
        ),
    }
}

fn from(base: Base, offset: i128) -> Address {
    Address { base, offset }
}

fn searched(rt: &impl Abort, alloc: Global, text: Option<&[u8]>) -> Option<Pattern> {
    text.map(|text| pattern(rt, alloc, text))
}

pub(crate) fn letter(rt: &impl Abort, byte: u8) -> Letter {
    Letter::new(byte).expect(rt, "a letter")
}

pub(crate) fn pattern(rt: &impl Abort, alloc: Global, text: &[u8]) -> Pattern {
    Pattern::read(alloc, bytes(rt, alloc, text)).expect(rt, "a pattern")
}

pub(crate) fn bytes(rt: &impl Abort, alloc: Global, of: &[u8]) -> Bytes {
    Bytes::from_slice(alloc, of).expect(rt, "memory")
}

pub(crate) fn script(rt: &impl Abort, alloc: Global, of: &[u8]) -> Script {
    read_script(alloc, of).expect(rt, "memory")
}

/// The one command of a script that has no fault.
pub(crate) fn only<'a>(rt: &impl Abort, script: &'a Script) -> &'a Command {
    match script.commands.as_slice() {
        [command] if script.fault.is_none() => command,
        _ => panic!(rt; "no single command: {script:?}"),
    }
}

pub(crate) fn are_lines(text: &Text, lines: &[&[u8]]) -> bool {
    let mut left = text.as_bytes();
    for expected in lines {
        match next_line(left) {
            Some((line, rest)) if line == *expected => left = rest,
            _ => return false,
        }
    }
    left.is_empty() && text.len() == lines.len()
}
