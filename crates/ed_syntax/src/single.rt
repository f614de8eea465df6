//! Reads a command without a list: its head, and its text.
//!
//! What could be one function is several: where a function that holds a `Verb` exits early, the `Verb` is dropped, and the proof of each
//! such exit takes some 250 steps.
ghost use Rattle.std.specs.Prelude.{◌≡◌, ◌+◌, ◌≤◌, length, IfOk};
ghost use Rattle.ed_syntax.specs.spelling.CommandLetters.{entering};
ghost use Rattle.ed_syntax.specs.reading.ReadCommands.{text, with_text, command_after_addresses, command_at};
ghost use Rattle.ed_syntax.specs.PublicTypes.{addresses_value, verb_value};
ghost use Rattle.ed_syntax.specs.reading.ReadParts.{command_before, order_before};

use crate::addresses::addresses;
use crate::heading::{Order, heading_after_addresses};
use crate::script_lines::ScriptLines;
use crate::{Addresses, Command, Verb};
use ed_base::Text;
use std::alloc::{AllocError, Global};

/// The command that begins on this line, in a list or outside. A replacement and a text go on in the lines after it.
pub fn command_at<'a>(
    alloc: Global,
    listed: bool,
    line: &'a [u8],
    later: &mut ScriptLines<'a>,
) -> Result<Option<Command>, AllocError>
    ensures value { IfOk result (λ c. command_before c later.new.lines ≡ command_at listed line.now later.old.lines) }
    ensures number { later.new.number + length later.new.lines ≡ later.old.number + length later.old.lines }
    ensures later { length later.new.lines ≤ length later.old.lines }
{
    match addresses(alloc, line)? {
        Some((given, rest)) => command_after_addresses(alloc, listed, given, rest, later),
        None => Ok(None),
    }
}

/// What stands after the addresses of a command.
pub fn command_after_addresses<'a>(
    alloc: Global,
    listed: bool,
    addresses: Addresses,
    bytes: &'a [u8],
    later: &mut ScriptLines<'a>,
) -> Result<Option<Command>, AllocError>
    ensures value { IfOk result (λ c. command_before c later.new.lines ≡
        command_after_addresses listed (addresses_value addresses) bytes.now later.old.lines) }
    ensures number { later.new.number + length later.new.lines ≡ later.old.number + length later.old.lines }
    ensures later { length later.new.lines ≤ length later.old.lines }
{
    order_after_addresses(alloc, listed, &addresses, bytes, later).map(|order| {
        command_of(listed, addresses, order)
    })
}

/// The command of these addresses and of what stands after them.
fn command_of(listed: bool, addresses: Addresses, order: Option<Order>) -> Option<Command>
    ensures value { (left : _) → command_before result left ≡ order_before listed (addresses_value addresses) order left }
{
    order.map(|Order { verb, suffix }| Command {
        addresses,
        verb,
        suffix,
        listed,
    })
}

/// What stands after the addresses of a command, with its text.
fn order_after_addresses<'a>(
    alloc: Global,
    listed: bool,
    given: &Addresses,
    bytes: &'a [u8],
    later: &mut ScriptLines<'a>,
) -> Result<Option<Order>, AllocError>
    ensures value { IfOk result (λ order. order_before listed (addresses_value given.now) order later.new.lines ≡
        command_after_addresses listed (addresses_value given.now) bytes.now later.old.lines) }
    ensures number { later.new.number + length later.new.lines ≡ later.old.number + length later.old.lines }
    ensures later { length later.new.lines ≤ length later.old.lines }
{
    match heading_after_addresses(alloc, listed, given, bytes, later)? {
        Some(Order { verb, suffix }) => with_text(alloc, verb, later).map(|verb| Some(Order {
            verb,
            suffix,
        })),
        None => Ok(None),
    }
}

/// A verb with its text, if it takes one.
fn with_text(alloc: Global, verb: Verb, later: &mut ScriptLines<'_>) -> Result<Verb, AllocError>
    ensures value { IfOk result (λ v. (verb_value v, later.new.lines) ≡ with_text (verb_value verb) later.old.lines) }
    ensures number { later.new.number + length later.new.lines ≡ later.old.number + length later.old.lines }
    ensures later { length later.new.lines ≤ length later.old.lines }
{
    if verb.takes().text {
        with_lines(alloc, verb, later)
    } else {
        Ok(verb)
    }
}

/// A verb with the text that is read here.
fn with_lines(alloc: Global, verb: Verb, later: &mut ScriptLines<'_>) -> Result<Verb, AllocError>
    ensures value { IfOk result (λ v. verb_value v ≡ entering (text later.old.lines).0 (verb_value verb)) }
    ensures left { IfOk result (λ v. later.new.lines ≡ (text later.old.lines).1) }
    ensures number { later.new.number + length later.new.lines ≡ later.old.number + length later.old.lines }
    ensures later { length later.new.lines ≤ length later.old.lines }
{
    later.read_text(alloc).map(|text| entering(text, verb))
}

/// A verb with this text in place of its own.
fn entering(text: Text, verb: Verb) -> Verb
    ensures value { verb_value result ≡ entering text (verb_value verb) }
{
    match verb {
        Verb::Append(_empty) => Verb::Append(text),
        Verb::Change(_empty) => Verb::Change(text),
        Verb::Insert(_empty) => Verb::Insert(text),
        without_text => without_text,
    }
}
