//! Reads a global command: its letter, its pattern and its list.
//!
//! What could be one function is several: where a function that holds a `Verb` exits early, the `Verb` is dropped, and the proof of each
//! such exit takes some 250 steps.
ghost use Rattle.std.specs.Prelude.{◌≡◌, ◌+◌, ◌≤◌, length, MatchOption, Some, None, option_map, IfOk};
ghost use Rattle.ed_syntax.specs.spelling.Characters.{goes_on, after_blanks};
ghost use Rattle.ed_syntax.specs.spelling.Spellings.{print};
ghost use Rattle.ed_syntax.specs.PublicTypes.{addresses_value, command_value};
ghost use Rattle.ed_syntax.specs.reading.ReadGlobals.{joined, is_newline, all_commands, list_of, with_list, global_by, global_after_addresses, sense_at};
ghost use Rattle.ed_syntax.specs.reading.ReadParts.{step_before, optional_commands, global_before, listed_before};

use crate::quoting::{after_closing, pattern_at};
use crate::script_lines::ScriptLines;
use crate::single::command_at;
use crate::tokens::{after_blanks, is_delimiter};
use crate::{Addresses, Command, Form, Pattern, Sense, Verb};
use ed_base::Bytes;
use std::alloc::{AllocError, Global};

/// The letter of a global command, and what stands after it.
pub fn sense_at(bytes: &[u8]) -> Option<(Sense, &[u8])>
    ensures value { MatchOption result (sense_at bytes.now ≡ None)
        (λ (sense, rest). sense_at bytes.now ≡ Some (sense, rest.now)) }
{
    match bytes {
        [b'g', rest @ ..] => Some((Sense::Matching, rest)),
        [b'v', rest @ ..] => Some((Sense::Others, rest)),
        _ => None,
    }
}

/// What stands after the letter of a global command. The lines of its list are taken from those after its own.
pub fn global_after_addresses<'a>(
    alloc: Global,
    addresses: Addresses,
    sense: Sense,
    bytes: &'a [u8],
    later: &mut ScriptLines<'a>,
) -> Result<Option<Command>, AllocError>
    ensures value { IfOk result (λ c. step_before c later.new.lines ≡
        global_after_addresses (addresses_value addresses) sense bytes.now later.old.lines) }
    ensures number { later.new.number + length later.new.lines ≡ later.old.number + length later.old.lines }
    ensures later { length later.new.lines ≤ length later.old.lines }
{
    verb_after_sense(alloc, sense, bytes, later).map(|read| after(addresses, read))
}

/// The command of these addresses and a global command's letter with its parameters.
fn after(addresses: Addresses, read: Option<Verb>) -> Option<Command>
    ensures value { (left : _) → step_before result left ≡ global_before (addresses_value addresses) read left }
{
    read.map(|verb| Command {
        addresses,
        verb,
        suffix: None,
        listed: false,
    })
}

/// What stands after the letter of a global command, whatever its addresses.
fn verb_after_sense<'a>(
    alloc: Global,
    sense: Sense,
    bytes: &'a [u8],
    later: &mut ScriptLines<'a>,
) -> Result<Option<Verb>, AllocError>
    ensures value { IfOk result (λ read. (given : _) → global_before given read later.new.lines ≡
        global_after_addresses given sense bytes.now later.old.lines) }
    ensures number { later.new.number + length later.new.lines ≡ later.old.number + length later.old.lines }
    ensures later { length later.new.lines ≤ length later.old.lines }
{
    match bytes {
        [delimiter, rest @ ..] if is_delimiter(*delimiter) => {
            global_by(alloc, sense, *delimiter, rest, later)
        }
        _ => Ok(None),
    }
}

/// The pattern of a global command, and what stands after it.
fn global_by<'a>(
    alloc: Global,
    sense: Sense,
    delimiter: u8,
    bytes: &'a [u8],
    later: &mut ScriptLines<'a>,
) -> Result<Option<Verb>, AllocError>
    ensures value { IfOk result (λ read. (given : _) → global_before given read later.new.lines ≡
        global_by given sense delimiter bytes.now later.old.lines) }
    ensures number { later.new.number + length later.new.lines ≡ later.old.number + length later.old.lines }
    ensures later { length later.new.lines ≤ length later.old.lines }
{
    match pattern_at(alloc, delimiter, bytes)? {
        Some((pattern, rest)) => with_list(alloc, sense, pattern, after_closing(rest), later),
        None => Ok(None),
    }
}

/// A global command with the list that begins with what is left of its line.
fn with_list<'a>(
    alloc: Global,
    sense: Sense,
    pattern: Option<Pattern>,
    bytes: &'a [u8],
    later: &mut ScriptLines<'a>,
) -> Result<Option<Verb>, AllocError>
    ensures value { IfOk result (λ read. (given : _) → global_before given read later.new.lines ≡
        with_list given sense pattern (joined bytes.now later.old.lines)) }
    ensures number { later.new.number + length later.new.lines ≡ later.old.number + length later.old.lines }
    ensures later { length later.new.lines ≤ length later.old.lines }
{
    list_after_pattern(alloc, bytes, later).map(|list| listing(sense, pattern, list))
}

/// A global command with this list, where it can be read.
fn listing(sense: Sense, pattern: Option<Pattern>, list: Option<Vec<Command>>) -> Option<Verb>
    ensures value { (given : _) (left : _) → global_before given result left ≡
        listed_before given sense pattern (option_map (λ cs. cs.items) list) left }
{
    match list {
        Some(list) => Some(Verb::Global {
            sense,
            pattern,
            list,
        }),
        None => None,
    }
}

/// The commands of the list that begins with what is left of a line.
fn list_after_pattern<'a>(
    alloc: Global,
    bytes: &'a [u8],
    later: &mut ScriptLines<'a>,
) -> Result<Option<Vec<Command>>, AllocError>
    ensures value { IfOk result (λ read. (given : _) (which : _) (pattern : _) →
        listed_before given which pattern (option_map (λ cs. cs.items) read) later.new.lines ≡
        with_list given which pattern (joined bytes.now later.old.lines)) }
    ensures number { later.new.number + length later.new.lines ≡ later.old.number + length later.old.lines }
    ensures later { length later.new.lines ≤ length later.old.lines }
{
    let joined = joined(alloc, bytes, later)?;
    list_of(alloc, joined.as_slice())
}

/// The list that begins with what is left of a line, as whole lines: a backslash at a line's end joins the next one to it.
pub fn joined<'a>(
    alloc: Global,
    bytes: &'a [u8],
    later: &mut ScriptLines<'a>,
) -> Result<Bytes, AllocError>
    ensures value { IfOk result (λ list. (list, later.new.lines) ≡ joined bytes.now later.old.lines) }
    ensures number { later.new.number + length later.new.lines ≡ later.old.number + length later.old.lines }
    ensures later { length later.new.lines ≤ length later.old.lines }
{
    let mut list = Bytes::new(alloc);
    let mut line = bytes;
    'lines: while goes_on(line) {
        list.extend_from_slice(&line[..line.len() - 1])?;
        list.push(b'\n')?;
        match later.next() {
            Some(next) => line = next,
            None => return Ok(list),
        }
    }
    list.extend_from_slice(line)?;
    list.push(b'\n')?;
    Ok(list)
}

/// Whether the line ends in an odd number of backslashes.
fn goes_on(line: &[u8]) -> bool
    ensures value { result ≡ goes_on line.now }
{
    let mut odd = false;
    'bytes: for byte in line {
        odd = *byte == b'\\' && !odd;
    }
    odd
}

/// The commands of a list. One line of nothing but blanks is `p`.
fn list_of(alloc: Global, list: &[u8]) -> Result<Option<Vec<Command>>, AllocError>
    ensures value { IfOk result (λ read. optional_commands (option_map (λ cs. cs.items) read) ≡ list_of list.now) }
{
    if is_newline(after_blanks(list)) {
        let mut commands = Vec::new(alloc);
        commands.push(print())?;
        return Ok(Some(commands));
    }
    all_commands(alloc, list)
}

/// An empty line and no more.
pub fn is_newline(bytes: &[u8]) -> bool
    ensures value { result ≡ is_newline bytes.now }
{
    bytes == b"\n".as_slice()
}

/// `p` in a list.
fn print() -> Command
    ensures value { command_value result ≡ print }
{
    Command {
        addresses: Addresses::Without,
        verb: Verb::Write(Form::Plain),
        suffix: None,
        listed: true,
    }
}

/// The commands of a list, each with the lines that belong to it.
fn all_commands(alloc: Global, list: &[u8]) -> Result<Option<Vec<Command>>, AllocError>
    ensures value { IfOk result (λ read. optional_commands (option_map (λ cs. cs.items) read) ≡ all_commands list.now) }
{
    let mut commands = Vec::new(alloc);
    let mut lines = ScriptLines::new(list);
    'commands: while let Some(line) = lines.next() {
        match command_at(alloc, true, line, &mut lines)? {
            Some(command) => commands.push(command)?,
            None => return Ok(None),
        }
    }
    Ok(Some(commands))
}
