//! The head of a command: its addresses, its letter with its parameters, and its suffix.
ghost use Rattle.std.specs.Prelude.{◌≡◌, ◌+◌, ◌≤◌, length, Option, Some, None, option_map, IfOk, MatchOption};
ghost use Rattle.ed_syntax.specs.meaning.Verbs.{may_have, may_stand};
ghost use Rattle.ed_syntax.specs.reading.ReadParameters.{place};
ghost use Rattle.ed_syntax.specs.spelling.CommandLetters.{plain_verbs, file_verbs};
ghost use Rattle.ed_syntax.specs.reading.ReadVerbs.{beside_letter, file_verb, target, verb_at};
ghost use Rattle.ed_syntax.specs.reading.ReadCommands.{verb_from, suffix_at, is_over, headed, suffix_with, heading_with, heading_after_addresses};
ghost use Rattle.ed_syntax.specs.PublicTypes.{address_value, addresses_value, suffix_value, verb_value};
ghost use Rattle.ed_syntax.specs.reading.ReadParts.{optional_verb, heading_before};

use crate::addresses::address;
use crate::paths::path;
use crate::quoting::Parsed;
use crate::script_lines::ScriptLines;
use crate::substitution::substitution;
use crate::tokens::{after_blanks, form_of, letter};
use crate::{Address, Addresses, Form, Taking, Verb};
use ed_base::{Bytes, Text};
use std::alloc::{AllocError, Global};

/// What stands on a command's own line after its addresses.
#[derive(Drop)]
pub struct Order {
    pub verb: Verb,
    pub suffix: Option<Form>,
}

/// What stands after the addresses on a command's own line, in a list or outside, with the lines on which its replacement goes on; its
/// text is still empty.
pub fn heading_after_addresses<'a>(
    alloc: Global,
    listed: bool,
    given: &Addresses,
    bytes: &'a [u8],
    later: &mut ScriptLines<'a>,
) -> Result<Option<Order>, AllocError>
    ensures value { IfOk result (λ order. headed later.new.lines (heading_before (addresses_value given.now) order) ≡
        heading_after_addresses listed (addresses_value given.now) bytes.now later.old.lines) }
    ensures number { later.new.number + length later.new.lines ≡ later.old.number + length later.old.lines }
    ensures later { length later.new.lines ≤ length later.old.lines }
{
    match verb_from(alloc, bytes, later)? {
        Some((verb, rest)) => Ok(heading_with(listed, given, verb, rest)),
        None => Ok(None),
    }
}

/// The command may stand here, the addresses before it, and its line is over.
fn heading_with(listed: bool, given: &Addresses, verb: Verb, bytes: &[u8]) -> Option<Order>
    ensures value { heading_before (addresses_value given.now) result ≡
        heading_with listed (addresses_value given.now) bytes.now (verb_value verb) }
{
    suffix_with(listed, given, &verb, bytes).map(|suffix| Order { verb, suffix })
}

/// The suffix of a command that may stand here, and these addresses before it.
fn suffix_with(listed: bool, given: &Addresses, verb: &Verb, bytes: &[u8]) -> Option<Option<Form>>
    ensures value { option_map suffix_value result ≡
        suffix_with listed (addresses_value given.now) (verb_value verb.now) bytes.now }
{
    if may_have(given, verb) && may_stand(listed, verb) {
        suffix_at(verb, bytes)
    } else {
        None
    }
}

/// A command's letter with its parameters; its text is still empty.
fn verb_from<'a>(alloc: Global, bytes: &'a [u8], later: &mut ScriptLines<'a>) -> Parsed<'a, Verb>
    ensures value { IfOk result (λ read. MatchOption read (verb_from bytes.now later.old.lines ≡ None)
        (λ (verb, rest). verb_from bytes.now later.old.lines ≡ Some (verb_value verb, place rest.now later.new.lines))) }
    ensures number { later.new.number + length later.new.lines ≡ later.old.number + length later.old.lines }
    ensures later { length later.new.lines ≤ length later.old.lines }
{
    if let [b's', rest @ ..] = bytes {
        substitution(alloc, rest, later)
    } else {
        verb_at(alloc, bytes)
    }
}

/// A command's letter with parameters that stand on its own line; its text is still empty. Nothing is the null command.
fn verb_at(alloc: Global, bytes: &[u8]) -> Parsed<'_, Verb>
    ensures value { IfOk result (λ read. MatchOption read (verb_at bytes.now ≡ None)
        (λ (verb, rest). verb_at bytes.now ≡ Some (verb_value verb, rest.now))) }
{
    let [byte, rest @ ..] = bytes else {
        return Ok(Some((Verb::Null, bytes)));
    };
    match *byte {
        b'k' => match letter(rest) {
            Some((letter, rest)) => Ok(Some((Verb::Mark(letter), rest))),
            None => Ok(None),
        },
        b'm' => match target(alloc, rest)? {
            Some((target, rest)) => Ok(Some((Verb::Move(target), rest))),
            None => Ok(None),
        },
        b't' => match target(alloc, rest)? {
            Some((target, rest)) => Ok(Some((Verb::Copy(target), rest))),
            None => Ok(None),
        },
        letter => match plain_verb(letter) {
            Some(verb) => Ok(Some((verb, rest))),
            None => file_verb(alloc, letter, rest),
        },
    }
}

/// A command whose letter has no parameters on its line.
fn plain_verb(letter: u8) -> Option<Verb>
    ensures value { optional_verb result ≡ beside_letter letter plain_verbs }
{
    match letter {
        b'a' => Some(Verb::Append(Text::new())),
        b'c' => Some(Verb::Change(Text::new())),
        b'd' => Some(Verb::Delete),
        b'i' => Some(Verb::Insert(Text::new())),
        b'j' => Some(Verb::Join),
        b'l' => Some(Verb::Write(Form::Unambiguous)),
        b'n' => Some(Verb::Write(Form::Numbered)),
        b'p' => Some(Verb::Write(Form::Plain)),
        b'=' => Some(Verb::LineNumber),
        b'u' => Some(Verb::Undo),
        b'h' => Some(Verb::Help),
        b'H' => Some(Verb::HelpMode),
        b'P' => Some(Verb::PromptMode),
        b'q' => Some(Verb::Quit),
        b'Q' => Some(Verb::QuitAnyway),
        _ => None,
    }
}

/// The command on files of a letter, with its path.
fn file_verb(alloc: Global, letter: u8, bytes: &[u8]) -> Parsed<'_, Verb>
    ensures value { IfOk result (λ read. MatchOption read (file_verb letter bytes.now ≡ None)
        (λ (verb, rest). file_verb letter bytes.now ≡ Some (verb_value verb, rest.now))) }
{
    match path(alloc, bytes)? {
        Some(path) => match on_file(letter, path) {
            Some(verb) => Ok(Some((verb, &[]))),
            None => Ok(None),
        },
        None => Ok(None),
    }
}

/// The command on files of a letter, with this path.
fn on_file(letter: u8, path: Option<Bytes>) -> Option<Verb>
    ensures value { optional_verb result ≡ beside_letter letter (file_verbs path) }
{
    match letter {
        b'e' => Some(Verb::Edit(path)),
        b'E' => Some(Verb::EditAnyway(path)),
        b'f' => Some(Verb::FileName(path)),
        b'r' => Some(Verb::ReadFile(path)),
        b'w' => Some(Verb::WriteFile(path)),
        _ => None,
    }
}

/// The target of a command, with blanks before it.
fn target(alloc: Global, bytes: &[u8]) -> Parsed<'_, Address>
    ensures value { IfOk result (λ read. MatchOption read (target bytes.now ≡ None)
        (λ (a, rest). target bytes.now ≡ Some (address_value a, rest.now))) }
{
    match address(alloc, after_blanks(bytes))? {
        Some((found, rest)) => match found {
            Some(address) => Ok(Some((address, rest))),
            None => Ok(None),
        },
        None => Ok(None),
    }
}

/// The end of a command's own line: a suffix, if the command takes one, and blanks.
fn suffix_at(verb: &Verb, bytes: &[u8]) -> Option<Option<Form>>
    ensures value { option_map suffix_value result ≡ suffix_at (verb_value verb.now) bytes.now }
{
    match bytes {
        [letter @ (b'l' | b'n' | b'p'), rest @ ..] if verb.takes().suffix && is_over(rest) => {
            Some(form_of(*letter))
        }
        _ if is_over(bytes) => Some(None),
        _ => None,
    }
}

/// Whether addresses may stand before a command.
fn may_have(given: &Addresses, verb: &Verb) -> bool
    ensures value { result ≡ may_have (addresses_value given.now) (verb_value verb.now) }
{
    matches!(given, Addresses::Without) || verb.takes().taking != Taking::NoAddress
}

/// Whether a command may stand in a list, or as one of the script itself.
fn may_stand(listed: bool, verb: &Verb) -> bool
    ensures value { result ≡ may_stand listed (verb_value verb.now) }
{
    !listed || verb.takes().listed
}

/// Nothing but blanks is left of the line.
fn is_over(bytes: &[u8]) -> bool
    ensures value { result ≡ is_over bytes.now }
{
    after_blanks(bytes).is_empty()
}
