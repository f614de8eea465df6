//! Why a need may fail, in a few words after its fault. No clause speaks of them.

use crate::bytes::between;
use crate::commands::{addresses_of, command_of};
use crate::invalid_addresses::address_text;
use crate::patterns::patterns_of;
use crate::sought::{count_of_found, count_of_searches};
use crate::words::quoted;
use cert_check::Place;
use ed_base::{Fault, Letter};
use ed_rules::{KeptState, is_witnessed};
use ed_syntax::{Address, Base, Command, Pattern, Script, Verb, Which, read_script};
use std::alloc::{AllocError, Global};

/// A need that fails at a place of a script by a fault, and what is known there.
#[derive(Drop)]
pub(crate) struct Failed<'a> {
    pub alloc: Global,
    pub script: &'a [u8],
    pub place: Place,
    pub why: Fault,
    pub state: Option<&'a KeptState>,
}

/// How many patterns stand on the line of a command before its own. The first command of a list stands on the line of its global
/// command, after whose patterns its own come.
fn patterns_before(script: &Script, place: Place) -> usize {
    if place.inner != Some(1) {
        return 0;
    }
    let outer = Place {
        command: place.command,
        inner: None,
    };
    match command_of(script, outer) {
        Some(global) => count_of_searches(global).saturating_add(1),
        None => 1,
    }
}

/// What is said of a pattern that no line need match.
fn any_line(alloc: Global) -> Result<String, AllocError> {
    String::from_str(alloc, "no line need match")
}

/// Whether some line is known to match a pattern.
fn is_matched(state: &KeptState, pattern: &Pattern) -> bool {
    let text = pattern.text();
    state.matches().has.has(text) || (state.follows() && is_witnessed(state.facts(), text))
}

/// What is said of a command's own pattern that the lines it takes need not match, or not as often as it wants. That no line at all need
/// match it isn't said where one is known to.
fn unmet_by(alloc: Global, state: &KeptState, command: &Command) -> Result<String, AllocError> {
    match &command.verb {
        Verb::Substitute {
            which: Which::Nth(number),
            ..
        } if number.before() > 0 => {
            let count = u64::from(number.before()).saturating_add(1);
            Ok(format!(in alloc; "no line need have {count} matches of")?)
        }
        Verb::Substitute {
            pattern: Some(pattern),
            ..
        } if is_matched(state, pattern) => {
            String::from_str(alloc, "none of the lines that it takes need match")
        }
        _ => any_line(alloc),
    }
}

/// The pattern that no line need match, where the line at the place has one: that of the first search that need not find a line, or the
/// one after all searches, of which there may have to be several matches on a line.
fn match_text(
    failed: &Failed<'_>,
    script: &Script,
    line: &[u8],
) -> Result<Option<String>, AllocError> {
    let alloc = failed.alloc;
    let (found, unmet) = match (failed.state, command_of(script, failed.place)) {
        (Some(state), Some(command)) => {
            let found = count_of_found(alloc, command, state)?;
            let is_own = found == count_of_searches(command);
            (
                found,
                if is_own {
                    unmet_by(alloc, state, command)?
                } else {
                    any_line(alloc)?
                },
            )
        }
        _ => (0, any_line(alloc)?),
    };
    let index = patterns_before(script, failed.place).saturating_add(found);
    match patterns_of(alloc, line)?.as_slice().get(index) {
        Some(pattern) if pattern.low < pattern.high => {
            let shown = quoted(alloc, between(line, pattern.low, pattern.high))?;
            Ok(Some(format!(in alloc; "{} {}", unmet.as_str(), shown.as_str())?))
        }
        _ => Ok(None),
    }
}

/// The letter of an address that need not mark a line.
fn unsure(state: &KeptState, address: Option<&Address>) -> Option<Letter> {
    match &address?.base {
        Base::Marked(letter) if !state.marks().is_sure(*letter) => Some(*letter),
        _ => None,
    }
}

/// The first letter of a command's addresses that need not mark a line.
fn unsure_letter(state: &KeptState, command: &Command) -> Option<Letter> {
    for address in addresses_of(command) {
        if let Some(letter) = unsure(state, address) {
            return Some(letter);
        }
    }
    None
}

/// Why a replacement can't be used.
fn replacement_text(state: &KeptState, command: &Command) -> &'static str {
    match &command.verb {
        Verb::Substitute {
            replacement: None,
            ..
        } if state.replacements().none => "none need be remembered",
        _ => "it may split a line, which no list does",
    }
}

/// Why a need of a command may fail, by what is known before it.
fn command_text(
    alloc: Global,
    state: &KeptState,
    command: &Command,
    why: Fault,
) -> Result<Option<String>, AllocError> {
    let text = match why {
        Fault::Address => return address_text(alloc, state, command),
        Fault::Mark => match unsure_letter(state, command) {
            Some(letter) => {
                let letter = char::from(letter.byte());
                return Ok(Some(format!(in alloc; "no line need be marked {letter}")?));
            }
            None => return Ok(None),
        },
        Fault::Pattern | Fault::Name => "none need be remembered",
        Fault::Replacement => replacement_text(state, command),
        Fault::Destination => "it may be one of the lines that are moved",
        Fault::Undo => "no change need have been made",
        _ => return Ok(None),
    };
    Ok(Some(String::from_str(alloc, text)?))
}

/// The reason why a need may fail, or none. The line is the one at its place.
pub(crate) fn reason(failed: &Failed<'_>, line: &[u8]) -> Result<Option<String>, AllocError> {
    let (alloc, why) = (failed.alloc, failed.why);
    if why == Fault::Unsaved {
        return Ok(Some(String::from_str(alloc, UNSAVED)?));
    }
    let read = read_script(alloc, failed.script)?;
    if why == Fault::NoMatch {
        return match_text(failed, &read, line);
    }
    match (failed.state, command_of(&read, failed.place)) {
        (Some(state), Some(command)) => command_text(alloc, state, command, why),
        _ => Ok(None),
    }
}

/// Why changes may be lost.
const UNSAVED: &str = "there may be changes that no w has written";
