//! Why a command's addresses may be invalid: they are evaluated as its rule does, up to the first one that isn't surely there.

use crate::commands::pair;
use crate::evaluated::Evaluated;
use ed_rules::KeptState;
use ed_syntax::{Address, Addresses, Base, Command, DefaultAddresses, Taking};
use std::alloc::{AllocError, Global};
use zones::{Name, Zone};

/// How few lines there may be.
fn few_text(alloc: Global, zone: &Zone) -> Result<String, AllocError> {
    let least = zone.least(Name::LAST_LINE, Name::ZERO).unwrap_or(0).max(0);
    let lines = if least == 1 { "line" } else { "lines" };
    if zone.bound(Name::LAST_LINE, Name::ZERO) == Some(least) {
        return Ok(format!(in alloc; "the file has {least} {lines}")?);
    }
    Ok(format!(in alloc; "the file may have as few as {least} {lines}")?)
}

/// Why a line that is there may be none.
fn no_current_text(alloc: Global, zone: &Zone) -> Result<String, AllocError> {
    if zone.is_known(Name::ZERO, Name::LAST_LINE, -1) {
        return String::from_str(alloc, "no line need be the current one");
    }
    few_text(alloc, zone)
}

/// So many lines need not stand before or after a line.
fn beside_text(alloc: Global, count: u128, side: &str, line: &str) -> Result<String, AllocError> {
    if count == 1 {
        return Ok(format!(in alloc; "no line need come {side} {line}")?);
    }
    Ok(format!(in alloc; "fewer than {count} lines may come {side} {line}")?)
}

/// What an offset is counted from.
fn base_text(alloc: Global, base: &Base) -> Result<String, AllocError> {
    match base {
        Base::Current => String::from_str(alloc, "the current one"),
        Base::Marked(letter) => {
            let letter = char::from(letter.byte());
            Ok(format!(in alloc; "the one marked {letter}")?)
        }
        Base::Forward(_) | Base::Backward(_) => String::from_str(alloc, "the one that matches"),
        Base::Last => String::from_str(alloc, "the last one"),
        Base::Number(_) => String::from_str(alloc, "the first one"),
    }
}

/// Why the line that an address names need not be one from `lowest` on, where it was placed.
fn short_text(
    alloc: Global,
    zone: &Zone,
    name: Name,
    address: &Address,
    lowest: i64,
) -> Result<Option<String>, AllocError> {
    let is_low = !zone.is_known(Name::ZERO, name, lowest.saturating_neg());
    if !is_low && zone.is_known(name, Name::LAST_LINE, 0) {
        return Ok(None);
    }
    let line = base_text(alloc, &address.base)?;
    let line = line.as_str();
    let count = address.offset.unsigned_abs();
    let text = match &address.base {
        Base::Number(_) if !is_low => few_text(alloc, zone)?,
        Base::Number(0) if address.offset == 0 => {
            String::from_str(alloc, "line 0 comes before the first one")?
        }
        Base::Last if address.offset <= 0 => few_text(alloc, zone)?,
        _ if address.offset == 0 => no_current_text(alloc, zone)?,
        _ if address.offset < 0 => beside_text(alloc, count, "before", line)?,
        _ => beside_text(alloc, count, "after", line)?,
    };
    Ok(Some(text))
}

/// Places an address, and tells why it need not be in the buffer.
fn placed<'a>(
    alloc: Global,
    known: &mut Evaluated<'a>,
    name: Name,
    address: Option<&'a Address>,
) -> Result<Option<String>, AllocError> {
    match address {
        Some(address) => {
            known.place(name, address)?;
            short_text(alloc, &known.zone, name, address, 0)
        }
        None => Ok(None),
    }
}

/// Why a command that takes lines, whose addresses were placed in the buffer, may have none.
fn range_text(
    alloc: Global,
    zone: &Zone,
    taking: Taking,
    pair: (Option<&Address>, Option<&Address>),
) -> Result<Option<String>, AllocError> {
    let (first, second) = pair;
    let takes_two = matches!(taking, Taking::Lines | Taking::Range | Taking::Whole);
    if takes_two
        && second.is_some()
        && !zone.is_known(Name::FIRST_ADDRESS, Name::SECOND_ADDRESS, 0)
    {
        let text = String::from_str(alloc, "the second one may come before the first")?;
        return Ok(Some(text));
    }
    let (name, lowest) = match (taking, second) {
        (Taking::NoAddress | Taking::Place | Taking::FirstPlace, _) => return Ok(None),
        // There 0 stands for 1, where there is a line.
        (Taking::Lines, _) => return Ok(Some(few_text(alloc, zone)?)),
        (Taking::OneLine, Some(_)) => (Name::SECOND_ADDRESS, second),
        _ => (Name::FIRST_ADDRESS, first),
    };
    match lowest {
        Some(address) => short_text(alloc, zone, name, address, 1),
        None => Ok(None),
    }
}

/// Why an address of a command may be invalid, where this is known of lines.
pub(crate) fn address_text(
    alloc: Global,
    state: &KeptState,
    command: &Command,
) -> Result<Option<String>, AllocError> {
    let takes = command.verb.takes();
    let own = match takes.default {
        // The same line twice is one address: of two, each is known by itself.
        DefaultAddresses::CurrentTwice => DefaultAddresses::Current.addresses(),
        other => other.addresses(),
    };
    let addresses = match &command.addresses {
        Addresses::Without => &own,
        given => given,
    };
    let mut known = Evaluated::before(alloc, state)?;
    let (first, second) = pair(addresses);
    if let Some(text) = placed(alloc, &mut known, Name::FIRST_ADDRESS, first)? {
        return Ok(Some(text));
    }
    if matches!(addresses, Addresses::Semicolon(_, _)) {
        known.go_to(Name::FIRST_ADDRESS)?;
    }
    if let Some(text) = placed(alloc, &mut known, Name::SECOND_ADDRESS, second)? {
        return Ok(Some(text));
    }
    if let Some(text) = placed(alloc, &mut known, Name::TARGET_ADDRESS, takes.target)? {
        return Ok(Some(text));
    }
    match range_text(alloc, &known.zone, takes.taking, (first, second))? {
        None if command.suffix.is_some() => {
            let text = String::from_str(alloc, "no line need be left to write")?;
            Ok(Some(text))
        }
        text => Ok(text),
    }
}
