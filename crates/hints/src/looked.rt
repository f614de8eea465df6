//! What a command looks for, for which landmarks may be stated.

use crate::commands::{addresses_of, command_of};
use crate::sought::searched_by;
use cert_check::Place;
use ed_syntax::{Address, Addresses, Base, Command, DefaultAddresses, Pattern, Script, Verb};
use std::alloc::{AllocError, Global};

/// A landmark says a number of lines below this one.
const MOST_LINES: u32 = 999_999_999;

/// What a command looks for.
#[derive(Drop)]
pub(crate) struct Looked<'a> {
    /// The patterns of its searches, each once, in the order in which its addresses are evaluated.
    pub searches: Vec<&'a [u8]>,
    /// The pattern of its `s`.
    pub replaced: Option<&'a [u8]>,
    /// The pattern that is remembered before it.
    pub before: Option<&'a [u8]>,
    /// The patterns of searches of commands before it, outside lists, each once.
    pub earlier: Vec<&'a [u8]>,
    /// The number of its line, where that is its only address.
    pub number: Option<u32>,
    /// How many lines above the lines that it finds, or above the current one, its addresses reach, and how many below.
    pub above: u32,
    pub below: u32,
}

/// Whether a command is given a pattern, for a search or for what it does.
fn is_given_pattern(command: &Command) -> bool {
    for address in addresses_of(command) {
        if searched_by(address).is_some() {
            return true;
        }
    }
    match &command.verb {
        Verb::Substitute { .. } => true,
        _ => false,
    }
}

/// Whether some command of a script has a search or is an `s`, in a list too.
pub(crate) fn has_pattern(script: &Script) -> bool {
    for command in script.commands.as_slice() {
        if is_given_pattern(command) {
            return true;
        }
        for listed in command.list() {
            if is_given_pattern(listed) {
                return true;
            }
        }
    }
    false
}

/// The pattern that is remembered after an address.
fn after_search<'a>(
    search: Option<Option<&'a Pattern>>,
    before: Option<&'a [u8]>,
) -> Option<&'a [u8]> {
    match search {
        Some(Some(pattern)) => Some(pattern.text()),
        _ => before,
    }
}

/// The pattern that is remembered after a command, its list aside.
fn after_command<'a>(command: &'a Command, before: Option<&'a [u8]>) -> Option<&'a [u8]> {
    let mut last = before;
    for address in addresses_of(command) {
        last = after_search(searched_by(address), last);
    }
    match command.verb.takes().pattern {
        Some(pattern) => Some(pattern.text()),
        None => last,
    }
}

/// The pattern that is remembered after so many commands of a list.
fn after_listed<'a>(
    list: &'a [Command],
    count: usize,
    before: Option<&'a [u8]>,
) -> Option<&'a [u8]> {
    let mut last = before;
    for (index, command) in list.iter().enumerate() {
        if index < count {
            last = after_command(command, last);
        }
    }
    last
}

/// The pattern that is remembered before a command of a list, or before the command that has the list.
fn within_list<'a>(
    command: &'a Command,
    inner: Option<usize>,
    before: Option<&'a [u8]>,
) -> Option<&'a [u8]> {
    match inner {
        Some(inner) => {
            let count = inner.saturating_sub(1);
            after_listed(command.list(), count, after_command(command, before))
        }
        None => before,
    }
}

/// The pattern that is remembered before the command at a place, as the commands stand in the script.
fn remembered_at(script: &Script, place: Place) -> Option<&[u8]> {
    let mut last = None;
    let number = place.command.saturating_sub(1);
    for (index, command) in script.commands.as_slice().iter().enumerate() {
        if index < number {
            last = after_listed(command.list(), usize::MAX, after_command(command, last));
        } else if index == number {
            last = within_list(command, place.inner, last);
        }
    }
    last
}

/// The number of a command's line, where that is its only address.
fn number_of(command: &Command) -> Option<u32> {
    match &command.addresses {
        Addresses::One(address) => match &address.base {
            Base::Number(number) if address.offset == 0 && *number > 0 => Some(*number),
            _ => None,
        },
        _ => None,
    }
}

/// How far an address is from a line that it searches for, or from the current one, which is so far from such a line itself. None where it is
/// counted from neither.
fn distance_of(address: &Address, current: i128) -> Option<i128> {
    match &address.base {
        Base::Forward(_) | Base::Backward(_) => Some(address.offset),
        Base::Current => Some(current.saturating_add(address.offset)),
        Base::Number(_) | Base::Last | Base::Marked(_) => None,
    }
}

/// Puts in how far an address is.
fn push_distance(
    address: Option<&Address>,
    current: i128,
    found: &mut Vec<i128>,
) -> Result<(), AllocError> {
    if let Some(address) = address {
        if let Some(distance) = distance_of(address, current) {
            found.push(distance)?;
        }
    }
    Ok(())
}

/// How far the addresses of a command are from lines that it searches for, or from the current one. Where it has none, those that stand for
/// them.
fn distances_of(alloc: Global, command: &Command) -> Result<Vec<i128>, AllocError> {
    let mut found = Vec::new(alloc);
    let [first, second, target] = addresses_of(command);
    push_distance(first, 0, &mut found)?;
    let current = match (&command.addresses, found.as_slice()) {
        (Addresses::Semicolon(_, _), [distance, ..]) => *distance,
        _ => 0,
    };
    push_distance(second, current, &mut found)?;
    push_distance(target, current, &mut found)?;
    if let Verb::Move(_) = &command.verb {
        // Below the lines that are moved there has to be another one, unless they go up.
        found.push(1)?;
    }
    match (&command.addresses, command.verb.takes().default) {
        (Addresses::Without, DefaultAddresses::Next | DefaultAddresses::CurrentAndNext) => {
            found.push(1)?;
        }
        _ => {}
    }
    Ok(found)
}

/// The greatest of some distances in a direction, 1 for down and -1 for up; 0 where none is that way, or so great that no landmark says it.
fn farthest(distances: &[i128], direction: i128) -> u32 {
    let mut most: u32 = 0;
    for distance in distances {
        let along = if direction < 0 {
            distance.saturating_neg()
        } else {
            *distance
        };
        match u32::try_from(along) {
            Ok(lines) if lines < MOST_LINES => most = most.max(lines),
            _ => {}
        }
    }
    most
}

/// The patterns that searches of the commands before a place are given, each once, as the commands stand in the script.
fn searched_before(alloc: Global, script: &Script, place: Place) -> Result<Vec<&[u8]>, AllocError> {
    let mut found = Vec::new(alloc);
    let number = place.command.saturating_sub(1);
    for (index, command) in script.commands.as_slice().iter().enumerate() {
        if index >= number {
            break;
        }
        for address in addresses_of(command) {
            if let Some(Some(pattern)) = searched_by(address) {
                push_new(&mut found, pattern.text())?;
            }
        }
    }
    Ok(found)
}

/// What the command at a place looks for. None at the end.
pub(crate) fn looked_at<'a>(
    alloc: Global,
    script: &'a Script,
    place: Place,
) -> Result<Option<Looked<'a>>, AllocError> {
    let Some(command) = command_of(script, place) else {
        return Ok(None);
    };
    let before = remembered_at(script, place);
    let mut last = before;
    let mut searches = Vec::new(alloc);
    for address in addresses_of(command) {
        let search = searched_by(address);
        last = after_search(search, last);
        match (search, last) {
            (Some(_), Some(text)) => push_new(&mut searches, text)?,
            _ => {}
        }
    }
    let distances = distances_of(alloc, command)?;
    let replaced = match &command.verb {
        Verb::Substitute { pattern, .. } => after_search(Some(pattern.as_ref()), last),
        _ => None,
    };
    Ok(Some(Looked {
        searches,
        replaced,
        before,
        earlier: searched_before(alloc, script, place)?,
        number: number_of(command),
        above: farthest(distances.as_slice(), -1),
        below: farthest(distances.as_slice(), 1),
    }))
}

/// Puts a pattern in that isn't there.
fn push_new<'a>(patterns: &mut Vec<&'a [u8]>, text: &'a [u8]) -> Result<(), AllocError> {
    for other in patterns.as_slice() {
        if *other == text {
            return Ok(());
        }
    }
    patterns.push(text)?;
    Ok(())
}
