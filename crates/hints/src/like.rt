//! The start that is proposed for a script from a file.

ghost use Rattle.std.specs.Prelude.{◌≡◌, ◌≤◌, ◌↔◌, ◌&&◌, [], length, map, option_map, pos, IfOk, IfSome, IsSome};
ghost use Rattle.std.specs.List.{filter, list_all, list_any};
ghost use Rattle.std.specs.Ordering.{int_eq};
ghost use Rattle.ed_base.specs.Lines.{lines_of};
ghost use Rattle.ed_syntax.specs.PublicScript.{script_value};
ghost use Rattle.ed_syntax.specs.PublicTypes.{address_value, addresses_value, command_value, step_value};
ghost use Rattle.ed_syntax.specs.meaning.Values.{matches};
ghost use Rattle.ed_syntax.specs.reading.Reading.{script_of};
ghost use Rattle.ed_rules.specs.Exact.{is_target_by_number};
ghost use Rattle.ed_rules.specs.LineBounds.{most_lines};
ghost use Rattle.hints.specs.Passing.{IsAllowed, IsVouched};
ghost use Rattle.hints.specs.Like as meaning;
ghost use Rattle.hints.specs.Like.{IsLike, are_numbered, given_within, is_just, is_last, is_one, lines_in, names_line_from, names_lines_from, stateable, takes_by_number, takes_none_by_text};

use crate::commands::pair;
use crate::given::Given;
use crate::narrowing::{is_vouched_beside, start_beside};
use crate::searched::searched;
use crate::starts::copy_of_path;
use crate::widest::widest_of;
use analyser::Start;
use ed_base::{Bytes, count_lines};
use ed_rules::{Texts, some_line_matches};
use ed_syntax::{Address, Addresses, Base, Command, Script, read_script};
use std::alloc::{AllocError, Global};

/// A file from which a start is proposed (`like_start`).
#[derive(Debug, Drop)]
pub struct Like {
    /// The path of the start file, which may be another one; with none the buffer is empty.
    pub path: Option<Bytes>,
    /// Whether a certificate of version 2 is wanted where no pattern has to be stated, too.
    pub patterns: bool,
    /// The file's bytes.
    pub file: Bytes,
}

/// Whether an address, where there is one, begins with a line's number, the current line or the last one.
fn is_by_number(address: Option<&Address>) -> bool
    ensures value { result ≡ is_target_by_number (option_map (λ address. address_value address.now) address.entry) }
{
    let Some(address) = address else {
        return true;
    };
    match &address.base {
        Base::Number(_) | Base::Current | Base::Last => true,
        Base::Marked(_) | Base::Forward(_) | Base::Backward(_) => false,
    }
}

/// Whether an address begins with the number of a line, of those from this number on.
fn names_line_from(least: u32, address: Option<&Address>) -> bool
    ensures value { result ≡ names_line_from least (option_map (λ address. address_value address.now) address.entry) }
{
    let Some(address) = address else {
        return false;
    };
    match &address.base {
        Base::Number(number) => least <= *number,
        _ => false,
    }
}

/// Whether an address is line 1.
fn is_line_one(address: Option<&Address>) -> bool
    ensures value { result ≡ is_just is_one (option_map (λ address. address_value address.now) address.entry) }
{
    let Some(address) = address else {
        return false;
    };
    match &address.base {
        Base::Number(number) => *number == 1 && has_no_offset(address),
        _ => false,
    }
}

/// Whether an address is the last line.
fn is_last_line(address: Option<&Address>) -> bool
    ensures value { result ≡ is_just is_last (option_map (λ address. address_value address.now) address.entry) }
{
    let Some(address) = address else {
        return false;
    };
    match &address.base {
        Base::Last => has_no_offset(address),
        _ => false,
    }
}

fn has_no_offset(address: &Address) -> bool
    ensures value { result ≡ int_eq (address_value address.now).offset (pos 0) }
{
    address.offset == 0
}

/// Whether the addresses before a command name a line by its number, of those from this number on. `1,$` names none: it is all lines.
fn are_numbered(least: u32, addresses: &Addresses) -> bool
    ensures value { result ≡ are_numbered least (addresses_value addresses.now) }
{
    let (first, second) = pair(addresses);
    let all = is_line_one(first) && is_last_line(second);
    (names_line_from(least, first) || names_line_from(least, second)) && !all
}

/// Whether a command takes no line by what it holds, nor by a mark.
fn takes_none_by_text(command: &Command) -> bool
    ensures value { result ≡ takes_none_by_text (step_value command.now) }
{
    let (first, second) = pair(&command.addresses);
    let takes = command.verb.takes();
    is_by_number(first) && is_by_number(second) && is_by_number(takes.target) && !takes.global
}

/// Whether a command names a line by its number, of those from this number on.
fn takes_by_number(least: u32, command: &Command) -> bool
    ensures value { result ≡ takes_by_number least (step_value command.now) }
{
    are_numbered(least, &command.addresses) || names_line_from(least, command.verb.takes().target)
}

/// Whether no command of some takes a line by what it holds, nor by a mark.
fn take_none_by_text(commands: &[Command]) -> bool
    ensures value { result ≡ list_all takes_none_by_text (map step_value commands.now) }
{
    for command in commands {
        if !takes_none_by_text(command) {
            return false;
        }
    }
    true
}

/// Whether some command names a line by its number, of those from this number on.
fn take_by_number(least: u32, commands: &[Command]) -> bool
    ensures value { result ≡ list_any (takes_by_number least) (map step_value commands.now) }
{
    for command in commands {
        if takes_by_number(least, command) {
            return true;
        }
    }
    false
}

/// Whether no command takes a line otherwise than by its number, and some command names one, of those from this number on.
fn names_lines_from(least: u32, script: &Script) -> bool
    ensures value { result ≡ names_lines_from least (script_value script.now) }
{
    let commands = script.commands.as_slice();
    take_none_by_text(commands) && take_by_number(least, commands)
}

/// Whether a script takes lines by their numbers, line 0 and line 1 too, and none otherwise, as `diff -e` writes one: so it is for files with just
/// so many lines. `1,$` takes none by its number.
pub fn is_by_numbers(script: &Script) -> bool
    ensures value { result ≡ meaning.is_by_numbers (script_value script.now) }
{
    names_lines_from(0, script)
}

/// Whether that is so, and one of the lines comes after the first: what a person is told where no file is at hand, since line 0 and line 1 stand
/// for the beginning of whatever file it is.
pub fn names_later_lines(script: &Script) -> bool
    ensures value { result ≡ meaning.names_later_lines (script_value script.now) }
{
    names_lines_from(2, script)
}

/// What is given of the start, with these bounds.
fn given_within(
    alloc: Global,
    like: &Like,
    min: Option<u64>,
    max: Option<u64>,
) -> Result<Given, AllocError>
    ensures value { IfOk result (λ given. given ≡ given_within like.now min max) }
{
    let path = copy_of_path(&like.path)?;
    let has = if like.patterns {
        Some(Texts::none(alloc))
    } else {
        None
    };
    Ok(Given {
        path,
        min,
        max,
        has,
        landmarks: None,
    })
}

/// What is given of the start by a file with so many lines.
pub fn given_like(
    alloc: Global,
    script: &Script,
    like: &Like,
    lines: u64,
) -> Result<Given, AllocError>
    requires lines { lines ≡ lines_in like.now }
    ensures value { IfOk result (λ given. given ≡ meaning.given_like (script_value script.now) like.now) }
{
    if is_by_numbers(script) {
        given_within(alloc, like, Some(lines), Some(lines))
    } else {
        given_within(alloc, like, None, None)
    }
}

/// Those of some patterns that a line of a file matches.
fn matched(alloc: Global, patterns: &[Bytes], file: &[u8]) -> Result<Vec<Bytes>, AllocError>
    ensures value { IfOk result (λ matched. matched.items ≡ filter (λ text. list_any (matches text) (lines_of file.now)) patterns.now) }
{
    let mut matched = Vec::new(alloc);
    'patterns: for pattern in patterns {
        if some_line_matches(alloc, pattern.as_slice(), file)? {
            matched.push(pattern.try_copy()?)?;
        }
    }
    Ok(matched)
}

/// The patterns that may be stated.
fn stateable(alloc: Global, script: &Script, like: &Like) -> Result<Vec<Bytes>, AllocError>
    ensures value { IfOk result (λ patterns. patterns.items ≡ stateable (script_value script.now) like.now) }
{
    if is_by_numbers(script) {
        return Ok(Vec::new(alloc));
    }
    let patterns = searched(alloc, script)?;
    matched(alloc, patterns.members(), like.file.as_slice())
}

/// The start with which a script is vouched for that is proposed from a file, which is one that it allows. Where the script takes lines by their
/// numbers, it has exactly as many lines as the file, and states no pattern. Else it has the fewest lines, so that the script isn't vouched for
/// with one line less, and no limit, and it states just those patterns that are needed, of those that the script's searches are given and that
/// some line of the file matches. None just where the script isn't vouched for with as many lines as the file has and all those patterns.
///
/// The file is searched once for each pattern that the script's searches are given, up to the first line that matches. Besides, what is said of
/// `widest_start` holds.
pub fn like_start(alloc: Global, script: &[u8], like: &Like) -> Result<Option<Start>, AllocError>
    requires few { length (lines_of like.now.file) ≤ most_lines }
    ensures exact { IfOk result (λ found. IsSome found ↔ IsVouched (script_of script.now) (meaning.fullest_like (script_of script.now) like.now)) }
    ensures like { IfOk result (λ found. IfSome found (IsLike (script_of script.now) like.now)) }
{
    let read = read_script(alloc, script)?;
    let min = count_lines(like.file.as_slice()) as u64;
    let given = given_like(alloc, &read, like, min)?;
    let patterns = stateable(alloc, &read, like)?;
    if !is_vouched_beside(alloc, &read, &given, min, patterns.as_slice())? {
        return Ok(None);
    }
    Ok(Some(widest_of(alloc, &read, &given, min, patterns.as_slice())?))
}

/// The start over which a script is judged where none is proposed: with as many lines at least as the file has, and with all patterns that may be
/// stated.
pub fn fullest_like(alloc: Global, script: &[u8], like: &Like) -> Result<Start, AllocError>
    requires few { length (lines_of like.now.file) ≤ most_lines }
    ensures value { IfOk result (λ start. start ≡ meaning.fullest_like (script_of script.now) like.now) }
    ensures allowed { IfOk result IsAllowed }
{
    let read = read_script(alloc, script)?;
    let min = count_lines(like.file.as_slice()) as u64;
    let given = given_like(alloc, &read, like, min)?;
    let patterns = stateable(alloc, &read, like)?;
    start_beside(alloc, &given, min, patterns.as_slice())
}
