//! The commands of a script, and where they stand.

ghost use Rattle.std.specs.Prelude.{◌≡◌, option_map};
ghost use Rattle.ed_syntax.specs.PublicScript.{script_value};
ghost use Rattle.ed_syntax.specs.PublicTypes.{address_value, addresses_value, command_value};
ghost use Rattle.hints.specs.Sought.{first_of, second_of, command_at};

use crate::bytes::between;
use cert_check::Place;
use ed_base::next_line;
use ed_syntax::{Address, Addresses, Command, Script, Span, list_places, places};
use std::alloc::{AllocError, Global};

/// Where a command stands, by the places of all; commands count from 1.
pub(crate) fn span_in(spans: &[Span], number: usize) -> Option<Span> {
    spans.get(number.checked_sub(1)?).copied()
}

/// Where a command of a script stands. None where the script has no such command, readable or not.
pub(crate) fn span_of(
    alloc: Global,
    script: &[u8],
    number: usize,
) -> Result<Option<Span>, AllocError> {
    Ok(span_in(places(alloc, script)?.as_slice(), number))
}

/// The bytes of a command without the newline after its last line.
pub(crate) fn command_at(script: &[u8], span: Span) -> &[u8] {
    without_newline(between(script, span.low, span.high))
}

/// The bytes without a newline at their end.
pub(crate) fn without_newline(bytes: &[u8]) -> &[u8] {
    match bytes {
        [front @ .., b'\n'] => front,
        _ => bytes,
    }
}

/// The first of some lines, without its newline.
pub(crate) fn first_line(bytes: &[u8]) -> &[u8] {
    match next_line(bytes) {
        Some((line, _)) => line,
        None => bytes,
    }
}

/// The bytes after the first of some lines.
fn after_line(bytes: &[u8]) -> &[u8] {
    match next_line(bytes) {
        Some((_, rest)) => rest,
        None => bytes,
    }
}

/// The first line alone of those where a command stands.
pub(crate) fn line_of_span(script: &[u8], span: Span) -> Span {
    let others = after_line(between(script, span.low, span.high)).len();
    Span {
        high: span.high.saturating_sub(others),
        ..span
    }
}

/// The command at a place of a script, also one of a list.
pub(crate) fn command_of(script: &Script, place: Place) -> Option<&Command>
    ensures value { option_map (λ command. command_value command.now) result ≡ command_at (script_value script.now) place }
{
    let index = place.command.saturating_sub(1);
    let command = script.commands.as_slice().get(index)?;
    match place.inner {
        Some(inner) => command.list().get(inner.saturating_sub(1)),
        None => Some(command),
    }
}

/// The two addresses of a command, of which one may be missing.
pub(crate) fn pair(addresses: &Addresses) -> (Option<&Address>, Option<&Address>)
    ensures first { option_map (λ address. address_value address.now) result.0 ≡ first_of (addresses_value addresses.now) }
    ensures second { option_map (λ address. address_value address.now) result.1 ≡ second_of (addresses_value addresses.now) }
{
    match addresses {
        Addresses::Without => (None, None),
        Addresses::One(only) => (Some(only), None),
        Addresses::Comma(first, second) => (Some(first), Some(second)),
        Addresses::Semicolon(first, second) => (Some(first), second.as_ref()),
    }
}

/// The addresses of a command in the order in which they are evaluated, the target last. Each may be missing.
pub(crate) fn addresses_of(command: &Command) -> [Option<&Address>; 3] {
    let (first, second) = pair(&command.addresses);
    [first, second, command.verb.takes().target]
}

/// Where the lines of a command of a list stand in the script, whose global command has this span. A command that begins amid the global
/// command's own line has that line.
fn lines_in_list(
    alloc: Global,
    script: &[u8],
    span: Span,
    inner: usize,
) -> Result<Span, AllocError> {
    let listed = list_places(alloc, between(script, span.low, span.high))?;
    match span_in(listed.as_slice(), inner) {
        Some(listed) if listed.line > 1 => Ok(Span {
            line: span.line.saturating_add(listed.line - 1),
            low: span.low.saturating_add(listed.low),
            high: span.low.saturating_add(listed.high),
        }),
        _ => Ok(span),
    }
}

/// Where the line stands at a place of a script, also one of a list; at the end there is none.
pub(crate) fn line_at(
    alloc: Global,
    script: &[u8],
    place: Place,
) -> Result<Option<Span>, AllocError> {
    let Some(span) = span_of(alloc, script, place.command)? else {
        return Ok(None);
    };
    let lines = match place.inner {
        Some(inner) => lines_in_list(alloc, script, span, inner)?,
        None => span,
    };
    Ok(Some(line_of_span(script, lines)))
}

/// The last command of a script, where all of it can be read.
pub(crate) fn last_command(script: &Script) -> Option<&Command> {
    match script.fault {
        Some(_) => None,
        None => script.commands.as_slice().last(),
    }
}
