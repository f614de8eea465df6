//! Patterns that a start has to state, as a script alone shows.

ghost use Rattle.std.specs.Prelude.{◌≡◌, false, None, IfOk, IsTrue};
ghost use Rattle.ed_syntax.specs.PublicScript.{script_value};
ghost use Rattle.ed_syntax.specs.PublicTypes.{addresses_value, alteration_value, base_value, step_value};
ghost use Rattle.bre_parse.specs.Always.{text_is_always};
ghost use Rattle.ed_rules.specs.Texts.{is_member};
ghost use Rattle.analyser.specs.declared.analysis.Start.{Start};
ghost use Rattle.analyser.specs.Following.{stated_of};
ghost use Rattle.analyser.specs.Judged.{IsVouched};
ghost use Rattle.analyser.specs.Wanted.{brings_none, enters_match, seeks_at, seeks_first};

use bre_parse::Bre;
use bre_parse::fault::BreFault;
use ed_rules::some_line_matches;
use ed_syntax::{Addresses, Alteration, Base, Command, Script};
use std::alloc::{AllocError, Global};

/// Whether an address searches for a pattern, which it is given.
fn seeks_at(pattern: &[u8], base: &Base) -> bool
    ensures value { result ≡ seeks_at pattern.now (base_value base.now) }
{
    match base {
        Base::Forward(Some(given)) => given.text() == pattern,
        Base::Backward(Some(given)) => given.text() == pattern,
        _ => false,
    }
}

/// Whether the first address of a command does.
fn seeks_first(pattern: &[u8], addresses: &Addresses) -> bool
    ensures value { result ≡ seeks_first pattern.now (addresses_value addresses.now) }
{
    match addresses {
        Addresses::Without => false,
        Addresses::One(first) => seeks_at(pattern, &first.base),
        Addresses::Comma(first, _) => seeks_at(pattern, &first.base),
        Addresses::Semicolon(first, _) => seeks_at(pattern, &first.base),
    }
}

/// Whether a line that is entered matches a pattern.
fn enters_match(alloc: Global, pattern: &[u8], lines: Alteration<'_>) -> Result<bool, AllocError>
    ensures value { IfOk result (λ yes. yes ≡ enters_match pattern.now (alteration_value lines.entry)) }
{
    match lines {
        Alteration::Enters(text) => some_line_matches(alloc, pattern, text.as_bytes()),
        Alteration::Replaces(text) => some_line_matches(alloc, pattern, text.as_bytes()),
        _ => Ok(false),
    }
}

/// Whether a command has no list, and enters no line that matches a pattern.
fn brings_none(alloc: Global, pattern: &[u8], command: &Command) -> Result<bool, AllocError>
    ensures value { IfOk result (λ yes. yes ≡ brings_none pattern.now (step_value command.now)) }
{
    let takes = command.verb.takes();
    if takes.global {
        return Ok(false);
    }
    Ok(!enters_match(alloc, pattern, takes.lines)?)
}

/// Whether every line matches a pattern.
fn is_always(alloc: Global, pattern: &[u8]) -> Result<bool, AllocError>
    ensures value { IfOk result (λ yes. yes ≡ text_is_always pattern.now) }
{
    match Bre::read(alloc, pattern) {
        Ok(bre) => Ok(bre.always()),
        Err(BreFault::Memory) => Err(AllocError),
        Err(_) => Ok(false),
    }
}

/// Whether a script is seen not to be vouched for over any start without landmarks that doesn't state a pattern: a command searches for it
/// first of all, and none before it may bring a line that matches. It goes through the script once, by what the commands say alone.
pub fn wants(alloc: Global, script: &Script, pattern: &[u8]) -> Result<bool, AllocError>
    ensures sound { IfOk result (λ yes. IsTrue yes → (start : Start) → start.landmarks ≡ None → is_member (stated_of start.has) pattern.now ≡ false →
        ¬ IsVouched (script_value script.now) start) }
{
    if is_always(alloc, pattern)? {
        return Ok(false);
    }
    'commands: for command in script.commands.as_slice() {
        if seeks_first(pattern, &command.addresses) {
            return Ok(true);
        }
        if !brings_none(alloc, pattern, command)? || command.verb.takes().ends.is_some() {
            return Ok(false);
        }
    }
    Ok(false)
}
