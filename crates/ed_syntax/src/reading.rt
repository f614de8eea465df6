//! Reads a script: its commands up to the first that can't be read.
ghost use Rattle.std.specs.Prelude.{◌≡◌, ◌+◌, ◌≤◌, length, IfOk};
ghost use Rattle.ed_syntax.specs.reading.Reading.{step_after_addresses, step_at, script_of};
ghost use Rattle.ed_syntax.specs.PublicTypes.{addresses_value};
ghost use Rattle.ed_syntax.specs.PublicScript.{script_value};
ghost use Rattle.ed_syntax.specs.reading.ReadParts.{step_before};

use crate::addresses::addresses;
use crate::globals::{global_after_addresses, sense_at};
use crate::script_lines::ScriptLines;
use crate::single::command_after_addresses;
use crate::{Addresses, Command, Script};
use std::alloc::{AllocError, Global};

/// Reads a script. A command that can't be read ends it: what stands after isn't looked at.
pub fn read_script(alloc: Global, bytes: &[u8]) -> Result<Script, AllocError>
    ensures value { IfOk result (λ script. script_value script ≡ script_of bytes.now) }
{
    let mut commands = Vec::new(alloc);
    let mut lines = ScriptLines::new(bytes);
    'commands: while let Some(line) = lines.next() {
        let number = lines.number();
        match read_step(alloc, line, &mut lines)? {
            Some(command) => commands.push(command)?,
            None => {
                return Ok(Script {
                    commands,
                    fault: Some(number),
                });
            }
        }
    }
    Ok(Script {
        commands,
        fault: None,
    })
}

/// The command that begins on this line, with its list. A replacement, a text and a list go on in the lines after it.
pub fn read_step<'a>(
    alloc: Global,
    line: &'a [u8],
    later: &mut ScriptLines<'a>,
) -> Result<Option<Command>, AllocError>
    ensures value { IfOk result (λ c. step_before c later.new.lines ≡ step_at line.now later.old.lines) }
    ensures number { later.new.number + length later.new.lines ≡ later.old.number + length later.old.lines }
    ensures later { length later.new.lines ≤ length later.old.lines }
{
    match addresses(alloc, line)? {
        Some((given, rest)) => step_after_addresses(alloc, given, rest, later),
        None => Ok(None),
    }
}

/// What stands after the addresses of a command.
fn step_after_addresses<'a>(
    alloc: Global,
    addresses: Addresses,
    bytes: &'a [u8],
    later: &mut ScriptLines<'a>,
) -> Result<Option<Command>, AllocError>
    ensures value { IfOk result (λ c. step_before c later.new.lines ≡
        step_after_addresses (addresses_value addresses) bytes.now later.old.lines) }
    ensures number { later.new.number + length later.new.lines ≡ later.old.number + length later.old.lines }
    ensures later { length later.new.lines ≤ length later.old.lines }
{
    match sense_at(bytes) {
        Some((sense, rest)) => global_after_addresses(alloc, addresses, sense, rest, later),
        None => command_after_addresses(alloc, false, addresses, bytes, later),
    }
}
