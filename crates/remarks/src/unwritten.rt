//! Scripts whose changes nobody sees.

ghost use Rattle.std.specs.Prelude.{◌≡◌, map};
ghost use Rattle.std.specs.List.{list_any};
ghost use Rattle.ed_syntax.specs.PublicScript.{script_value};
ghost use Rattle.ed_syntax.specs.PublicTypes.{verb_value, command_value, step_value, alteration_value};
ghost use Rattle.remarks.specs.Steps.{is_change, changes, verb_writes, writes, step_changes, step_writes, before_end, writes_nothing};

use ed_syntax::{Alteration, Command, Script, Verb};

/// Whether lines are changed, and not taken from a file or brought back.
fn is_change(lines: Alteration<'_>) -> bool
    ensures value { result ≡ is_change (alteration_value lines.entry) }
{
    match lines {
        Alteration::Never | Alteration::Loads | Alteration::BringsBack => false,
        _ => true,
    }
}

/// Whether a command changes lines, its list aside.
fn changes(command: &Command) -> bool
    ensures value { result ≡ changes (command_value command.now) }
{
    is_change(command.verb.takes().lines)
}

/// Whether a command by itself writes lines to a file or to the output.
fn verb_writes(verb: &Verb) -> bool
    ensures value { result ≡ verb_writes (verb_value verb.now) }
{
    match verb {
        Verb::Write(_) | Verb::Null | Verb::WriteFile(_) => true,
        Verb::Substitute { form, .. } => form.is_some(),
        _ => false,
    }
}

/// Whether it does, or its suffix does.
fn writes(command: &Command) -> bool
    ensures value { result ≡ writes (command_value command.now) }
{
    verb_writes(&command.verb) || command.suffix.is_some()
}

fn list_changes(list: &[Command]) -> bool
    ensures value { result ≡ list_any changes (map command_value list.now) }
{
    for command in list {
        if changes(command) {
            return true;
        }
    }
    false
}

fn list_writes(list: &[Command]) -> bool
    ensures value { result ≡ list_any writes (map command_value list.now) }
{
    for command in list {
        if writes(command) {
            return true;
        }
    }
    false
}

/// Whether one of the commands changes lines, or one of its list.
fn any_changes(commands: &[Command]) -> bool
    ensures value { result ≡ list_any step_changes (map step_value commands.now) }
{
    for command in commands {
        if changes(command) || list_changes(command.list()) {
            return true;
        }
    }
    false
}

/// Whether one of the commands writes lines, or one of its list.
fn any_writes(commands: &[Command]) -> bool
    ensures value { result ≡ list_any step_writes (map step_value commands.now) }
{
    for command in commands {
        if writes(command) || list_writes(command.list()) {
            return true;
        }
    }
    false
}

/// The commands before the first that ends the run.
pub fn before_end(commands: &[Command]) -> &[Command]
    ensures value { map step_value result.now ≡ before_end (map step_value commands.now) }
{
    for (index, command) in commands.iter().enumerate() {
        if command.verb.takes().ends.is_some() {
            return &commands[..index];
        }
    }
    commands
}

/// Whether a script that can be read to its end changes lines before the run ends, and writes none.
pub fn writes_nothing(script: &Script) -> bool
    ensures value { result ≡ writes_nothing (script_value script.now) }
{
    let commands = before_end(script.commands.as_slice());
    script.fault.is_none() && any_changes(commands) && !any_writes(commands)
}
