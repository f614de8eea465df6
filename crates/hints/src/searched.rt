//! The patterns that the searches of a script are given.

ghost use Rattle.std.specs.Prelude.{◌≡◌, map, option_map, IfOk, OnOk};
ghost use Rattle.std.specs.List.{flat_map};
ghost use Rattle.ed_syntax.specs.PublicScript.{script_value};
ghost use Rattle.ed_syntax.specs.PublicTypes.{address_value, command_value, step_value};
ghost use Rattle.ed_rules.specs.Texts.{with_texts};
ghost use Rattle.ed_rules.specs.Matched.{sought, sought_at_target, sought_by_step};
ghost use Rattle.hints.specs.Widest.{searched, addable};

use crate::commands::pair;
use crate::sought::searched_by;
use ed_rules::Texts;
use ed_syntax::{Address, Command, Script};
use std::alloc::{AllocError, Global};

/// Puts in the pattern that an address is given, where it is a search.
fn add_address(address: Option<&Address>, patterns: &mut Texts) -> Result<(), AllocError>
    ensures value { OnOk result (patterns.new ≡
        with_texts (sought_at_target (option_map (λ address. address_value address.now) address.entry)) patterns.old) }
{
    match searched_by(address) {
        Some(Some(pattern)) => patterns.add(pattern.text()),
        _ => Ok(()),
    }
}

/// Puts in those that the addresses of a command are given, and its target.
fn add_command(command: &Command, patterns: &mut Texts) -> Result<(), AllocError>
    ensures value { OnOk result (patterns.new ≡ with_texts (sought (command_value command.now)) patterns.old) }
{
    let (first, second) = pair(&command.addresses);
    add_address(first, patterns)?;
    add_address(second, patterns)?;
    add_address(command.verb.takes().target, patterns)
}

/// Puts in those of the commands of a list.
fn add_list(list: &[Command], patterns: &mut Texts) -> Result<(), AllocError>
    ensures value { OnOk result (patterns.new ≡ with_texts (flat_map sought (map command_value list.now)) patterns.old) }
{
    'commands: for command in list {
        add_command(command, patterns)?;
    }
    Ok(())
}

/// Puts in those of a command and its list.
fn add_step(command: &Command, patterns: &mut Texts) -> Result<(), AllocError>
    ensures value { OnOk result (patterns.new ≡ with_texts (sought_by_step (step_value command.now)) patterns.old) }
{
    add_command(command, patterns)?;
    add_list(command.list(), patterns)
}

/// The set of those of a script.
pub(crate) fn searched(alloc: Global, script: &Script) -> Result<Texts, AllocError>
    ensures value { IfOk result (λ patterns. patterns ≡ searched (script_value script.now)) }
{
    let mut patterns = Texts::none(alloc);
    'commands: for command in script.commands.as_slice() {
        add_step(command, &mut patterns)?;
    }
    Ok(patterns)
}

/// The set of those that a start with so many lines at most may state: none where it has no line.
pub(crate) fn addable(
    alloc: Global,
    script: &Script,
    most: Option<u64>,
) -> Result<Texts, AllocError>
    ensures value { IfOk result (λ patterns. patterns ≡ addable (script_value script.now) most) }
{
    match most {
        Some(0) => Ok(Texts::none(alloc)),
        _ => searched(alloc, script),
    }
}
