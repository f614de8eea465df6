//! Which letters a script names: those with which it marks lines and looks for them.
ghost use Rattle.std.specs.Prelude.{◌≡◌, map, option_map};
ghost use Rattle.std.specs.List.{list_any};
ghost use Rattle.ed_syntax.specs.PublicScript.{script_value};
ghost use Rattle.ed_syntax.specs.PublicTypes.{base_value, address_value, addresses_value, verb_value, command_value, step_value, steps_value};
ghost use Rattle.ed_syntax.specs.meaning.Erasure.{base_names, addresses_name, target_names, marks_with, command_names, step_names, script_names};

use crate::{Address, Addresses, Base, Command, Script, Verb};
use ed_base::Letter;

fn base_names(base: &Base, letter: Letter) -> bool
    ensures value { result ≡ base_names letter (base_value base.now) }
{
    match base {
        Base::Marked(own) => own.place() == letter.place(),
        _ => false,
    }
}

fn addresses_name(addresses: &Addresses, letter: Letter) -> bool
    ensures value { result ≡ addresses_name letter (addresses_value addresses.now) }
{
    match addresses {
        Addresses::Without => false,
        Addresses::One(only) => base_names(&only.base, letter),
        Addresses::Comma(first, second) => {
            base_names(&first.base, letter) || base_names(&second.base, letter)
        }
        Addresses::Semicolon(first, None) => base_names(&first.base, letter),
        Addresses::Semicolon(first, Some(second)) => {
            base_names(&first.base, letter) || base_names(&second.base, letter)
        }
    }
}

fn target_names(target: Option<&Address>, letter: Letter) -> bool
    ensures value { result ≡ target_names letter (option_map (λ target. address_value target.now) target.entry) }
{
    match target {
        Some(target) => base_names(&target.base, letter),
        None => false,
    }
}

fn marks_with(verb: &Verb, letter: Letter) -> bool
    ensures value { result ≡ marks_with letter (verb_value verb.now) }
{
    match verb {
        Verb::Mark(own) => own.place() == letter.place(),
        _ => false,
    }
}

fn command_names(command: &Command, letter: Letter) -> bool
    ensures value { result ≡ command_names letter (command_value command.now) }
{
    addresses_name(&command.addresses, letter)
        || target_names(command.verb.takes().target, letter)
        || marks_with(&command.verb, letter)
}

fn list_names(list: &[Command], letter: Letter) -> bool
    ensures value { result ≡ list_any (command_names letter) (map command_value list.now) }
{
    for command in list {
        if command_names(command, letter) {
            return true;
        }
    }
    false
}

fn step_names(command: &Command, letter: Letter) -> bool
    ensures value { result ≡ step_names letter (step_value command.now) }
{
    command_names(command, letter) || list_names(command.list(), letter)
}

impl Script {
    /// Whether it marks a line with this letter or looks for it. One that doesn't runs in the same way whichever line the letter marks.
    pub fn names(&self, letter: Letter) -> bool
        ensures value { result ≡ script_names letter (script_value self.now) }
    {
        for command in self.commands.as_slice() {
            if step_names(command, letter) {
                return true;
            }
        }
        false
    }
}
