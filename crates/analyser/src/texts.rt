//! The texts of a script are bytes, since the types of a command in memory hold nothing else: so what is vouched for has a text.

ghost use Rattle.std.specs.Prelude.{◌<◌, All, Some, map, option_map};
ghost use Rattle.ed_syntax.specs.PublicTypes.{address_value, base_value, addresses_value, verb_value, command_value, step_value, steps_value};
ghost use Rattle.ed_rules.specs.Formed.{ChoiceIsBytes, BaseIsBytes, TargetIsBytes, AddressesAreBytes, VerbIsBytes, TextsAreBytes, TextsAreFormed};
ghost use Rattle.analyser.specs.Following.{stated_of};
ghost use Rattle.analyser.specs.Walking.{StepIsBytes};

use ed_base::Bytes;
use ed_rules::Texts;
use ed_syntax::{Address, Addresses, Base, Command, Pattern, Verb};

/// Items of a slice of bytes are bytes.
pub(crate) fn are_bytes(bytes: &[u8])
    ensures bytes { All (λ byte. byte < 256) bytes.now }
{
    let _bytes = bytes;
}

fn pattern_is_bytes(pattern: &Option<Pattern>)
    ensures bytes { ChoiceIsBytes pattern.now }
{
    if let Some(pattern) = pattern {
        are_bytes(pattern.text());
    }
}

pub(crate) fn path_is_bytes(path: &Option<Bytes>)
    ensures bytes { ChoiceIsBytes path.now }
{
    if let Some(path) = path {
        are_bytes(path.as_slice());
    }
}

fn base_is_bytes(base: &Base)
    ensures bytes { BaseIsBytes (base_value base.now) }
{
    match base {
        Base::Forward(pattern) => pattern_is_bytes(pattern),
        Base::Backward(pattern) => pattern_is_bytes(pattern),
        _ => {}
    }
}

fn addresses_are_bytes(addresses: &Addresses)
    ensures bytes { AddressesAreBytes (addresses_value addresses.now) }
{
    match addresses {
        Addresses::Without => {}
        Addresses::One(only) => base_is_bytes(&only.base),
        Addresses::Comma(first, second) => {
            base_is_bytes(&first.base);
            base_is_bytes(&second.base);
        }
        Addresses::Semicolon(first, None) => base_is_bytes(&first.base),
        Addresses::Semicolon(first, Some(second)) => {
            base_is_bytes(&first.base);
            base_is_bytes(&second.base);
        }
    }
}

fn target_is_bytes(target: Option<&Address>)
    ensures bytes { TargetIsBytes (option_map (λ target. address_value target.now) target.entry) }
{
    if let Some(target) = target {
        base_is_bytes(&target.base);
    }
}

fn own_pattern_is_bytes(pattern: Option<&Pattern>)
    ensures bytes { ChoiceIsBytes (option_map (λ pattern. pattern.now) pattern.entry) }
{
    if let Some(pattern) = pattern {
        are_bytes(pattern.text());
    }
}

fn own_path_is_bytes(path: Option<&Bytes>)
    ensures bytes { ChoiceIsBytes (option_map (λ path. path.now) path.entry) }
{
    if let Some(path) = path {
        are_bytes(path.as_slice());
    }
}

fn verb_is_bytes(verb: &Verb)
    ensures bytes { VerbIsBytes (verb_value verb.now) }
{
    let takes = verb.takes();
    target_is_bytes(takes.target);
    own_pattern_is_bytes(takes.pattern);
    own_path_is_bytes(takes.path);
}

fn command_is_bytes(command: &Command)
    ensures bytes { TextsAreBytes (command_value command.now) }
{
    addresses_are_bytes(&command.addresses);
    verb_is_bytes(&command.verb);
}

fn list_is_bytes(list: &[Command])
    ensures bytes { All TextsAreBytes (map command_value list.now) }
{
    for command in list {
        command_is_bytes(command);
    }
}

fn step_is_bytes(command: &Command)
    ensures bytes { StepIsBytes (step_value command.now) }
{
    command_is_bytes(command);
    list_is_bytes(command.list());
}

/// All texts of these commands and of their lists are bytes.
pub(crate) fn steps_are_bytes(commands: &[Command])
    ensures bytes { All StepIsBytes (steps_value commands.now) }
{
    for command in commands {
        step_is_bytes(command);
    }
}

pub(crate) fn paths_are_bytes(paths: &[Bytes])
    ensures bytes { All ChoiceIsBytes (map (λ path. Some path) paths.now) }
{
    for path in paths {
        are_bytes(path.as_slice());
    }
}

/// The patterns of a start rise and are bytes.
pub(crate) fn has_is_formed(has: &Option<Texts>)
    ensures formed { TextsAreFormed (stated_of has.now) }
{
    if let Some(has) = has {
        paths_are_bytes(has.members());
    }
}
