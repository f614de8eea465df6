//! The patterns that are watched for: a script's searches look for them, or its start says that some line matches them; where single lines
//! are followed also those that its other commands ask for.

ghost use Rattle.std.specs.Prelude.{◌≡◌, [], map, option_map, true, false, IfOk, OnOk};
ghost use Rattle.std.specs.List.{flat_map};
ghost use Rattle.ed_syntax.specs.PublicScript.{script_value};
ghost use Rattle.ed_syntax.specs.PublicTypes.{base_value, address_value, addresses_value, command_value, step_value};
ghost use Rattle.ed_rules.specs.Texts.{with_texts};
ghost use Rattle.ed_rules.specs.Matched.{gained, sought_at, sought_by, sought_at_target, sought, asked_for, given_by, given_by_step, watched};

use crate::matched::some_line_matches;
use ed_base::{Text, Texts};
use ed_syntax::{Address, Addresses, Base, Command, Pattern, Script};
use std::alloc::{AllocError, Global};
use std::marker::Model;

/// The watched patterns, by their texts.
#[derive(Debug, Drop)]
pub struct Watch {
    patterns: Texts,
}

impl Model for Watch {
    ghost use Rattle.std.specs.Prelude.{ℕ, List};

    ghost Value = { List (List ℕ) };

    ghost view = { λ watch. watch.patterns };
}

/// The pattern that a search is given.
fn add_base(base: &Base, patterns: &mut Texts) -> Result<(), AllocError>
    ensures value { OnOk result (patterns.new ≡ with_texts (sought_at (base_value base.now)) patterns.old) }
{
    match base {
        Base::Forward(Some(pattern)) => patterns.add(pattern.text()),
        Base::Backward(Some(pattern)) => patterns.add(pattern.text()),
        _ => Ok(()),
    }
}

fn add_addresses(addresses: &Addresses, patterns: &mut Texts) -> Result<(), AllocError>
    ensures value { OnOk result (patterns.new ≡ with_texts (sought_by (addresses_value addresses.now)) patterns.old) }
{
    match addresses {
        Addresses::Without => Ok(()),
        Addresses::One(only) => add_base(&only.base, patterns),
        Addresses::Comma(first, second) => {
            add_base(&first.base, patterns)?;
            add_base(&second.base, patterns)
        }
        Addresses::Semicolon(first, None) => add_base(&first.base, patterns),
        Addresses::Semicolon(first, Some(second)) => {
            add_base(&first.base, patterns)?;
            add_base(&second.base, patterns)
        }
    }
}

/// A target is searched for too, where it is given by a search.
fn add_target(target: Option<&Address>, patterns: &mut Texts) -> Result<(), AllocError>
    ensures value { OnOk result (patterns.new ≡
        with_texts (sought_at_target (option_map (λ target. address_value target.now) target.entry)) patterns.old) }
{
    match target {
        Some(target) => add_base(&target.base, patterns),
        None => Ok(()),
    }
}

/// Those given in the searches of a command.
fn add_sought(command: &Command, patterns: &mut Texts) -> Result<(), AllocError>
    ensures value { OnOk result (patterns.new ≡ with_texts (sought (command_value command.now)) patterns.old) }
{
    add_addresses(&command.addresses, patterns)?;
    add_target(command.verb.takes().target, patterns)
}

/// The pattern that `s`, `g` or `v` is given.
fn add_asked(pattern: Option<&Pattern>, patterns: &mut Texts) -> Result<(), AllocError>
    ensures value { OnOk result (patterns.new ≡
        with_texts (asked_for (option_map (λ pattern. pattern.now) pattern.entry)) patterns.old) }
{
    match pattern {
        Some(pattern) => patterns.add(pattern.text()),
        None => Ok(()),
    }
}

/// Those that a command gives.
fn add_command(follows: bool, command: &Command, patterns: &mut Texts) -> Result<(), AllocError>
    ensures value { OnOk result (patterns.new ≡ with_texts (given_by follows (command_value command.now)) patterns.old) }
{
    add_sought(command, patterns)?;
    if follows {
        add_asked(command.verb.takes().pattern, patterns)
    } else {
        Ok(())
    }
}

fn add_list(follows: bool, list: &[Command], patterns: &mut Texts) -> Result<(), AllocError>
    ensures value { OnOk result (patterns.new ≡ with_texts (flat_map (given_by follows) (map command_value list.now)) patterns.old) }
{
    for command in list {
        add_command(follows, command, patterns)?;
    }
    Ok(())
}

fn add_step(follows: bool, command: &Command, patterns: &mut Texts) -> Result<(), AllocError>
    ensures value { OnOk result (patterns.new ≡ with_texts (given_by_step follows (step_value command.now)) patterns.old) }
{
    add_command(follows, command, patterns)?;
    add_list(follows, command.list(), patterns)
}

impl Watch {
    fn given(follows: bool, script: &Script, has: &Texts) -> Result<Watch, AllocError>
        ensures value { IfOk result (λ watch. watch ≡ watched follows (script_value script.now) has.now) }
    {
        let mut patterns = has.try_copy()?;
        for command in script.commands.as_slice() {
            add_step(follows, command, &mut patterns)?;
        }
        Ok(Watch { patterns })
    }

    /// The patterns watched in a script, of whose start some lines match these: these, and those given in its searches.
    pub fn of(script: &Script, has: &Texts) -> Result<Watch, AllocError>
        ensures value { IfOk result (λ watch. watch ≡ watched false (script_value script.now) has.now) }
    {
        Watch::given(false, script, has)
    }

    /// The same where single lines are followed: also those that `s`, `g` and `v` are given.
    pub fn of_lines(script: &Script, has: &Texts) -> Result<Watch, AllocError>
        ensures value { IfOk result (λ watch. watch ≡ watched true (script_value script.now) has.now) }
    {
        Watch::given(true, script, has)
    }

    /// No pattern.
    pub fn none(alloc: Global) -> Watch
        ensures value { result ≡ [] }
    {
        Watch {
            patterns: Texts::none(alloc),
        }
    }

    /// The watched patterns that an entered line matches.
    pub(crate) fn gained(&self, entered: &Text) -> Result<Texts, AllocError>
        ensures value { IfOk result (λ some. some ≡ gained self.now entered.now) }
    {
        let alloc = self.patterns.allocator();
        let mut some = Vec::new(alloc);
        for text in self.patterns.members() {
            if some_line_matches(alloc, text.as_slice(), entered.as_bytes())? {
                some.push(text.try_copy()?)?;
            }
        }
        Ok(Texts::of(some))
    }
}
