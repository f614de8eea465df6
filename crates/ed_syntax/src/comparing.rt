//! Whether two commands are the same, and two scripts but for some of their commands.
ghost use Rattle.std.specs.Prelude.{◌≡◌, ◌↔◌, map, length, IsTrue};
ghost use Rattle.ed_syntax.specs.Changed.{BeginAlike, IsChangedAt, IsReadFurther};
ghost use Rattle.ed_syntax.specs.PublicScript.{script_value};
ghost use Rattle.ed_syntax.specs.PublicTypes.{base_value, address_value, optional_address, addresses_value, form_value, suffix_value, verb_value, command_value, step_value, steps_value};

use crate::{Address, Addresses, Base, Command, Form, Part, Pattern, Replacement, Script, Verb};
use ed_base::{Bytes, Text};

fn same_pattern(one: &Option<Pattern>, other: &Option<Pattern>) -> bool
    ensures exact { IsTrue result ↔ (one.now ≡ other.now) }
{
    match (one, other) {
        (None, None) => true,
        (Some(one), Some(other)) => one == other,
        _ => false,
    }
}

fn same_part(one: Part, other: Part) -> bool
    ensures exact { IsTrue result ↔ (one ≡ other) }
{
    match (one, other) {
        (Part::Literal(one), Part::Literal(other)) | (Part::Group(one), Part::Group(other)) => {
            one == other
        }
        (Part::Match, Part::Match) | (Part::Split, Part::Split) => true,
        _ => false,
    }
}

fn same_parts(one: &[Part], other: &[Part]) -> bool
    ensures exact { IsTrue result ↔ (one.now ≡ other.now) }
{
    let mut left = one;
    let mut right = other;
    while let ([first, later @ ..], [second, rest @ ..]) = (left, right) {
        if !same_part(*first, *second) {
            return false;
        }
        left = later;
        right = rest;
    }
    left.is_empty() && right.is_empty()
}

fn same_replacement(one: &Option<Replacement>, other: &Option<Replacement>) -> bool
    ensures exact { IsTrue result ↔ (one.now ≡ other.now) }
{
    match (one, other) {
        (None, None) => true,
        (Some(one), Some(other)) => same_parts(one.parts(), other.parts()),
        _ => false,
    }
}

fn same_text(one: &Text, other: &Text) -> bool
    ensures exact { IsTrue result ↔ (one.now ≡ other.now) }
{
    one.as_bytes() == other.as_bytes()
}

fn same_path(one: &Option<Bytes>, other: &Option<Bytes>) -> bool
    ensures exact { IsTrue result ↔ (one.now ≡ other.now) }
{
    match (one, other) {
        (None, None) => true,
        (Some(one), Some(other)) => one == other,
        _ => false,
    }
}

fn same_suffix(one: Option<Form>, other: Option<Form>) -> bool
    ensures exact { IsTrue result ↔ (suffix_value one ≡ suffix_value other) }
{
    one == other
}

fn same_form(one: Form, other: Form) -> bool
    ensures exact { IsTrue result ↔ (form_value one ≡ form_value other) }
{
    one == other
}

fn same_base(one: &Base, other: &Base) -> bool
    ensures exact { IsTrue result ↔ (base_value one.now ≡ base_value other.now) }
{
    match (one, other) {
        (Base::Number(one), Base::Number(other)) => one == other,
        (Base::Current, Base::Current) | (Base::Last, Base::Last) => true,
        (Base::Marked(one), Base::Marked(other)) => one.place() == other.place(),
        (Base::Forward(one), Base::Forward(other)) | (Base::Backward(one), Base::Backward(other)) =>
            same_pattern(one, other),
        _ => false,
    }
}

fn same_address(one: &Address, other: &Address) -> bool
    ensures exact { IsTrue result ↔ (address_value one.now ≡ address_value other.now) }
{
    one.offset == other.offset && same_base(&one.base, &other.base)
}

fn same_second(one: &Option<Address>, other: &Option<Address>) -> bool
    ensures exact { IsTrue result ↔ (optional_address one.now ≡ optional_address other.now) }
{
    match (one, other) {
        (None, None) => true,
        (Some(one), Some(other)) => same_address(one, other),
        _ => false,
    }
}

fn same_addresses(one: &Addresses, other: &Addresses) -> bool
    ensures exact { IsTrue result ↔ (addresses_value one.now ≡ addresses_value other.now) }
{
    match (one, other) {
        (Addresses::Without, Addresses::Without) => true,
        (Addresses::One(one), Addresses::One(other)) => same_address(one, other),
        (Addresses::Comma(first, second), Addresses::Comma(other, another)) => {
            same_address(first, other) && same_address(second, another)
        }
        (Addresses::Semicolon(first, second), Addresses::Semicolon(other, another)) => {
            same_address(first, other) && same_second(second, another)
        }
        _ => false,
    }
}

/// Whether two commands have one letter and the same parameters, apart from the lists of global commands.
fn same_verb(one: &Verb, other: &Verb) -> bool
    ensures exact { IsTrue result ↔ (verb_value one.now ≡ verb_value other.now) }
{
    match (one, other) {
        (Verb::Append(one), Verb::Append(other))
        | (Verb::Change(one), Verb::Change(other))
        | (Verb::Insert(one), Verb::Insert(other)) => same_text(one, other),
        (Verb::Move(one), Verb::Move(other)) | (Verb::Copy(one), Verb::Copy(other)) => {
            same_address(one, other)
        }
        (
            Verb::Substitute {
                pattern: one,
                replacement,
                which,
                form,
            },
            Verb::Substitute {
                pattern: other,
                replacement: another,
                which: choice,
                form: writes,
            },
        ) => {
            same_pattern(one, other)
                && same_replacement(replacement, another)
                && which == choice
                && same_suffix(*form, *writes)
        }
        (Verb::Mark(one), Verb::Mark(other)) => one.place() == other.place(),
        (Verb::Write(one), Verb::Write(other)) => same_form(*one, *other),
        (Verb::ReadFile(one), Verb::ReadFile(other))
        | (Verb::WriteFile(one), Verb::WriteFile(other))
        | (Verb::Edit(one), Verb::Edit(other))
        | (Verb::EditAnyway(one), Verb::EditAnyway(other))
        | (Verb::FileName(one), Verb::FileName(other)) => same_path(one, other),
        (
            Verb::Global { sense, pattern, .. },
            Verb::Global {
                sense: other,
                pattern: another,
                ..
            },
        ) => sense == other && same_pattern(pattern, another),
        (Verb::Delete, Verb::Delete)
        | (Verb::Join, Verb::Join)
        | (Verb::LineNumber, Verb::LineNumber)
        | (Verb::Null, Verb::Null)
        | (Verb::Undo, Verb::Undo)
        | (Verb::Help, Verb::Help)
        | (Verb::HelpMode, Verb::HelpMode)
        | (Verb::PromptMode, Verb::PromptMode)
        | (Verb::Quit, Verb::Quit)
        | (Verb::QuitAnyway, Verb::QuitAnyway) => true,
        _ => false,
    }
}

/// Whether two commands are the same, apart from the lists of global commands.
fn same_command(one: &Command, other: &Command) -> bool
    ensures exact { IsTrue result ↔ (command_value one.now ≡ command_value other.now) }
{
    one.listed == other.listed
        && same_suffix(one.suffix, other.suffix)
        && same_addresses(&one.addresses, &other.addresses)
        && same_verb(&one.verb, &other.verb)
}

fn same_list(one: &[Command], other: &[Command]) -> bool
    ensures exact { IsTrue result ↔ (map command_value one.now ≡ map command_value other.now) }
{
    let mut left = one;
    let mut right = other;
    while let ([first, later @ ..], [second, rest @ ..]) = (left, right) {
        if !same_command(first, second) {
            return false;
        }
        left = later;
        right = rest;
    }
    left.is_empty() && right.is_empty()
}

fn same_step(one: &Command, other: &Command) -> bool
    ensures exact { IsTrue result ↔ (step_value one.now ≡ step_value other.now) }
{
    same_command(one, other) && same_list(one.list(), other.list())
}

fn same_steps(one: &[Command], other: &[Command]) -> bool
    ensures exact { IsTrue result ↔ (steps_value one.now ≡ steps_value other.now) }
{
    let mut left = one;
    let mut right = other;
    while let ([first, later @ ..], [second, rest @ ..]) = (left, right) {
        if !same_step(first, second) {
            return false;
        }
        left = later;
        right = rest;
    }
    left.is_empty() && right.is_empty()
}

impl Script {
    /// Whether another script begins with the same commands as this one, so many of them.
    pub fn begins_as(&self, new: &Script, before: usize) -> bool
        ensures exact { IsTrue result ↔ BeginAlike before (script_value self.now) (script_value new.now) }
    {
        before <= self.commands.len()
            && before <= new.commands.len()
            && same_steps(&self.commands[..before], &new.commands[..before])
    }

    /// Whether another script is this one but for some commands: after so many that are the same, it has `added` ones in place of
    /// the `removed` ones here, and from there on both are the same again. Each command is looked at once.
    pub fn is_changed_at(&self, new: &Script, before: usize, removed: usize, added: usize) -> bool
        ensures exact { IsTrue result ↔ IsChangedAt before removed added (script_value self.now) (script_value new.now) }
    {
        self.fault.is_some() == new.fault.is_some()
            && self.begins_as(new, before)
            && removed <= self.commands.len() - before
            && added <= new.commands.len() - before
            && same_steps(
                &self.commands[before + removed..],
                &new.commands[before + added..],
            )
    }

    /// Whether another script has all commands of this one, which can't be read to its end. The other one may go on.
    pub fn is_read_further(&self, new: &Script) -> bool
        ensures exact { IsTrue result ↔ IsReadFurther (script_value self.now) (script_value new.now) }
    {
        self.fault.is_some() && self.begins_as(new, self.commands.len())
    }
}
