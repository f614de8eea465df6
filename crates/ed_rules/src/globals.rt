//! The rules of global commands (XCU ed, "Global Command", "Global Non-Matched Command").

ghost use Rattle.std.specs.Prelude.{◌≡◌, ◌<◌, true, [], Ok, Option, None, IfOk, OnOk, IfSome};
ghost use Rattle.ed_syntax.specs.PublicTypes.{verb_value, command_value, step_value};
ghost use Rattle.ed_syntax.specs.meaning.Verbs.{is_global};
ghost use Rattle.ed_syntax.specs.meaning.States as editor;
ghost use Rattle.ed_syntax.specs.meaning.States.{Kept};
ghost use Rattle.ed_syntax.specs.meaning.Effects.{Outcome, Makes};
ghost use Rattle.ed_syntax.specs.meaning.Globals.{opened};
ghost use Rattle.ed_syntax.specs.meaning.Applied as editing;
ghost use Rattle.ed_syntax.specs.declared.request.Answer.{Answer};
ghost use Rattle.ed_rules.specs.Rules.{step, fault_of};
ghost use Rattle.ed_rules.specs.StandsFor.{StandsFor};
ghost use Rattle.ed_rules.specs.Globals.{line_taken, taken_matches, with_taken, facts_taken, body_entry, only_match, only_line, line_known, facts_known, line_entry, once_entry, list_may_alter, loop_end};
ghost use Rattle.ed_rules.specs.GlobalSoundness.{TurnIsSound, OnceIsSound, EndIsSound};

use crate::laws::globals_are_sound;
use crate::line_facts::LineFacts;
use crate::line_facts::found::{only_one, witnesses};
use crate::pieces::end;
use crate::rules::after;
use crate::state::{State, Undo};
use crate::watch::Watch;
use ed_base::Texts;
use ed_syntax::{Addresses, Command, Sense, Verb};
use std::alloc::AllocError;
use zones::{Name, Zone};

/// Some line is current.
#[tactic(auto, unfolding(crate::specs::Globals::line_taken))]
fn take_line(zone: &mut Zone)
    ensures exact { zone.new ≡ line_taken zone.old }
{
    zone.forget(Name::CURRENT_LINE);
    zone.guard(Name::ZERO, Name::CURRENT_LINE, -1);
    zone.guard(Name::CURRENT_LINE, Name::LAST_LINE, 0);
}

/// The line of a name is current.
#[tactic(auto, unfolding(crate::specs::Globals::line_known))]
fn take_known_line(zone: &mut Zone, v: Name)
    ensures exact { zone.new ≡ line_known v zone.old }
{
    zone.set(Name::CURRENT_LINE, v, 0);
    zone.guard(Name::ZERO, Name::CURRENT_LINE, -1);
    zone.guard(Name::CURRENT_LINE, Name::LAST_LINE, 0);
}

/// A line that `g` takes for a given pattern matches it.
fn gain_taken(verb: &Verb, has: &mut Texts) -> Result<(), AllocError>
    ensures value { OnOk result (has.new ≡ taken_matches (verb_value verb.now) has.old) }
{
    if let Verb::Global {
        sense: Sense::Matching,
        pattern: Some(pattern),
        ..
    } = verb
    {
        has.add(pattern.text())?;
    }
    Ok(())
}

/// Of a given pattern it is known whether the current line, which was taken, matches it.
fn know_taken(verb: &Verb, facts: &mut LineFacts) -> Result<(), AllocError>
    ensures value { OnOk result (facts.new ≡ with_taken (verb_value verb.now) facts.old) }
{
    if let Verb::Global {
        sense,
        pattern: Some(pattern),
        ..
    } = verb
    {
        let matches = match sense {
            Sense::Matching => true,
            Sense::Others => false,
        };
        facts.add_answer(Name::CURRENT_LINE, pattern.text(), matches)?;
    }
    Ok(())
}

/// Whether a command of a list may change the buffer.
fn list_may_alter(command: &Command) -> bool
    ensures value { result ≡ list_may_alter (step_value command.now).list }
{
    for listed in command.list() {
        if listed.verb.takes().alters {
            return true;
        }
    }
    false
}

/// The state of a global command whose needs hold, before its list is run for any line. The invariant has to cover it, so that it
/// stands for the editor also where no line is taken.
pub fn loop_start(command: &Command, state: &State) -> Result<State, AllocError>
    requires global { is_global (command_value command.now).verb ≡ true }
    requires needed { fault_of (step [] (command_value command.now) state.now) ≡ None }
    ensures exact { IfOk result (λ start. step [] (command_value command.now) state.now ≡ Ok start) }

    // It stands for each editor that the command leaves, and also once the list is begun.
    ensures sound { IfOk result (λ start. (e : editor.State) (given : Option Answer) (o : Outcome) (before : Kept) →
        StandsFor state.now e → editing.command e (command_value command.now) given ≡ Ok (Makes o) →
        StandsFor start (opened before o.state)) }
{
    globals_are_sound();
    let watch = Watch::none(state.patterns.allocator());
    after(command, state, &watch)
}

/// The state in which the list of a global command is run for a line, from the invariant: any line may be the current one, if it matches a
/// given pattern, or for `v` doesn't.
pub fn body_entry(command: &Command, invariant: &State) -> Result<State, AllocError>
    requires global { is_global (command_value command.now).verb ≡ true }
    ensures exact { IfOk result (λ entry. entry ≡ body_entry (command_value command.now).verb invariant.now) }
    ensures sound { IfOk result (λ entry. TurnIsSound (command_value command.now).verb invariant.now entry) }
{
    globals_are_sound();
    let mut entry = invariant.try_copy()?;
    take_line(&mut entry.zone);
    if entry.follows {
        entry.facts.forget(Name::CURRENT_LINE);
        know_taken(&command.verb, &mut entry.facts)?;
    } else {
        entry.forget_lines();
    }
    gain_taken(&command.verb, &mut entry.matches.has)?;
    end(&mut entry.zone, &entry.marks);
    Ok(entry)
}

/// The name of the line that is known to match a pattern, as no other does.
fn only_match(pattern: &[u8], invariant: &State) -> Result<Option<Name>, AllocError>
    ensures value { IfOk result (λ line. line ≡ only_match pattern.now invariant.now) }
{
    let mut facts = invariant.facts.try_copy()?;
    facts.keep_spoken(&invariant.marks);
    let alloc = invariant.patterns.allocator();
    let names = witnesses(alloc, &facts, pattern)?;
    Ok(only_one(&invariant.zone, &facts, pattern, names.as_slice()))
}

/// That of the line that a `g` with a given pattern takes, if it goes over all lines.
fn only_line(verb: &Verb, invariant: &State) -> Result<Option<Name>, AllocError>
    ensures value { IfOk result (λ line. line ≡ only_line (verb_value verb.now) invariant.now) }
{
    match verb {
        Verb::Global {
            sense,
            pattern: Some(pattern),
            ..
        } => match sense {
            Sense::Matching => only_match(pattern.text(), invariant),
            Sense::Others => Ok(None),
        },
        _ => Ok(None),
    }
}

/// The state in which the list is run for the line of a name.
fn line_entry(v: Name, verb: &Verb, invariant: &State) -> Result<State, AllocError>
    ensures value { IfOk result (λ entry. entry ≡ line_entry v (verb_value verb.now) invariant.now) }
{
    let mut entry = invariant.try_copy()?;
    if entry.follows {
        let alloc = entry.patterns.allocator();
        entry
            .facts
            .set_to(alloc, &invariant.zone, Name::CURRENT_LINE, v, 0)?;
        know_taken(verb, &mut entry.facts)?;
    } else {
        entry.forget_lines();
    }
    take_known_line(&mut entry.zone, v);
    gain_taken(verb, &mut entry.matches.has)?;
    end(&mut entry.zone, &entry.marks);
    Ok(entry)
}

/// The state in which the list of a `g` is run, where it is known by the invariant that it is run once, and for which line: no addresses
/// are given, and that line alone is known to match a given pattern. What the list leaves then takes the place of the invariant at the end.
pub fn once_entry(command: &Command, invariant: &State) -> Result<Option<State>, AllocError>
    ensures exact { IfOk result (λ entry. entry ≡ once_entry (command_value command.now) invariant.now) }
    ensures sound { IfOk result (λ entry. IfSome entry (OnceIsSound (command_value command.now) invariant.now)) }
{
    globals_are_sound();
    if let Addresses::Without = command.addresses {
        if let Some(v) = only_line(&command.verb, invariant)? {
            return Ok(Some(line_entry(v, &command.verb, invariant)?));
        }
    }
    Ok(None)
}

/// The state after a global command, of the state before it and of the invariant, which stands for the editor before each line is
/// taken and after the last.
pub fn loop_end(command: &Command, before: &State, invariant: &State) -> Result<State, AllocError>
    requires global { is_global (command_value command.now).verb ≡ true }
    ensures exact { IfOk result (λ end. end ≡ loop_end (step_value command.now) before.now invariant.now) }
    ensures sound { IfOk result (λ end. EndIsSound (step_value command.now) before.now invariant.now end) }
{
    globals_are_sound();
    let mut after = invariant.try_copy()?;
    let was = if list_may_alter(command) {
        after.matches.old_has.try_copy_from(&before.matches.has)?;
        Some(before.old()?)
    } else {
        after.matches.old_has = Texts::none(before.patterns.allocator());
        None
    };
    after.undo = Undo {
        nothing: false,
        same: true,
        was,
    };
    end(&mut after.zone, &after.marks);
    Ok(after)
}
