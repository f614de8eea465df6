//! The rules: the state after a command, or the need that fails.

ghost use Rattle.std.specs.Prelude.{◌≡◌, true, [], Ok, Option, None, IfOk, IfErr};
ghost use Rattle.ed_syntax.specs.PublicTypes.{addresses_value, verb_value, suffix_value, command_value};
ghost use Rattle.ed_syntax.specs.meaning.States as editor;
ghost use Rattle.ed_syntax.specs.meaning.Applied as editing;
ghost use Rattle.ed_syntax.specs.declared.request.Answer.{Answer};
ghost use Rattle.ed_rules.specs.Pieces.{with_zone, ended};
ghost use Rattle.ed_syntax.specs.spelling.Readable.{are_lines, enters_lines};
ghost use Rattle.ed_rules.specs.Rules.{taken, effect, suffixed, step_at, step, fault_of};
ghost use Rattle.ed_rules.specs.States.{old_of};
ghost use Rattle.ed_rules.specs.FactsAfter.{facts_ended, facts_left, facts_after};
ghost use Rattle.ed_rules.specs.facts.PrunedFacts.{pruned};
ghost use Rattle.ed_rules.specs.Reaching.{Reaches, ReachesTelling, Comes};
ghost use Rattle.ed_rules.specs.StandsFor.{StandsFor};
ghost use Rattle.ed_rules.specs.Soundness.{IsUnserved, IsDone};
ghost use Rattle.ed_rules.specs.declared.state.State.{State};

use crate::addresses::standing;
use crate::laws::commands_are_sound;
use crate::line_facts::LineFacts;
use crate::pieces::{end, lift};
use crate::state::State;
use crate::watch::Watch;
use ed_base::{Fault, Text};
use ed_syntax::{Addresses, Command, Form, Taking, Verb};
use std::alloc::AllocError;
use zones::Name;

fn text_is_lines(text: &Text)
    ensures lines { are_lines text.now ≡ true }
{
    let _bytes = text.as_bytes();
}

/// What a command enters are lines, since each text holds nothing else.
fn texts_are_lines(verb: &Verb)
    ensures lines { enters_lines (verb_value verb.now) ≡ true }
{
    match verb {
        Verb::Append(text) => text_is_lines(text),
        Verb::Insert(text) => text_is_lines(text),
        Verb::Change(text) => text_is_lines(text),
        _ => {}
    }
}

impl State {
    /// What a command needs of its lines.
    fn take(
        &mut self,
        taking: Taking,
        given: &Addresses,
        addresses: &Addresses,
    ) -> Result<(), Fault>
        ensures exact { Reaches result self.new
            (taken taking (addresses_value given.now) (addresses_value addresses.now) self.old) }
    {
        match taking {
            Taking::NoAddress => Ok(()),
            Taking::Place => {
                self.take_last(addresses)?;
                Ok(())
            }
            Taking::FirstPlace => {
                self.take_last(addresses)?;
                lift(&mut self.zone, Name::FIRST_ADDRESS);
                Ok(())
            }
            Taking::OneLine => {
                self.take_last(addresses)?;
                if self.zone.is_known(Name::ZERO, Name::FIRST_ADDRESS, -1) {
                    Ok(())
                } else {
                    Err(Fault::Address)
                }
            }
            Taking::Lines => {
                if !self
                    .zone
                    .is_known(Name::FIRST_ADDRESS, Name::SECOND_ADDRESS, 0)
                {
                    return Err(Fault::Address);
                }
                self.lift_range(given);
                self.need_range()
            }
            Taking::Range => self.need_range(),
            Taking::Whole => self.need_given_range(given),
        }
    }

    /// What a command does that began with `before`, its lines taken.
    fn act(
        &mut self,
        listed: bool,
        given: &Addresses,
        verb: &Verb,
        before: &State,
    ) -> Result<(), Fault>
        ensures exact { Reaches result self.new
            (effect listed (addresses_value given.now) (verb_value verb.now) before.now self.old) }
    {
        match verb {
            Verb::Append(text) => self.append(listed, before, text.len())?,
            Verb::Insert(text) => self.put_before(listed, before, text.len())?,
            Verb::Change(text) => self.change(listed, before, text.len())?,
            Verb::Delete => self.delete(listed, before)?,
            Verb::Join => self.join_lines(given, listed, before)?,
            Verb::Mark(letter) => {
                if !self.zone.is_known(Name::FIRST_ADDRESS, Name::LAST_LINE, 0) {
                    return Err(Fault::Address);
                }
                self.mark_line(*letter);
            }
            Verb::Write(_) => self.make_current(Name::SECOND_ADDRESS),
            Verb::Null => self.make_current(Name::FIRST_ADDRESS),
            Verb::LineNumber | Verb::Help | Verb::HelpMode | Verb::PromptMode => {}
            Verb::Move(_) => self.move_lines(listed, before)?,
            Verb::Copy(_) => self.copy_lines(listed, before)?,
            Verb::Substitute {
                pattern,
                replacement,
                which,
                ..
            } => self.substitute(listed, pattern, replacement, *which, before)?,
            Verb::ReadFile(path) => self.read_file(listed, path, before)?,
            Verb::WriteFile(path) => self.write_file(given, path)?,
            Verb::Edit(path) => self.edit(path)?,
            Verb::EditAnyway(path) => self.edit_anyway(path)?,
            Verb::FileName(path) => self.name_file(path)?,
            Verb::Global { pattern, .. } => self.use_pattern(pattern)?,
            Verb::Undo => self.undo_change()?,
            Verb::Quit => self.need_saved()?,
            Verb::QuitAnyway => {}
        }
        Ok(())
    }

    /// The same where single lines are followed, and what is known of them then. In a function of its own, since it keeps the buffer with
    /// its lines taken beside the new one.
    fn act_following(
        &mut self,
        watch: &Watch,
        listed: bool,
        given: &Addresses,
        verb: &Verb,
        before: &State,
    ) -> Result<LineFacts, Fault>
        ensures exact { ReachesTelling result self.new
            (effect listed (addresses_value given.now) (verb_value verb.now) before.now self.old)
            (λ r. pruned r.zone (facts_ended r.marks
            (facts_left watch.now listed (addresses_value given.now) (verb_value verb.now) (old_of self.old) r))) }
    {
        let taken = self.old()?;
        self.act(listed, given, verb, before)?;
        let alloc = self.patterns.allocator();
        let mut facts = taken.facts_left(alloc, watch, listed, given, verb, self)?;
        facts.end(&self.marks);
        facts.prune(&self.zone)?;
        Ok(facts)
    }

    /// What a command does, and what is known of single lines then.
    fn act_on_lines(
        &mut self,
        watch: &Watch,
        listed: bool,
        given: &Addresses,
        verb: &Verb,
        before: &State,
    ) -> Result<LineFacts, Fault>
        ensures exact { ReachesTelling result self.new
            (effect listed (addresses_value given.now) (verb_value verb.now) before.now self.old)
            (facts_after watch.now listed (addresses_value given.now) (verb_value verb.now) self.old) }
    {
        if self.follows {
            self.act_following(watch, listed, given, verb, before)
        } else {
            self.act(listed, given, verb, before)?;
            Ok(LineFacts::none(self.patterns.allocator()))
        }
    }

    /// The end of a rule, and the need of a suffix.
    fn finish(&mut self, suffix: &Option<Form>) -> Result<(), Fault>
        ensures exact { Reaches result self.new
            (suffixed (suffix_value suffix.now) (with_zone (ended self.old.marks self.old.zone) self.old)) }
    {
        end(&mut self.zone, &self.marks);
        if suffix.is_none() || self.zone.is_known(Name::ZERO, Name::CURRENT_LINE, -1) {
            Ok(())
        } else {
            Err(Fault::Address)
        }
    }

    /// Goes over to the state after a command with these addresses.
    fn step_at(
        &mut self,
        watch: &Watch,
        addresses: &Addresses,
        command: &Command,
        before: &State,
    ) -> Result<(), Fault>
        requires start { before.now ≡ self.old }
        ensures exact { Reaches result self.new
            (step_at watch.now (addresses_value addresses.now) (command_value command.now) self.old) }
    {
        let takes = command.verb.takes();
        self.evaluate_all(addresses)?;
        self.evaluate_target(takes.target)?;
        self.take(takes.taking, &command.addresses, addresses)?;
        let matches = self.matches_after(
            watch,
            command.listed,
            &command.addresses,
            takes.lines,
            before,
        )?;
        let facts = self.act_on_lines(
            watch,
            command.listed,
            &command.addresses,
            &command.verb,
            before,
        )?;
        self.finish(&command.suffix)?;
        self.matches = matches;
        self.facts = facts;
        Ok(())
    }

    /// Becomes the state after a command in `before`.
    fn step_from(&mut self, watch: &Watch, before: &State, command: &Command) -> Result<(), Fault>
        ensures exact { Reaches result self.new (step watch.now (command_value command.now) before.now) }
    {
        texts_are_lines(&command.verb);
        self.try_copy_from(before)?;
        match &command.addresses {
            Addresses::Without => {
                let own = standing(command.verb.takes().default);
                self.step_at(watch, &own, command, before)
            }
            given => self.step_at(watch, given, command, before),
        }
    }
}

/// Carries out the rule of a command in `before`: where none of its needs fails, `after` becomes the state after it; else it is
/// some state, and the first need that fails is told. After an `Err`, too, it is some state. It is what `needs` and `after` tell one
/// by one.
pub fn outcome_into(
    command: &Command,
    before: &State,
    after: &mut State,
    watch: &Watch,
) -> Result<Option<Fault>, AllocError>
    ensures exact { IfOk result (λ failed. Comes failed after.new (step watch.now (command_value command.now) before.now)) }
{
    match after.step_from(watch, before, command) {
        Ok(()) => Ok(None),
        Err(Fault::Memory) => Err(AllocError),
        Err(fault) => Ok(Some(fault)),
    }
}

/// The first need of a command that fails in a state.
pub fn needs(command: &Command, state: &State) -> Result<Option<Fault>, AllocError>
    ensures exact { IfOk result (λ need. need ≡ fault_of (step [] (command_value command.now) state.now)) }

    // Where none fails, the command meets no fault in any editor that the state stands for, but that of a file whose answer
    // doesn't serve what was asked for.
    ensures sound { IfOk result (λ need. need ≡ None → (e : editor.State) (given : Option Answer) →
        StandsFor state.now e →
        IfErr (editing.command e (command_value command.now) given) (IsUnserved (command_value command.now) e given)) }
{
    commands_are_sound();
    let mut after = state.try_copy()?;
    let watch = Watch::none(state.patterns.allocator());
    outcome_into(command, state, &mut after, &watch)
}

/// The state after a command whose needs hold.
pub fn after(command: &Command, state: &State, watch: &Watch) -> Result<State, AllocError>
    requires needed { fault_of (step watch.now (command_value command.now) state.now) ≡ None }
    ensures exact { IfOk result (λ after. step watch.now (command_value command.now) state.now ≡ Ok after) }

    // Of any editor that the state stands for, and whatever it is answered: the command meets no fault but that of a file, it
    // asks to write only what its rule tells, and the result stands for what it leaves.
    ensures sound { IfOk result (λ after. (e : editor.State) (given : Option Answer) → StandsFor state.now e →
        IsDone (command_value command.now) state.now after e given (editing.command e (command_value command.now) given)) }
{
    commands_are_sound();
    let mut after = state.try_copy()?;
    match after.step_from(watch, state, command) {
        Ok(()) => Ok(after),
        Err(_) => Err(AllocError),
    }
}
