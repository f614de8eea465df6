//! What a run that follows single lines knows of them after a command.

ghost use Rattle.std.specs.Prelude.{◌≡◌, [], IfOk};
ghost use Rattle.zones.specs.Name as name;
ghost use Rattle.ed_rules.specs.facts.Facts.{at};
ghost use Rattle.ed_rules.specs.facts.EditedFacts.{edit_of, reading, copying};
ghost use Rattle.ed_rules.specs.facts.NewLines.{fresh_of, fresh_if};
ghost use Rattle.ed_rules.specs.Matching.{joining_given};
ghost use Rattle.ed_syntax.specs.PublicTypes.{addresses_value, verb_value};
ghost use Rattle.ed_rules.specs.FactsAfter.{facts_ended, facts_as, facts_inserted, facts_edited, facts_appended, facts_put_before, facts_changed, facts_maybe_joined, facts_joined, facts_moved, facts_spared, line_left, facts_rewritten, facts_substituted, facts_left};

use crate::following::only_pattern;
use crate::line_facts::LineFacts;
use crate::line_facts::edited::Gap;
use crate::line_facts::new_lines::NewLines;
use crate::line_facts::rewritten::RewrittenLine;
use crate::marks::Marks;
use crate::matching::{Certainty, joining_given};
use crate::order::facts_of_both;
use crate::state::{Old, State};
use crate::watch::Watch;
use ed_base::{Letter, Text, Texts};
use ed_syntax::{Addresses, Verb};
use std::alloc::{AllocError, Global};
use zones::Name;

impl LineFacts {
    /// The end of each rule: the addresses are forgotten, and letters that aren't sure.
    pub(crate) fn end(&mut self, marks: &Marks)
        ensures value { self.new ≡ facts_ended marks.now self.old }
    {
        self.forget(Name::FIRST_ADDRESS);
        self.forget(Name::SECOND_ADDRESS);
        self.forget(Name::TARGET_ADDRESS);
        self.keep_spoken(marks);
    }
}

impl Old {
    /// x becomes the line y.
    fn facts_as(&self, alloc: Global, x: Name, y: Name) -> Result<LineFacts, AllocError>
        ensures value { IfOk result (λ facts. facts ≡ facts_as x y self.now) }
    {
        let mut facts = self.facts.try_copy()?;
        facts.set_to(alloc, &self.zone, x, y, 0)?;
        Ok(facts)
    }

    /// `k`
    fn facts_marked(&self, alloc: Global, letter: Letter) -> Result<LineFacts, AllocError>
        ensures value { IfOk result (λ facts. facts ≡ facts_as (name.mark letter) name.first_address self.now) }
    {
        self.facts_as(alloc, Name::of(letter), Name::FIRST_ADDRESS)
    }

    /// The line that `i` without a text makes current is the one that it names, if it is known that there is one.
    fn facts_inserted(&self, alloc: Global) -> Result<LineFacts, AllocError>
        ensures value { IfOk result (λ facts. facts ≡ facts_inserted self.now) }
    {
        if self.zone.is_known(Name::FIRST_ADDRESS, Name::LAST_LINE, 0) {
            self.facts_as(alloc, Name::CURRENT_LINE, Name::FIRST_ADDRESS)
        } else {
            let mut facts = self.facts.try_copy()?;
            facts.forget(Name::CURRENT_LINE);
            Ok(facts)
        }
    }

    /// The facts after an edit, in which these lines give way to new ones; the patterns are those of which facts speak, and those that are
    /// `tested`.
    #[tactic(auto, unfolding(crate::specs::FactsAfter::facts_edited))]
    fn facts_edited(
        &self,
        alloc: Global,
        gap: Gap,
        new: NewLines<'_>,
        tested: &Texts,
        after: &Marks,
    ) -> Result<LineFacts, AllocError>
        ensures value { IfOk result (λ facts. facts ≡ facts_edited tested.now (edit_of gap (fresh_of new.entry)) self.now after.now) }
    {
        let patterns = self.facts.patterns(alloc)?.with_all(tested)?;
        self.edited(alloc, gap, new, after, &patterns)
    }

    /// The addressed lines give way to these, which are tested for no further pattern.
    fn facts_untested(
        &self,
        alloc: Global,
        new: NewLines<'_>,
        after: &Marks,
    ) -> Result<LineFacts, AllocError>
        ensures value { IfOk result (λ facts. facts ≡
            facts_edited [] (edit_of (record { from = at name.first_address; to = at name.second_address }) (fresh_of new.entry)) self.now after.now) }
    {
        self.facts_edited(alloc, Gap::addressed(), new, &Texts::none(alloc), after)
    }

    /// `c`
    fn facts_changed(
        &self,
        alloc: Global,
        watch: &Watch,
        text: &Text,
        after: &Marks,
    ) -> Result<LineFacts, AllocError>
        ensures value { IfOk result (λ facts. facts ≡ facts_changed watch.now text.now self.now after.now) }
    {
        if text.is_empty() {
            self.facts_untested(alloc, NewLines::Gone, after)
        } else {
            let tested = watch.gained(text)?;
            let new = NewLines::Entered(text);
            self.facts_edited(alloc, Gap::addressed(), new, &tested, after)
        }
    }

    /// Two or more lines are joined, or one isn't.
    #[tactic(auto, unfolding(crate::specs::FactsAfter::facts_maybe_joined))]
    fn facts_maybe_joined(&self, alloc: Global, after: &Marks) -> Result<LineFacts, AllocError>
        ensures value { IfOk result (λ facts. facts ≡ facts_maybe_joined self.now after.now) }
    {
        let (first, last) = (Name::FIRST_ADDRESS, Name::SECOND_ADDRESS);
        let mut many = self.try_copy()?;
        many.zone.guard(first, last, -1);
        let joined = many.facts_untested(alloc, NewLines::One, after)?;
        let mut one_line = self.zone;
        one_line.guard(last, first, 0);
        facts_of_both(after, &joined, &one_line, &self.facts)
    }

    /// `j`
    fn facts_joined(
        &self,
        alloc: Global,
        given: &Addresses,
        after: &Marks,
    ) -> Result<LineFacts, AllocError>
        ensures value { IfOk result (λ facts. facts ≡
            facts_joined (joining_given (addresses_value given.now) self.now.zone) self.now after.now) }
    {
        match joining_given(given, &self.zone) {
            Certainty::Never => self.facts.try_copy(),
            Certainty::Surely => self.facts_untested(alloc, NewLines::One, after),
            Certainty::Maybe => self.facts_maybe_joined(alloc, after),
        }
    }

    /// Each addressed line stays, or gives way to one other.
    #[tactic(auto, unfolding(crate::specs::FactsAfter::facts_spared))]
    fn facts_spared(&self, alloc: Global, after: &State) -> Result<LineFacts, AllocError>
        ensures value { IfOk result (λ facts. facts ≡ facts_spared self.now after.now) }
    {
        let patterns = self.facts.patterns(alloc)?;
        self.substituted(alloc, &after.patterns, &after.marks, &patterns)
    }

    /// What is known of the line that `s` makes of the addressed one, where it is known which pattern is looked for.
    fn line_left(&self, alloc: Global, after: &State) -> Result<Option<RewrittenLine>, AllocError>
        ensures value { IfOk result (λ line. fresh_if line ≡ line_left self.now after.now) }
    {
        let Some(sought) = only_pattern(&after.patterns)? else {
            return Ok(None);
        };
        let patterns = self.facts.patterns(alloc)?;
        let matched = self
            .facts
            .matched_at(alloc, &self.zone, Name::FIRST_ADDRESS, &patterns)?;
        RewrittenLine::of(alloc, sought.as_slice(), matched)
    }

    /// `s` of one line.
    fn facts_rewritten(&self, alloc: Global, after: &State) -> Result<LineFacts, AllocError>
        ensures value { IfOk result (λ facts. facts ≡ facts_rewritten self.now after.now) }
    {
        if after.replacements.split {
            return self.facts_untested(alloc, NewLines::Any, &after.marks);
        }
        match self.line_left(alloc, after)? {
            Some(line) => self.facts_untested(alloc, NewLines::Rewritten(&line), &after.marks),
            None => self.facts_untested(alloc, NewLines::One, &after.marks),
        }
    }

    /// `s`, which makes the state `after`. In a list it may leave a line as it is.
    fn facts_substituted(
        &self,
        alloc: Global,
        listed: bool,
        after: &State,
    ) -> Result<LineFacts, AllocError>
        ensures value { IfOk result (λ facts. facts ≡ facts_substituted listed self.now after.now) }
    {
        let (first, last) = (Name::FIRST_ADDRESS, Name::SECOND_ADDRESS);
        let is_line = !listed && self.zone.is_known(last, first, 0);
        if is_line {
            self.facts_rewritten(alloc, after)
        } else if after.replacements.split {
            Ok(LineFacts::none(alloc))
        } else {
            self.facts_spared(alloc, after)
        }
    }

    /// `a`
    fn facts_appended(
        &self,
        alloc: Global,
        watch: &Watch,
        text: &Text,
        after: &Marks,
    ) -> Result<LineFacts, AllocError>
        ensures value { IfOk result (λ facts. facts ≡ facts_appended watch.now text.now self.now after.now) }
    {
        if text.is_empty() {
            self.facts_as(alloc, Name::CURRENT_LINE, Name::FIRST_ADDRESS)
        } else {
            let tested = watch.gained(text)?;
            let (gap, new) = (Gap::after(Name::FIRST_ADDRESS), NewLines::Entered(text));
            self.facts_edited(alloc, gap, new, &tested, after)
        }
    }

    /// `t`
    fn facts_copied(&self, alloc: Global, after: &Marks) -> Result<LineFacts, AllocError>
        ensures value { IfOk result (λ facts. facts ≡ facts_edited [] (copying self.now.zone self.now.facts) self.now after.now) }
    {
        let (first, last) = (Name::FIRST_ADDRESS, Name::SECOND_ADDRESS);
        let new = if self.zone.is_known(last, first, 0) {
            NewLines::Copied(self)
        } else {
            NewLines::Any
        };
        let gap = Gap::after(Name::TARGET_ADDRESS);
        self.facts_edited(alloc, gap, new, &Texts::none(alloc), after)
    }

    /// `m`
    #[tactic(auto, unfolding(crate::specs::FactsAfter::facts_moved))]
    fn facts_moved(&self, alloc: Global, after: &Marks) -> Result<LineFacts, AllocError>
        ensures value { IfOk result (λ facts. facts ≡ facts_moved self.now after.now) }
    {
        let patterns = self.facts.patterns(alloc)?;
        self.carried(alloc, after, &patterns)
    }

    /// `r`
    fn facts_read(&self, alloc: Global, after: &Marks) -> Result<LineFacts, AllocError>
        ensures value { IfOk result (λ facts. facts ≡ facts_edited [] reading self.now after.now) }
    {
        let gap = Gap::after(Name::FIRST_ADDRESS);
        self.facts_edited(alloc, gap, NewLines::Any, &Texts::none(alloc), after)
    }

    /// `i`
    fn facts_put_before(
        &self,
        alloc: Global,
        watch: &Watch,
        text: &Text,
        after: &Marks,
    ) -> Result<LineFacts, AllocError>
        ensures value { IfOk result (λ facts. facts ≡ facts_put_before watch.now text.now self.now after.now) }
    {
        if text.is_empty() {
            self.facts_inserted(alloc)
        } else {
            let tested = watch.gained(text)?;
            let (gap, new) = (Gap::before(Name::FIRST_ADDRESS), NewLines::Entered(text));
            self.facts_edited(alloc, gap, new, &tested, after)
        }
    }

    /// What a command leaves, which makes the state `after`. These are the buffer's bounds, marks and facts with the command's lines
    /// taken.
    pub(crate) fn facts_left(
        &self,
        alloc: Global,
        watch: &Watch,
        listed: bool,
        given: &Addresses,
        verb: &Verb,
        after: &State,
    ) -> Result<LineFacts, AllocError>
        ensures value { IfOk result (λ facts. facts ≡
            facts_left watch.now listed (addresses_value given.now) (verb_value verb.now) self.now after.now) }
    {
        match verb {
            Verb::Append(text) => self.facts_appended(alloc, watch, text, &after.marks),
            Verb::Insert(text) => self.facts_put_before(alloc, watch, text, &after.marks),
            Verb::Change(text) => self.facts_changed(alloc, watch, text, &after.marks),
            Verb::Delete => self.facts_untested(alloc, NewLines::Gone, &after.marks),
            Verb::Join => self.facts_joined(alloc, given, &after.marks),
            Verb::Mark(letter) => self.facts_marked(alloc, *letter),
            Verb::Write(_) => self.facts_as(alloc, Name::CURRENT_LINE, Name::SECOND_ADDRESS),
            Verb::Null => self.facts_as(alloc, Name::CURRENT_LINE, Name::FIRST_ADDRESS),
            Verb::Substitute { .. } => self.facts_substituted(alloc, listed, after),
            Verb::Move(_) => self.facts_moved(alloc, &after.marks),
            Verb::Copy(_) => self.facts_copied(alloc, &after.marks),
            Verb::ReadFile(_) => self.facts_read(alloc, &after.marks),
            Verb::LineNumber | Verb::Help | Verb::HelpMode | Verb::PromptMode => {
                self.facts.try_copy()
            }
            Verb::WriteFile(_) | Verb::FileName(_) | Verb::Quit | Verb::QuitAnyway => {
                self.facts.try_copy()
            }
            Verb::Global { .. } => self.facts.try_copy(),
            Verb::Undo => after.facts.try_copy(),
            _ => Ok(LineFacts::none(alloc)),
        }
    }
}
