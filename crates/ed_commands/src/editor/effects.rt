//! What each command does to the buffer.
ghost use Rattle.std.specs.Prelude.{◌≡◌, ◌≢◌, ◌≤◌, ◌++◌, Some, IfOk, IsOkAnd, OnOk, MatchResult};
ghost use Rattle.ed_base.specs.declared.fault.Fault.TheVariants.{Memory};
ghost use Rattle.ed_syntax.specs.PublicTypes.{form_value, suffix_value, verb_value};
ghost use Rattle.ed_syntax.specs.meaning.States.{last};
ghost use Rattle.ed_syntax.specs.meaning.Verbs.{takes};
ghost use Rattle.ed_syntax.specs.meaning.Effects as effect;
ghost use Rattle.ed_syntax.specs.meaning.Forms.{lines_written};
ghost use Rattle.ed_syntax.specs.meaning.Applied.{effect_of};
ghost use Rattle.ed_commands.specs.Editors.{Fits, Leaves, left_by, span_value, suffixed};

use crate::editor::Editor;
use crate::editor::addressing::{Addressed, Span};
use crate::editor::lines::{looked_at, write_lines};
use crate::editor::past::Before;
use ed_base::{Bytes, Fault, Letter, Pieces, Text, push_number};
use ed_syntax::{Answer, Form, Verb};
use line_store::LineStore;
use std::alloc::AllocError;

impl<S: LineStore> Editor<S> {
    /// Does what a command does at the lines that its addresses name, with the answer of the file that it needs, and tells what it
    /// wrote before its suffix.
    pub(crate) fn effect(
        &mut self,
        verb: &Verb,
        named: Addressed,
        before: Before,
        answer: Answer,
    ) -> Result<Pieces, Fault>
        requires fits { Fits (takes (verb_value verb.now)).taking named.span (last self.old.state) }
        requires target { named.target ≤ last self.old.state }
        ensures exact { let effect = effect_of (verb_value verb.now) before.listed (span_value named.span) named.target self.old.state (Some answer) in
            MatchResult result (λ output. IsOkAnd effect (Leaves before self.old.state self.new.state output))
            (λ fault. fault ≢ Memory → effect ≡ Err fault) }
        ensures failed { self.new.failed ≡ self.old.failed }
    {
        let Addressed { span, target } = named;
        match verb {
            Verb::Append(text) => self.append(text, span, before)?,
            Verb::Change(text) => self.change_lines(text, span, before)?,
            Verb::Delete => self.delete(span, before)?,
            Verb::Insert(text) => self.insert(text, span, before)?,
            Verb::Join => self.join(span, before)?,
            Verb::Mark(letter) => self.mark(*letter, span),
            Verb::Move(_) => self.move_lines(span, target, before)?,
            Verb::Copy(_) => self.copy(span, target, before)?,
            Verb::Substitute {
                pattern,
                replacement,
                which,
                form,
            } => return self.substitute(pattern, replacement, which, *form, span, before),
            Verb::LineNumber => return Ok(self.line_number(span)?),
            Verb::Null => return Ok(self.write(Form::Plain, span)?),
            Verb::Write(form) => return Ok(self.write(*form, span)?),
            Verb::ReadFile(path) => self.read_file(path, answer, span, before)?,
            Verb::WriteFile(path) => self.written(path, answer, span)?,
            Verb::Edit(path) => self.edit(path, answer)?,
            Verb::EditAnyway(path) => self.edit_anyway(path, answer)?,
            Verb::FileName(path) => return self.file_name(path),
            Verb::Quit => self.saved()?,
            Verb::Global { sense, pattern, .. } => self.flag_lines(*sense, pattern, span)?,
            Verb::Undo => self.undo()?,
            Verb::Help | Verb::HelpMode | Verb::PromptMode | Verb::QuitAnyway => {}
        }
        Ok(Pieces::new(self.alloc))
    }

    /// `a`: the text goes after the first line of the span.
    fn append(&mut self, text: &Text, span: Span, before: Before) -> Result<(), AllocError>
        requires place { span.first ≤ last self.old.state }
        ensures exact { OnOk result
            (self.new.state ≡ left_by before self.old.state (effect.append text.now (span_value span) self.old.state)) }
        ensures failed { self.new.failed ≡ self.old.failed }
    {
        match text.block() {
            Some(block) => self.enter(span.first, block.clone()?, before),
            None => {
                self.current = span.first;
                Ok(())
            }
        }
    }

    /// `d`: the lines of the span go out, into what undo keeps.
    pub(crate) fn delete(&mut self, span: Span, before: Before) -> Result<(), AllocError>
        requires first { 1 ≤ span.first }
        requires order { span.first ≤ span.last }
        requires last { span.last ≤ last self.old.state }
        ensures exact { OnOk result
            (self.new.state ≡ left_by before self.old.state (effect.delete (span_value span) self.old.state)) }
        ensures failed { self.new.failed ≡ self.old.failed }
    {
        self.replace(span.first - 1, span.last, Vec::new(self.alloc), before)?;
        self.current = span.first.min(self.store.len());
        Ok(())
    }

    /// `k`: the letter marks the last line of the span, and no other. The buffer isn't changed by it.
    fn mark(&mut self, letter: Letter, span: Span)
        requires first { 1 ≤ span.last }
        requires last { span.last ≤ last self.old.state }
        ensures exact { self.new.state ≡ (effect.mark letter (span_value span) self.old.state).state }
        ensures failed { self.new.failed ≡ self.old.failed }
    {
        self.store.mark(span.last - 1, letter);
    }

    /// `=`: the number of the last line of the span.
    fn line_number(&self, span: Span) -> Result<Pieces, AllocError>
        ensures value { IfOk result (λ output. output ≡ (effect.line_number (span_value span) self.now.state).output) }
    {
        let mut output = Bytes::new(self.alloc);
        push_number(&mut output, span.last as u64)?;
        output.push(b'\n')?;
        Ok(Pieces::from_bytes(self.alloc, output))
    }

    /// `p`, and the null command: the last line written is current.
    fn write(&mut self, form: Form, span: Span) -> Result<Pieces, AllocError>
        requires first { 1 ≤ span.first }
        requires order { span.first ≤ span.last }
        requires last { span.last ≤ last self.old.state }
        ensures exact { IfOk result (λ output. let outcome = effect.write (form_value form) (span_value span) self.old.state in
            (self.new.state ≡ outcome.state) × (output ≡ outcome.output)) }
        ensures failed { self.new.failed ≡ self.old.failed }
    {
        let mut output = Pieces::new(self.alloc);
        self.push_span(form, span, &mut output)?;
        self.current = span.last;
        Ok(output)
    }

    /// Appends the lines of a span, as the form writes them.
    fn push_span(&mut self, form: Form, span: Span, output: &mut Pieces) -> Result<(), AllocError>
        requires first { 1 ≤ span.first }
        requires order { span.first ≤ span.last }
        requires last { span.last ≤ last self.old.state }
        ensures appended { OnOk result
            (output.new ≡ output.old ++ lines_written (form_value form) span.first span.last self.old.state.lines) }
        ensures unchanged { self.new ≡ self.old }
    {
        let last = self.store.len();
        self.open_lines(looked_at(form, span, last))?;
        write_lines(self.alloc, output, form, span, &self.store)
    }

    /// Appends what a suffix writes, the new current line, to a command's output.
    pub(crate) fn write_suffix(
        &mut self,
        suffix: Option<Form>,
        mut output: Pieces,
    ) -> Result<Pieces, Fault>
        ensures exact { let expected = suffixed output (suffix_value suffix) self.old.state in
            MatchResult result (λ all. expected ≡ Ok all) (λ fault. fault ≢ Memory → expected ≡ Err fault) }
        ensures unchanged { self.new ≡ self.old }
    {
        let Some(form) = suffix else {
            return Ok(output);
        };
        if self.current == 0 {
            return Err(Fault::Address);
        }
        let here = Span {
            first: self.current,
            last: self.current,
        };
        self.push_span(form, here, &mut output)?;
        Ok(output)
    }
}
