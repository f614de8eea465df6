//! The commands on files: what they ask for, and what they do with its answer.
ghost use Rattle.std.specs.Prelude.{◌≡◌, ◌≢◌, ◌≤◌, ℕ, Bool, [], Some, None, IsTrue, IfOk, IsOkAnd, MatchResult, OnErr, OnOk};
ghost use Rattle.ed_base.specs.declared.fault.Fault.TheVariants.{Memory};
ghost use Rattle.ed_syntax.specs.PublicTypes.{command_value, verb_value};
ghost use Rattle.ed_syntax.specs.meaning.States.{last};
ghost use Rattle.ed_syntax.specs.meaning.Verbs.{asks, takes};
ghost use Rattle.ed_syntax.specs.meaning.Effects.{Asks, Makes, only};
ghost use Rattle.ed_syntax.specs.meaning.Applied as applied;
ghost use Rattle.ed_syntax.specs.meaning.Applied.{effect_of};
ghost use Rattle.ed_syntax.specs.meaning.Files as file;
ghost use Rattle.ed_commands.specs.Editors.{Fits, Leaves, Tells, naming, span_value};

use crate::editor::Editor;
use crate::editor::addressing::Span;
use crate::editor::blocks::file_of;
use crate::editor::lines::looked_at;
use crate::editor::past::Before;
use crate::editor::remembered::Remembered;
use ed_base::{Bytes, Fault, Pieces};
use ed_syntax::{Answer, Command, Form, Request, Verb};
use line_store::LineStore;
use std::alloc::AllocError;
use std::rc::Rc;

/// The bytes of a file that was read; one that is missing is refused.
fn bytes_read(answer: Answer) -> Result<Bytes, Fault>
    ensures exact { result ≡ file.bytes_read answer }
{
    match answer {
        Answer::Bytes(bytes) => Ok(bytes),
        Answer::Missing | Answer::Refused | Answer::Done => Err(Fault::File),
    }
}

impl<S: LineStore> Editor<S> {
    /// The file that a command needs. Its addresses are evaluated again once there is an answer: what they change is put back.
    pub(crate) fn request(&mut self, command: &Command) -> Result<Request, Fault>
        requires asks { IsTrue (asks (command_value command.now).verb) }
        ensures exact { Tells Asks (applied.command self.old.state (command_value command.now) None) result }
        ensures unchanged { OnOk result (self.new ≡ self.old) }
        ensures failed { self.new.failed ≡ self.old.failed }
    {
        let current = self.current;
        let pattern = self.pattern_copy()?;
        let named = self.addressed(command)?;
        let request = self.wanted(&command.verb, named.span)?;
        self.current = current;
        self.pattern = pattern;
        Ok(request)
    }

    /// A copy of the remembered pattern, of which nothing is learned.
    fn pattern_copy(&self) -> Result<Option<Remembered>, AllocError>
        ensures value { IfOk result (λ copy. copy ≡ self.now.state.pattern) }
    {
        match &self.pattern {
            Some(pattern) => Ok(Some(pattern.try_copy()?)),
            None => Ok(None),
        }
    }

    /// What a command asks for at the lines of a span.
    fn wanted(&mut self, verb: &Verb, span: Span) -> Result<Request, Fault>
        requires asks { IsTrue (asks (verb_value verb.now)) }
        requires fits { Fits (takes (verb_value verb.now)).taking span (last self.old.state) }
        ensures exact { (listed : Bool) (target : ℕ) →
            Tells Asks (effect_of (verb_value verb.now) listed (span_value span) target self.old.state None) result }
        ensures unchanged { self.new ≡ self.old }
    {
        match verb {
            Verb::ReadFile(path) | Verb::EditAnyway(path) => {
                Ok(Request::Read(self.used_path(path)?))
            }
            Verb::Edit(path) => {
                let path = self.used_path(path)?;
                self.saved()?;
                Ok(Request::Read(path))
            }
            Verb::WriteFile(path) => {
                let path = self.used_path(path)?;
                let last = self.store.len();
                self.open_lines(looked_at(Form::Plain, span, last))?;
                let bytes = file_of(self.alloc, span.first - 1, span.last, &self.store)?;
                Ok(Request::Write(path, bytes))
            }
            _ => unreachable!(),
        }
    }

    /// The given path, or the remembered one.
    fn used_path(&self, path: &Option<Bytes>) -> Result<Bytes, Fault>
        ensures exact { Tells (λ used. used) (file.used_path path.now self.now.state) result }
    {
        if let Some(own) = path {
            return Ok(own.try_copy()?);
        }
        match &self.name {
            Some(name) => Ok(name.try_copy()?),
            None => Err(Fault::Name),
        }
    }

    /// The path that a command uses is remembered where none is.
    fn name_first(&mut self, path: &Option<Bytes>) -> Result<(), Fault>
        ensures exact { Tells (λ _. self.new.state) (naming path.now self.old.state) result }
        ensures failed { self.new.failed ≡ self.old.failed }
    {
        if self.name.is_some() {
            return Ok(());
        }
        let Some(own) = path else {
            return Err(Fault::Name);
        };
        self.name = Some(own.try_copy()?);
        Ok(())
    }

    /// `r`: the lines of the file go after the addressed line.
    pub(crate) fn read_file(
        &mut self,
        path: &Option<Bytes>,
        answer: Answer,
        span: Span,
        before: Before,
    ) -> Result<(), Fault>
        requires place { span.first ≤ last self.old.state }
        ensures exact { let expected = file.read path.now (Some answer) (span_value span) self.old.state in
            MatchResult result (λ _. IsOkAnd expected (Leaves before self.old.state self.new.state []))
            (λ fault. fault ≢ Memory → expected ≡ Err fault) }
        ensures failed { self.new.failed ≡ self.old.failed }
    {
        self.name_first(path)?;
        let bytes = bytes_read(answer)?;
        self.enter(span.first, Rc::new(self.alloc, bytes)?, before)?;
        Ok(())
    }

    /// `w`, once the lines were written: where they are all lines, nothing is left to be saved.
    pub(crate) fn written(
        &mut self,
        path: &Option<Bytes>,
        answer: Answer,
        span: Span,
    ) -> Result<(), Fault>
        ensures exact { Tells (λ _. Makes (only self.new.state [])) (file.write path.now (Some answer) (span_value span) self.old.state) result }
        ensures failed { self.new.failed ≡ self.old.failed }
    {
        self.name_first(path)?;
        match answer {
            Answer::Done => {}
            Answer::Bytes(_) | Answer::Missing | Answer::Refused => return Err(Fault::File),
        }
        if self.is_whole(span) {
            self.changed = false;
        }
        Ok(())
    }

    /// Whether a span has all lines.
    fn is_whole(&self, span: Span) -> bool
        ensures value { result ≡ file.is_whole (span_value span) self.now.state }
    {
        span.first == 1 && span.last == self.store.len()
    }

    /// `e`: a file in place of the buffer, which has to be saved.
    pub(crate) fn edit(&mut self, path: &Option<Bytes>, answer: Answer) -> Result<(), Fault>
        ensures exact { Tells (λ _. Makes (only self.new.state [])) (file.edit path.now (Some answer) self.old.state) result }
        ensures failed { self.new.failed ≡ self.old.failed }
    {
        let path = self.used_path(path)?;
        self.saved()?;
        self.edit_file(path, answer)
    }

    /// `E`: a file in place of the buffer, saved or not.
    pub(crate) fn edit_anyway(&mut self, path: &Option<Bytes>, answer: Answer) -> Result<(), Fault>
        ensures exact { Tells (λ _. Makes (only self.new.state [])) (file.edit_anyway path.now (Some answer) self.old.state) result }
        ensures failed { self.new.failed ≡ self.old.failed }
    {
        let path = self.used_path(path)?;
        self.edit_file(path, answer)
    }

    /// The file that was read, in place of the buffer.
    fn edit_file(&mut self, path: Bytes, answer: Answer) -> Result<(), Fault>
        ensures exact { Tells (λ _. Makes (only self.new.state [])) (file.edit_anyway (Some path) (Some answer) self.old.state) result }
        ensures failed { self.new.failed ≡ self.old.failed }
    {
        let bytes = bytes_read(answer)?;
        self.hold_file(bytes, path)?;
        Ok(())
    }

    /// `f`: the given path is remembered, and the remembered one is written.
    pub(crate) fn file_name(&mut self, path: &Option<Bytes>) -> Result<Pieces, Fault>
        ensures exact { Tells (λ output. only self.new.state output) (file.file_name path.now self.old.state) result }
        ensures failed { self.new.failed ≡ self.old.failed }
    {
        let path = self.used_path(path)?;
        let mut output = Bytes::new(self.alloc);
        output.extend_from_slice(path.as_slice())?;
        output.push(b'\n')?;
        self.name = Some(path);
        Ok(Pieces::from_bytes(self.alloc, output))
    }

    /// `q`, and before `e`: changes that weren't saved are not lost.
    pub(crate) fn saved(&self) -> Result<(), Fault>
        ensures exact { Tells (λ _. self.now.state) (file.saved self.now.state) result }
    {
        if self.changed {
            return Err(Fault::Unsaved);
        }
        Ok(())
    }
}
