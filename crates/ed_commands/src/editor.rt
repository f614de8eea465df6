//! An editor over any store: one command at a time.
ghost use Rattle.std.specs.Prelude.{◌≡◌, ◌≢◌, [], Option, Some, None, Err, IfErr, IfSome, IsOkAnd, IsSome, IsTrue, MatchResult, OnErr, OnOk, unwrap_or};
ghost use Rattle.ed_base.specs.declared.fault.Fault.TheVariants.{Memory};
ghost use Rattle.ed_syntax.specs.PublicTypes.{command_value};
ghost use Rattle.ed_syntax.specs.declared.request.Answer.{Answer};
ghost use Rattle.ed_syntax.specs.meaning.Applied as applied;
ghost use Rattle.ed_syntax.specs.meaning.Files.{loaded};
ghost use Rattle.ed_syntax.specs.meaning.States.{opening};
ghost use Rattle.ed_syntax.specs.meaning.Verbs.{asks};
ghost use Rattle.ed_commands.specs.Editors.{Applied, Replies, failure_of, opening_value};
ghost use Rattle.ed_commands.specs.declared.editor.Reply.TheVariants as reply;

mod addressing;
mod blocks;
mod course;
mod effects;
mod entering;
mod files;
mod first_line;
mod forms;
mod globals;
mod lines;
mod past;
mod rearranging;
mod remembered;
mod rewriting;
mod searching;
mod substituting;
mod undoing;

use ed_base::{Bytes, Fault, Pieces};
use ed_syntax::{Answer, Command, Replacement, Request};
pub use globals::Begun;
use line_store::LineStore;
use lines::file_store;
use past::{Before, Past};
use remembered::Remembered;
use std::alloc::{AllocError, Global};
use std::marker::Model;

/// What a command answers.
#[derive(Debug, PartialEq, Eq, Drop)]
pub enum Reply {
    /// What it wrote.
    Done(Pieces),
    /// The file that it needs first.
    Wants(Request),
}

/// A buffer with what commands remember. After a fault it has failed, and each later call answers that fault.
#[derive(Drop)]
pub struct Editor<S: LineStore> {
    alloc: Global,
    store: S,
    current: usize,
    pattern: Option<Remembered>,
    replacement: Option<Replacement>,
    name: Option<Bytes>,
    changed: bool,
    past: Past,
    failed: Option<Fault>,
}

impl<S: LineStore> Model for Editor<S> {
    ghost use Rattle.std.specs.Prelude.{◌≤◌, length};
    ghost use Rattle.ed_base.specs.Buffer.{texts};
    ghost use Rattle.ed_commands.specs.Earlier.{earlier_of};
    ghost use Rattle.ed_commands.specs.Editors.{EditorValue};

    ghost Value = { EditorValue };

    ghost view = { λ e. record {
      state = record {
        lines = S.lines e.store;
        current = e.current;
        pattern = e.pattern;
        replacement = e.replacement;
        name = e.name;
        changed = e.changed;
        past = (earlier_of e.past (texts (S.lines e.store))).past;
        global = (earlier_of e.past (texts (S.lines e.store))).global;
      };
      failed = e.failed;
    } };

    ghost invariant = { λ e. e.current ≤ length (S.lines e.store) };
}

impl<S: LineStore> Editor<S> {
    /// An editor of an empty store. It takes no memory.
    pub fn new(alloc: Global, store: S) -> Self
        requires empty { S.lines store ≡ [] }
        ensures value { result ≡ opening_value }
    {
        Editor {
            alloc,
            store,
            current: 0,
            pattern: None,
            replacement: None,
            name: None,
            changed: false,
            past: Past::nothing(alloc),
            failed: None,
        }
    }

    /// Loads a file's bytes in place of all that it holds: their lines are the buffer, the last one current, and the path is
    /// remembered. The bytes are copied once.
    pub fn load(&mut self, bytes: &[u8], path: Bytes) -> Result<(), Fault>
        ensures loaded { OnOk result (self.new.state ≡ loaded bytes.now path opening) }
        ensures memory { self.old.failed ≡ None → IfErr result (λ fault. fault ≡ Memory) }
        ensures unchanged { OnErr result (self.new.state ≡ self.old.state) }
        ensures failed { self.new.failed ≡ failure_of self.old.failed result }
        ensures sticky { IfSome self.old.failed (λ fault. (result ≡ Err fault) × (self.new ≡ self.old)) }
    {
        match Bytes::from_slice(self.alloc, bytes) {
            Ok(bytes) => self.load_bytes(bytes, path),
            Err(_) => Err(self.fail(Fault::Memory)),
        }
    }

    /// Loads a file as `load` does. Its lines share these very bytes.
    pub fn load_bytes(&mut self, bytes: Bytes, path: Bytes) -> Result<(), Fault>
        ensures loaded { OnOk result (self.new.state ≡ loaded bytes path opening) }
        ensures memory { self.old.failed ≡ None → IfErr result (λ fault. fault ≡ Memory) }
        ensures unchanged { OnErr result (self.new.state ≡ self.old.state) }
        ensures failed { self.new.failed ≡ failure_of self.old.failed result }
        ensures sticky { IfSome self.old.failed (λ fault. (result ≡ Err fault) × (self.new ≡ self.old)) }
    {
        if let Some(first) = self.failed {
            return Err(first);
        }
        if self.hold_file(bytes, path).is_err() {
            return Err(self.fail(Fault::Memory));
        }
        self.pattern = None;
        self.replacement = None;
        Ok(())
    }

    /// The lines of a file's bytes, which they share, come in place of the buffer. Patterns and replacements stay remembered.
    fn hold_file(&mut self, bytes: Bytes, path: Bytes) -> Result<(), AllocError>
        ensures loaded { OnOk result (self.new.state ≡ loaded bytes path self.old.state) }
        ensures unchanged { OnErr result (self.new ≡ self.old) }
        ensures failed { self.new.failed ≡ self.old.failed }
    {
        let store = file_store::<S>(self.alloc, bytes)?;
        self.current = store.len();
        self.store = store;
        self.name = Some(path);
        self.changed = false;
        self.past = Past::nothing(self.alloc);
        Ok(())
    }

    /// The lines before a place are going to be looked at one by one, and the store readies itself for that. Nothing changes.
    fn open_lines(&mut self, to: usize) -> Result<(), AllocError>
        ensures unchanged { self.new ≡ self.old }
    {
        self.store.open(to)
    }

    /// It fails, unless it has failed before: the first fault stays.
    fn fail(&mut self, fault: Fault) -> Fault
        ensures first { result ≡ unwrap_or self.old.failed fault }
        ensures failed { self.new ≡ record self.old { failed = Some result } }
    {
        let first = self.failed.unwrap_or(fault);
        self.failed = Some(first);
        first
    }

    /// Carries out a command (XCU ed, "Commands in ed"). One that needs a file and has no answer yet asks for it, and is to be
    /// applied again with the answer. After an `Err` the editor has failed, and what else it holds isn't said.
    pub fn apply(&mut self, command: &Command, answer: Option<Answer>) -> Result<Reply, Fault>
        ensures exact { self.old.failed ≡ None →
            Applied (applied.command self.old.state (command_value command.now) answer) result self.old.state self.new.state }
        ensures failed { self.new.failed ≡ failure_of self.old.failed result }
        ensures sticky { IfSome self.old.failed (λ fault. (result ≡ Err fault) × (self.new ≡ self.old)) }
    {
        if let Some(fault) = self.failed {
            return Err(fault);
        }
        if answer.is_none() && command.verb.takes().asks {
            return match self.request(command) {
                Ok(request) => Ok(Reply::Wants(request)),
                Err(fault) => Err(self.fail(fault)),
            };
        }
        match self.carry_out(command, answer) {
            Ok(output) => Ok(Reply::Done(output)),
            Err(fault) => Err(self.fail(fault)),
        }
    }

    /// The lines that a command is applied to, its effect there, and its suffix.
    fn carry_out(&mut self, command: &Command, answer: Option<Answer>) -> Result<Pieces, Fault>
        requires answered { IsTrue (asks (command_value command.now).verb) → IsSome answer }
        ensures exact { let effect = applied.command self.old.state (command_value command.now) answer in
            MatchResult result (λ output. IsOkAnd effect (Replies self.old.state self.new.state (reply.Done output)))
            (λ fault. fault ≢ Memory → effect ≡ Err fault) }
        ensures failed { self.new.failed ≡ self.old.failed }
    {
        let before = Before {
            current: self.current,
            listed: command.listed,
        };
        let named = self.addressed(command)?;
        // An answer that isn't asked for isn't looked at.
        let given = answer.unwrap_or(Answer::Refused);
        let output = self.effect(&command.verb, named, before, given)?;
        self.write_suffix(command.suffix, output)
    }

    /// The current line's number, counted from 1; 0 in an empty buffer or before the first line.
    pub fn current(&self) -> usize
        ensures value { result ≡ self.now.state.current }
    {
        self.current
    }

    /// Whether the buffer has changes that weren't written.
    pub fn changed(&self) -> bool
        ensures value { result ≡ self.now.state.changed }
    {
        self.changed
    }

    /// The store of the buffer's lines.
    pub fn lines(&self) -> &S
        ensures value { S.lines result.now ≡ self.now.state.lines }
    {
        &self.store
    }

    /// The fault that it has failed by.
    pub fn failed(&self) -> Option<Fault>
        ensures value { result ≡ self.now.failed }
    {
        self.failed
    }
}
