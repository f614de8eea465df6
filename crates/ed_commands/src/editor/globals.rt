//! Global commands: the lines that they take, and what comes before and after their lists (XCU ed, "Global Command", "Global
//! Non-Matched Command").
ghost use Rattle.std.specs.Prelude.{ℕ, List, ◌≡◌, ◌+◌, ◌-◌, ◌<◌, ◌≤◌, None, Ok, Err, count_by, length, map, is_some, unwrap_or, IfSome, IsTrue, OnErr, OnOk};
ghost use Rattle.bre_parse.specs.Grammar.{pattern as pattern_of};
ghost use Rattle.bre_match.specs.Searchers.{searched};
ghost use Rattle.ed_base.specs.Buffer.{flagged_at};
ghost use Rattle.ed_base.specs.Parts.{block, exchanged};
ghost use Rattle.ed_syntax.specs.declared.command.Sense.TheVariants as sense;
ghost use Rattle.ed_syntax.specs.PublicTypes.{command_value};
ghost use Rattle.ed_syntax.specs.meaning.States.{last};
ghost use Rattle.ed_syntax.specs.meaning.Applied as applied;
ghost use Rattle.ed_syntax.specs.meaning.Globals as globals;
ghost use Rattle.ed_syntax.specs.meaning.Globals.{closed, flagged, flagged_line, next_taken};
ghost use Rattle.ed_syntax.specs.meaning.Verbs.{is_global};
ghost use Rattle.ed_commands.specs.Editors.{Begins, Tells, failure_of, span_value};

use crate::editor::Editor;
use crate::editor::addressing::Span;
use crate::editor::course::{Course, uncut_lines};
use crate::editor::remembered::Remembered;
use bre_match::Searcher;
use ed_base::{Fault, Pieces};
use ed_syntax::{Command, Pattern, Sense};
use line_store::{LineStore, Marks};
use std::alloc::{AllocError, Global};

/// What a global command did before its list.
#[derive(Debug, PartialEq, Eq, Drop)]
pub struct Begun {
    /// How many lines have the flag.
    pub lines: usize,
    /// What it wrote: nothing, but for what its suffix writes where it has one.
    pub output: Pieces,
}

/// Whether a line is taken, of which it is known whether it matches.
fn is_wanted(sense: Sense, matched: bool) -> bool
    ensures value { result ≡ globals.wanted sense matched }
{
    match sense {
        Sense::Matching => matched,
        Sense::Others => !matched,
    }
}

/// Flags a line, or takes its flag.
fn set_flag<S: LineStore>(i: usize, flag: bool, store: &mut S) -> Result<(), AllocError>
    requires place { i < length (S.lines store.old) }
    ensures flagged { OnOk result (S.lines store.new ≡ flagged_at i flag (S.lines store.old)) }
    ensures unchanged { OnErr result (S.lines store.new ≡ S.lines store.old) }
{
    if flag {
        return store.flag(i);
    }
    store.unflag(i);
    Ok(())
}

/// Flags those lines of a block that match, where no line has the flag. Lines that aren't cut are cut only up to the last one that does.
fn flag_matching<S: LineStore>(
    searcher: &mut Searcher<'_>,
    from: usize,
    to: usize,
    store: &mut S,
) -> Result<(), AllocError>
    requires order { from ≤ to }
    requires last { to ≤ length (S.lines store.old) }
    requires unflagged { count_by (λ line. line.flag) (S.lines store.old) ≡ 0 }
    ensures flagged { (text : List ℕ) → pattern_of text ≡ Ok (searched searcher.old) → OnOk result (S.lines store.new
        ≡ exchanged from to (map (flagged_line sense.Matching text) (block from to (S.lines store.old))) (S.lines store.old)) }
    ensures count { length (S.lines store.new) ≡ length (S.lines store.old) }
    ensures pattern { searched searcher.new ≡ searched searcher.old }
{
    let uncut = uncut_lines(from, to, store)?;
    let word = searcher.needed_word();
    let mut course = Course::of(&uncut, &word, from, to, store);
    'lines: while let Some(line) = course.next_line() {
        let matched = searcher.matches(line.text_in(line.place, store))?;
        if matched {
            store.flag(line.place)?;
        }
    }
    Ok(())
}

/// Flags those lines of a block that are taken, and takes the flag of the others.
fn flag_each<S: LineStore>(
    sense: Sense,
    searcher: &mut Searcher<'_>,
    from: usize,
    to: usize,
    store: &mut S,
) -> Result<(), AllocError>
    requires order { from ≤ to }
    requires last { to ≤ length (S.lines store.old) }
    ensures flagged { (text : List ℕ) → pattern_of text ≡ Ok (searched searcher.old) → OnOk result (S.lines store.new
        ≡ exchanged from to (map (flagged_line sense text) (block from to (S.lines store.old))) (S.lines store.old)) }
    ensures count { length (S.lines store.new) ≡ length (S.lines store.old) }
    ensures pattern { searched searcher.new ≡ searched searcher.old }
{
    store.open(to)?;
    for i in from..to {
        let matched = searcher.matches(store.text(i))?;
        set_flag(i, is_wanted(sense, matched), store)?;
    }
    Ok(())
}

/// The same, by a pattern.
fn flag_block<S: LineStore>(
    alloc: Global,
    sense: Sense,
    pattern: &mut Remembered,
    from: usize,
    to: usize,
    store: &mut S,
) -> Result<(), AllocError>
    requires order { from ≤ to }
    requires last { to ≤ length (S.lines store.old) }
    ensures flagged { OnOk result (S.lines store.new
        ≡ exchanged from to (map (flagged_line sense pattern.old) (block from to (S.lines store.old))) (S.lines store.old)) }
    ensures count { length (S.lines store.new) ≡ length (S.lines store.old) }
    ensures kept { pattern.new ≡ pattern.old }
{
    let learned = pattern.take_learned(alloc);
    let mut searcher = pattern.searcher(learned);
    match sense {
        Sense::Matching if store.flag_count() == 0 => {
            flag_matching(&mut searcher, from, to, store)?;
        }
        _ => flag_each(sense, &mut searcher, from, to, store)?,
    }
    let learned = searcher.leave();
    pattern.put_back(learned);
    Ok(())
}

impl<S: LineStore> Editor<S> {
    /// Begins a global command (XCU ed, "Global Command", "Global Non-Matched Command"): flags those of its lines that it takes,
    /// remembers its pattern, and tells how many lines have the flag and what it wrote. The commands of its list follow for each line that
    /// `next_global` takes, until `end_global` makes one change of them. After an `Err` the editor has failed, and what else it
    /// holds isn't said.
    pub fn begin_global(&mut self, command: &Command) -> Result<Begun, Fault>
        requires global { IsTrue (is_global (command_value command.now).verb) }
        ensures exact { self.old.failed ≡ None →
            Begins (applied.command self.old.state (command_value command.now) None) result self.old.state self.new.state }
        ensures failed { self.new.failed ≡ failure_of self.old.failed result }
        ensures sticky { IfSome self.old.failed (λ fault. (result ≡ Err fault) × (self.new ≡ self.old)) }
    {
        if let Some(fault) = self.failed {
            return Err(fault);
        }
        match self.open_global(command) {
            Ok(begun) => Ok(begun),
            Err(fault) => Err(self.fail(fault)),
        }
    }

    /// What comes before its list is carried out, and the buffer is held as it was before.
    fn open_global(&mut self, command: &Command) -> Result<Begun, Fault>
        requires global { IsTrue (is_global (command_value command.now).verb) }
        ensures exact { Begins (applied.command self.old.state (command_value command.now) None) result self.old.state self.new.state }
        ensures failed { self.new.failed ≡ self.old.failed }
    {
        let current = self.current;
        let marks = Marks::of(&self.store);
        let output = self.carry_out(command, None)?;
        self.past.open(current, marks);
        Ok(Begun {
            lines: self.store.flag_count(),
            output,
        })
    }

    /// Takes the flagged line that comes first in the buffer as it is now: from here on it is current, without its flag. Where no
    /// line has the flag it tells so, and nothing changes. It takes no memory.
    pub fn next_global(&mut self) -> bool
        ensures value { result ≡ is_some (next_taken self.old.state) }
        ensures taken { self.new.state ≡ unwrap_or (next_taken self.old.state) self.old.state }
        ensures failed { self.new.failed ≡ self.old.failed }
    {
        // The proof reads off the count that the line's number fits.
        let _ = self.store.len();
        let Some(place) = self.store.next_flagged() else {
            return false;
        };
        self.store.unflag(place);
        self.current = place + 1;
        true
    }

    /// The global command is over: undo takes it as one change, where a command of its list changed the buffer. Where none is open
    /// nothing changes. It takes no memory.
    pub fn end_global(&mut self)
        ensures closed { self.new.state ≡ closed self.old.state }
        ensures failed { self.new.failed ≡ self.old.failed }
    {
        self.past.close();
    }

    /// `g` and `v` before their list: the lines of the span that are taken have the flag, and the pattern is remembered.
    pub(crate) fn flag_lines(
        &mut self,
        sense: Sense,
        pattern: &Option<Pattern>,
        span: Span,
    ) -> Result<(), Fault>
        requires first { 1 ≤ span.first }
        requires order { span.first ≤ span.last + 1 }
        requires last { span.last ≤ last self.old.state }
        ensures exact { Tells (λ _. self.new.state) (flagged sense pattern.now (span_value span) self.old.state) result }
        ensures failed { self.new.failed ≡ self.old.failed }
    {
        self.remember(pattern)?;
        let Some(pattern) = &mut self.pattern else {
            return Err(Fault::Pattern);
        };
        flag_block(
            self.alloc,
            sense,
            pattern,
            span.first - 1,
            span.last,
            &mut self.store,
        )?;
        Ok(())
    }
}
