//! Lines that come into the buffer, and those in whose place they come: `c` and `i`, and what they share with other commands.
ghost use Rattle.std.specs.Prelude.{◌≡◌, ◌+◌, ◌≤◌, length, OnOk};
ghost use Rattle.ed_base.specs.Lines.{lines_of};
ghost use Rattle.ed_base.specs.Parts.{exchanged};
ghost use Rattle.ed_syntax.specs.meaning.States.{last};
ghost use Rattle.ed_syntax.specs.meaning.Effects as effect;
ghost use Rattle.ed_syntax.specs.meaning.Effects.{altered, entered};
ghost use Rattle.ed_commands.specs.Editors.{AreNew, left_by, span_value};

use crate::editor::Editor;
use crate::editor::addressing::Span;
use crate::editor::blocks::{exchange, file_lines};
use crate::editor::lines::put_file;
use crate::editor::past::{Before, Change};
use ed_base::{Bytes, Text};
use line_store::{Block, FileLines, Line, LineStore};
use std::alloc::AllocError;
use std::rc::Rc;

impl<S: LineStore> Editor<S> {
    /// Puts new lines in place of those after line `from` up to line `to`, which undo keeps. The last new line is current or,
    /// without any, the line in front of them.
    pub(crate) fn replace(
        &mut self,
        from: usize,
        to: usize,
        lines: Vec<Line>,
        before: Before,
    ) -> Result<(), AllocError>
        requires order { from ≤ to }
        requires last { to ≤ last self.old.state }
        requires new { AreNew lines.items }
        ensures exact { OnOk result (self.new.state ≡ left_by before self.old.state
            (altered (exchanged from to lines.items self.old.state.lines) (from + length lines.items) self.old.state)) }
        ensures failed { self.new.failed ≡ self.old.failed }
    {
        self.past.reserve()?;
        self.past.begin(before, &self.store);
        let entered = lines.len();
        let after = self.store.len() - to;
        let removed = exchange(self.alloc, from, to, lines, &mut self.store)?;
        self.current = self.store.len() - after;
        self.changed = true;
        self.past.add(Change::Replaced {
            from,
            entered,
            removed,
        });
        Ok(())
    }

    /// Puts the lines of a block, which they share, after line `place`, the last one current. Without any that line is current,
    /// and nothing has changed.
    pub(crate) fn enter(
        &mut self,
        place: usize,
        block: Rc<Bytes>,
        before: Before,
    ) -> Result<(), AllocError>
        requires place { place ≤ last self.old.state }
        ensures exact { OnOk result
            (self.new.state ≡ left_by before self.old.state (entered place (lines_of block.value) self.old.state)) }
        ensures failed { self.new.failed ≡ self.old.failed }
    {
        if block.is_empty() {
            self.current = place;
            return Ok(());
        }
        self.past.reserve()?;
        self.past.begin(before, &self.store);
        let count = self.store.len();
        let file = FileLines::shared(self.alloc, block);
        put_file(file, place, &mut self.store)?;
        let now = self.store.len();
        self.current = now - (count - place);
        self.changed = true;
        self.past.add(Change::Replaced {
            from: place,
            entered: now - count,
            removed: Block::new(self.alloc),
        });
        Ok(())
    }

    /// `i`: the text goes before the first line of the span; an empty buffer has none, and then it is all.
    pub(crate) fn insert(
        &mut self,
        text: &Text,
        span: Span,
        before: Before,
    ) -> Result<(), AllocError>
        requires first { 1 ≤ span.first }
        requires place { span.first ≤ last self.old.state + 1 }
        ensures exact { OnOk result
            (self.new.state ≡ left_by before self.old.state (effect.insert text.now (span_value span) self.old.state)) }
        ensures failed { self.new.failed ≡ self.old.failed }
    {
        match text.block() {
            Some(block) => self.enter(span.first - 1, block.clone()?, before),
            None => {
                self.current = span.first.min(self.store.len());
                Ok(())
            }
        }
    }

    /// `c`: the text comes in place of the lines of the span.
    pub(crate) fn change_lines(
        &mut self,
        text: &Text,
        span: Span,
        before: Before,
    ) -> Result<(), AllocError>
        requires first { 1 ≤ span.first }
        requires order { span.first ≤ span.last }
        requires last { span.last ≤ last self.old.state }
        ensures exact { OnOk result
            (self.new.state ≡ left_by before self.old.state (effect.change text.now (span_value span) self.old.state)) }
        ensures failed { self.new.failed ≡ self.old.failed }
    {
        let Some(block) = text.block() else {
            return self.delete(span, before);
        };
        let file = FileLines::shared(self.alloc, block.clone()?);
        let lines = file_lines(self.alloc, file)?;
        self.replace(span.first - 1, span.last, lines, before)
    }
}
