//! Lines of the buffer that are joined, moved and copied: `j`, `m` and `t`.
ghost use Rattle.std.specs.Prelude.{◌≡◌, ◌≢◌, ◌≤◌, IfErr, IsOkAnd, MatchResult, OnErr, OnOk};
ghost use Rattle.ed_base.specs.declared.fault.Fault.TheVariants.{Memory};
ghost use Rattle.ed_syntax.specs.meaning.States.{last};
ghost use Rattle.ed_syntax.specs.meaning.Effects as effect;
ghost use Rattle.ed_commands.specs.Editors.{left_by, span_value};

use crate::editor::Editor;
use crate::editor::addressing::Span;
use crate::editor::blocks::{carry, copy_block, join_block};
use crate::editor::past::{Before, Change};
use ed_base::Fault;
use line_store::{Block, LineStore};
use std::alloc::AllocError;

impl<S: LineStore> Editor<S> {
    /// `j`: the lines of the span become one. A single line stays as it is.
    pub(crate) fn join(&mut self, span: Span, before: Before) -> Result<(), AllocError>
        requires first { 1 ≤ span.first }
        requires order { span.first ≤ span.last }
        requires last { span.last ≤ last self.old.state }
        ensures exact { OnOk result
            (self.new.state ≡ left_by before self.old.state (effect.join (span_value span) self.old.state)) }
        ensures failed { self.new.failed ≡ self.old.failed }
    {
        if span.first == span.last {
            return Ok(());
        }
        self.open_lines(span.last)?;
        let joined = join_block(self.alloc, span.first - 1, span.last, &self.store)?;
        let mut lines = Vec::with_capacity(self.alloc, 1)?;
        lines.push_reserved(joined);
        self.replace(span.first - 1, span.last, lines, before)
    }

    /// `m`: the lines of the span go after the target line, with their letters. Where they don't, nothing has changed.
    pub(crate) fn move_lines(
        &mut self,
        span: Span,
        target: usize,
        before: Before,
    ) -> Result<(), Fault>
        requires first { 1 ≤ span.first }
        requires order { span.first ≤ span.last }
        requires last { span.last ≤ last self.old.state }
        requires target { target ≤ last self.old.state }
        ensures exact { MatchResult result
            (λ _. IsOkAnd (effect.move (span_value span) target self.old.state)
            (λ outcome. self.new.state ≡ left_by before self.old.state outcome))
            (λ fault. fault ≢ Memory → effect.move (span_value span) target self.old.state ≡ Err fault) }
        ensures destination { IfErr (effect.move (span_value span) target self.old.state) (λ fault. result ≡ Err fault) }
        ensures unchanged { OnErr result (self.new ≡ self.old) }
        ensures failed { self.new.failed ≡ self.old.failed }
    {
        if span.first <= target && target <= span.last {
            return Err(Fault::Destination);
        }
        self.past.reserve()?;
        let marks = before.marks(&self.store);
        let place = carry(span, target, &mut self.store)?;
        self.past.begin_with(before, marks);
        let from = span.first - 1;
        self.current = place + (span.last - from);
        self.changed = true;
        self.past.add(Change::Moved {
            from,
            to: span.last,
            place,
        });
        Ok(())
    }

    /// `t`: copies of the lines of the span go after the target line, without letters.
    pub(crate) fn copy(
        &mut self,
        span: Span,
        target: usize,
        before: Before,
    ) -> Result<(), AllocError>
        requires first { 1 ≤ span.first }
        requires order { span.first ≤ span.last }
        requires last { span.last ≤ last self.old.state }
        requires target { target ≤ last self.old.state }
        ensures exact { OnOk result
            (self.new.state ≡ left_by before self.old.state (effect.copy (span_value span) target self.old.state)) }
        ensures failed { self.new.failed ≡ self.old.failed }
    {
        self.past.reserve()?;
        self.past.begin(before, &self.store);
        let from = span.first - 1;
        let after = self.store.len() - target;
        copy_block(from, span.last, target, &mut self.store)?;
        self.current = self.store.len() - after;
        self.changed = true;
        self.past.add(Change::Replaced {
            from: target,
            entered: span.last - from,
            removed: Block::new(self.alloc),
        });
        Ok(())
    }
}
