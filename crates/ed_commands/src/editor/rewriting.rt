//! Lines that are rewritten one by one, each by itself.
ghost use Rattle.std.specs.Prelude.{ℕ, List, Ok, ◌≡◌, ◌+◌, ◌-◌, ◌^◌, ◌<◌, ◌≤◌, length, map, option_map, IfNone, IfOk, IfSome, OnErr, OnOk};
ghost use Rattle.bre_parse.specs.Grammar.{pattern as pattern_of};
ghost use Rattle.bre_match.specs.Searchers.{searched};
ghost use Rattle.ed_base.specs.Buffer.{plain_line, texts};
ghost use Rattle.ed_base.specs.Parts.{between, exchanged, replaced};
ghost use Rattle.ed_syntax.specs.meaning.SubstitutedLines.{each, made_of};
ghost use Rattle.ed_commands.specs.Earlier.{earlier_of, kept_lines};
ghost use Rattle.ed_commands.specs.Editors.{AreNew};
ghost use Rattle.ed_commands.specs.Rewriting.{earlier_of_rewritten};

use crate::editor::addressing::Span;
use crate::editor::blocks::{exchange, split_text};
use crate::editor::course::{Course, uncut_lines};
use crate::editor::past::{Before, Change, Past};
use crate::editor::remembered::Remembered;
use crate::substitution::rewritten;
use bre_match::Searcher;
use ed_syntax::{Replacement, Which};
use line_store::{Line, LineStore};
use std::alloc::{AllocError, Global};

/// The new lines that a line becomes where the matches of a pattern are replaced; `None` where it stays as it is.
fn new_lines_of(
    alloc: Global,
    searcher: &mut Searcher<'_>,
    replacement: &Replacement,
    which: &Which,
    line: &[u8],
) -> Result<Option<Vec<Line>>, AllocError>
    ensures value { (text : List ℕ) → pattern_of text ≡ Ok (searched searcher.old) → IfOk result (λ made.
        option_map (λ lines. lines.items) made ≡ option_map (map plain_line) (made_of text replacement.now which.now line.now)) }
    ensures pattern { searched searcher.new ≡ searched searcher.old }
{
    let made = rewritten(alloc, searcher, replacement, which, line)?;
    let Some(text) = made else {
        return Ok(None);
    };
    let lines = split_text(alloc, text)?;
    Ok(Some(lines))
}

/// Rewrites the lines of a span one by one, and tells the number of the last line that came of it; `None` where each stayed as it
/// was. A line that becomes one line is exchanged for it where it stands.
pub fn rewrite_lines<S: LineStore>(
    alloc: Global,
    pattern: &mut Remembered,
    replacement: &Replacement,
    which: &Which,
    span: Span,
    before: Before,
    store: &mut S,
    past: &mut Past,
) -> Result<Option<usize>, AllocError>
    requires first { 1 ≤ span.first }
    requires order { span.first ≤ span.last }
    requires last { span.last ≤ length (S.lines store.old) }
    ensures made { IfOk result (λ made. made
        ≡ option_map (λ n. span.first - 1 + n) (each (made_of pattern.old replacement.now which.now) (between span.first span.last (S.lines store.old))).1) }
    ensures put { OnOk result (S.lines store.new
        ≡ replaced span.first span.last (each (made_of pattern.old replacement.now which.now) (between span.first span.last (S.lines store.old))).0 (S.lines store.old)) }
    ensures kept { IfOk result (λ made. earlier_of past.new (texts (S.lines store.new))
        ≡ earlier_of_rewritten made before.listed (kept_lines before.current (S.lines store.old)) (earlier_of past.old (texts (S.lines store.old)))) }
    ensures untouched { IfOk result (λ made. IfNone made (S.lines store.new ≡ S.lines store.old)) }
    ensures within { IfOk result (λ made. IfSome made (λ line. (1 ≤ line) × (line ≤ length (S.lines store.new)))) }
    ensures no_fewer { length (S.lines store.old) ≤ length (S.lines store.new) }
    ensures remembered { pattern.new ≡ pattern.old }
{
    let count = store.len();
    let uncut = uncut_lines(span.first - 1, span.last, store)?;
    let mut made = None;
    let learned = pattern.take_learned(alloc);
    let mut searcher = pattern.searcher(learned);
    let word = searcher.needed_word();
    let mut course = Course::of(&uncut, &word, span.first - 1, span.last, store);
    'lines: while let Some(line) = course.next_line() {
        // The lines after this one are as they were, so that its place is counted from the end.
        let place = store.len() - (count - line.place);
        let text = line.text_in(place, store);
        let new = new_lines_of(alloc, &mut searcher, replacement, which, text)?;
        let Some(lines) = new else {
            continue;
        };
        if made.is_none() {
            past.begin(before, store);
        }
        rewrite_line(alloc, place, lines, store, past)?;
        made = Some(store.len() - (count - line.place - 1));
    }
    let learned = searcher.leave();
    pattern.put_back(learned);
    Ok(made)
}

/// Puts new lines in place of one, as one more change of a command.
fn rewrite_line<S: LineStore>(
    alloc: Global,
    place: usize,
    lines: Vec<Line>,
    store: &mut S,
    past: &mut Past,
) -> Result<(), AllocError>
    requires place { place < length (S.lines store.old) }
    requires fits { place < 2 ^ 64 - 1 }
    requires new { AreNew lines.items }
    ensures put { OnOk result (S.lines store.new ≡ exchanged place (place + 1) lines.items (S.lines store.old)) }
    ensures counted { OnOk result (length (S.lines store.new) + 1 ≡ length (S.lines store.old) + length lines.items) }
    ensures kept { OnOk result (earlier_of past.new (texts (S.lines store.new)) ≡ earlier_of past.old (texts (S.lines store.old))) }
    ensures unchanged { OnErr result (S.lines store.new ≡ S.lines store.old) }
{
    past.reserve()?;
    let entered = lines.len();
    let removed = exchange(alloc, place, place + 1, lines, store)?;
    past.add(Change::Replaced {
        from: place,
        entered,
        removed,
    });
    Ok(())
}
