//! Searches for a line that a pattern matches (XCU ed, "Addresses in ed").
ghost use Rattle.std.specs.Prelude.{ℕ, List, ◌≡◌, ◌+◌, ◌-◌, ◌≤◌, Ok, Some, length, find, IsTrue, IfOk, OnErr, OnOk};
ghost use Rattle.bre_parse.specs.Grammar.{pattern as pattern_of};
ghost use Rattle.bre_match.specs.Searchers.{searched as searched_by};
ghost use Rattle.ed_base.specs.Buffer.{Line};
ghost use Rattle.ed_syntax.specs.meaning.Values.{count_from, matches_line, searched, sought};
ghost use Rattle.ed_commands.specs.Editors.{TellsLine, SameButPattern, with_pattern};
ghost use Rattle.ed_commands.specs.Searches.{around, line_after, lines_in};
ghost use Rattle.ed_commands.specs.declared.editor.searching.Direction.TheVariants as to;

use crate::editor::Editor;
use crate::editor::course::Course;
use crate::editor::remembered::Remembered;
use bre_match::Searcher;
use ed_base::Fault;
use ed_syntax::Pattern;
use line_store::LineStore;
use std::alloc::{AllocError, Global};

/// Which way a search goes. It goes round from the end of the buffer to its beginning, or from there to the end.
#[derive(Clone, Copy, Debug, PartialEq, Eq)]
pub enum Direction {
    Forward,
    Backward,
}

/// The first line that the pattern matches, where a search goes once round from line `from`, which it looks at last.
fn first_match<S: LineStore>(
    alloc: Global,
    pattern: &mut Remembered,
    direction: Direction,
    from: usize,
    store: &S,
) -> Result<Option<usize>, AllocError>
    requires from { from ≤ length (S.lines store.now) }
    ensures value { let last = length (S.lines store.now) in IfOk result (λ found.
        found ≡ find (matches_line pattern.old (S.lines store.now)) (around (line_after direction last) from last)) }
    ensures kept { pattern.new ≡ pattern.old }
{
    let learned = pattern.take_learned(alloc);
    let mut searcher = pattern.searcher(learned);
    let found = match direction {
        Direction::Forward => first_after(&mut searcher, from, store),
        Direction::Backward => first_before(&mut searcher, from, store),
    };
    let learned = searcher.leave();
    pattern.put_back(learned);
    found
}

/// The first line that matches, of those after line `from` and then of those up to it.
fn first_after<S: LineStore>(
    searcher: &mut Searcher<'_>,
    from: usize,
    store: &S,
) -> Result<Option<usize>, AllocError>
    requires from { from ≤ length (S.lines store.now) }
    ensures value { (text : List ℕ) → pattern_of text ≡ Ok (searched_by searcher.old) →
        let last = length (S.lines store.now) in IfOk result (λ found.
        found ≡ find (matches_line text (S.lines store.now)) (around (line_after to.Forward last) from last)) }
    ensures pattern { searched_by searcher.new ≡ searched_by searcher.old }
{
    match first_between(searcher, from, store.len(), store)? {
        Some(line) => Ok(Some(line)),
        None => first_between(searcher, 0, from, store),
    }
}

/// The first line that matches, of those after line `from` up to line `to`.
fn first_between<S: LineStore>(
    searcher: &mut Searcher<'_>,
    from: usize,
    to: usize,
    store: &S,
) -> Result<Option<usize>, AllocError>
    requires order { from ≤ to }
    requires last { to ≤ length (S.lines store.now) }
    ensures value { (text : List ℕ) → pattern_of text ≡ Ok (searched_by searcher.old) → IfOk result (λ found.
        found ≡ find (matches_line text (S.lines store.now)) (count_from (from + 1) (to - from))) }
    ensures pattern { searched_by searcher.new ≡ searched_by searcher.old }
{
    let uncut = store.uncut()?;
    let word = searcher.needed_word();
    let mut course = Course::of(&uncut, &word, from, to, store);
    'lines: while let Some(line) = course.next_line() {
        let matched = searcher.matches(line.text_in(line.place, store))?;
        if matched {
            return Ok(Some(line.place + 1));
        }
    }
    Ok(None)
}

/// The line that a backward search looks at after this one, in a buffer of so many lines.
fn line_before(line: usize, last: usize) -> usize
    requires some { 1 ≤ last }
    requires within { line ≤ last }
    ensures value { result ≡ line_after to.Backward last line }
    ensures first { 1 ≤ result }
    ensures within { result ≤ last }
{
    if line <= 1 { last } else { line - 1 }
}

/// The first line that matches, of those before line `from`, the last one first, and then of the others.
fn first_before<S: LineStore>(
    searcher: &mut Searcher<'_>,
    from: usize,
    store: &S,
) -> Result<Option<usize>, AllocError>
    requires from { from ≤ length (S.lines store.now) }
    ensures value { (text : List ℕ) → pattern_of text ≡ Ok (searched_by searcher.old) →
        let last = length (S.lines store.now) in IfOk result (λ found.
        found ≡ find (matches_line text (S.lines store.now)) (around (line_after to.Backward last) from last)) }
    ensures pattern { searched_by searcher.new ≡ searched_by searcher.old }
{
    let last = store.len();
    let mut line = from;
    for _ in 0..last {
        line = line_before(line, last);
        let matched = searcher.matches(store.text(line - 1))?;
        if matched {
            return Ok(Some(line));
        }
    }
    Ok(None)
}

/// Whether this pattern is the one that is remembered.
fn is_remembered(remembered: &Option<Remembered>, own: &Pattern) -> bool
    ensures same { IsTrue result → remembered.now ≡ Some own.now }
{
    match remembered {
        Some(remembered) => remembered.pattern() == own,
        None => false,
    }
}

impl<S: LineStore> Editor<S> {
    /// A search remembers its own pattern before it looks for a line; so do other commands that have one.
    pub(crate) fn remember(&mut self, own: &Option<Pattern>) -> Result<(), AllocError>
        ensures remembered { OnOk result (self.new.state.pattern ≡ sought own.now self.old.state) }
        ensures unchanged { OnErr result (self.new ≡ self.old) }
        ensures others { SameButPattern self.old self.new }
    {
        match own {
            Some(pattern) if !is_remembered(&self.pattern, pattern) => {
                self.pattern = Some(Remembered::of(pattern.try_copy()?));
            }
            _ => {}
        }
        Ok(())
    }

    /// `/RE/` or `?RE?`: the first line that matches, of those after the current line or before it, and round to the current
    /// line.
    pub(crate) fn search(
        &mut self,
        direction: Direction,
        own: &Option<Pattern>,
    ) -> Result<usize, Fault>
        ensures exact { TellsLine (searched (sought own.now self.old.state) (lines_in direction self.old.state) self.old.state)
            (with_pattern (sought own.now self.old.state) self.old.state) result self.new.state }
        ensures unchanged { SameButPattern self.old self.new }
    {
        self.remember(own)?;
        // Forward, the lines after the current one aren't cut for the search. After the last one it begins at the first.
        let opened = match direction {
            Direction::Forward if self.current == self.store.len() => 0,
            Direction::Forward => self.current,
            Direction::Backward => usize::MAX,
        };
        self.open_lines(opened)?;
        let Some(pattern) = &mut self.pattern else {
            return Err(Fault::Pattern);
        };
        let found = first_match(self.alloc, pattern, direction, self.current, &self.store)?;
        found.ok_or(Fault::NoMatch)
    }
}
