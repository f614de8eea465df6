//! A pattern that is looked for in many texts.

ghost use Rattle.bre_parse.specs.Bre.{bre_tree};
ghost use Rattle.bre_match.specs.Learning.{Learns, Learns-prop};

use crate::ending::{Found, start_and_end};
use crate::grouping::set_row;
use crate::learned::Learned;
use crate::needed::lacks_needed;
use crate::scan::{Scanned, scan};
use crate::short_word::Word;
use crate::{Match, find, match_here, matches};
use bre_parse::Bre;
use std::alloc::{AllocError, Global};

/// A pattern that is looked for in many texts, with an automaton that fills up while they are searched. What was worked out for one
/// text serves the next ones: take a searcher for the lines of a file or a buffer, and `find` or `matches` for a single text.
///
/// A byte of a text then costs one look into a table, whatever the pattern, and less where bytes that the pattern needs are lacking or
/// far away. Where there is a match, each of its bytes costs one look more, for its end; its groups are read off as by `crate::find`.
/// Without an automaton, in the time of `crate::find` and `crate::matches`, a searcher looks for literal patterns, and for patterns
/// with back-references or with more than 256 byte sets (the turns of counted repeats written out); and so it searches the first 256 bytes,
/// and texts of which too many steps would have to be worked out, since the pattern's states seldom recur.
///
/// There are two automata, for the matches of a text and for the ends of matches. Each has at most 128 states: once they are used up,
/// all but three are forgotten. Its table takes at most 128 KB, and a state 16 bytes for each byte set. After an `Err` a searcher may be
/// used as before: it looks for the same pattern, and all that it has worked out still holds.
///
/// A searcher borrows its pattern. To keep what it has worked out from one search of many texts to the next, let it `leave` when they are
/// searched, and `resume` with that.
#[derive(Drop)]
pub struct Searcher<'a> {
    pattern: &'a Bre,
    learned: Learned,
    ghost learns: { Learns learned (bre_tree pattern.now) } by { Learns-prop learned (bre_tree pattern.now) },
}

impl<'a> Searcher<'a> {
    ghost use Rattle.std.specs.Prelude.{◌≡◌, ◌≤◌, false, IfOk, IfSome, IsOk, IsSome, length, option_map};
    ghost use Rattle.std.specs.Option.{is_some};
    ghost use Rattle.bre_parse.specs.Literal.{literal};
    ghost use Rattle.bre_parse.specs.Match.{match_from};
    ghost use Rattle.bre_match.specs.Answer.{spans, LiesWithin};
    ghost use Rattle.bre_match.specs.Scans.{IsTold};
    ghost use Rattle.bre_match.specs.Searchers.{searched};
    ghost use Rattle.bre_match.specs.Passing.{NeedsWord, word_bytes};

    /// A searcher for a pattern. It takes no memory yet.
    pub fn new(alloc: Global, pattern: &'a Bre) -> Self
        ensures value { searched result ≡ bre_tree pattern.now }
    {
        Self::resume(pattern, Learned::of(alloc, pattern))
    }

    /// A searcher that goes on with what was learned of its pattern, by an earlier searcher or by `Learned::of`. It takes no memory yet.
    pub fn resume(pattern: &'a Bre, learned: Learned) -> Self
        requires learned { Learns learned (bre_tree pattern.now) }
        ensures value { searched result ≡ bre_tree pattern.now }
    {
        Searcher { pattern, learned }
    }

    /// What was learned of the pattern, for a later searcher, also after an `Err`. The pattern isn't borrowed any longer.
    pub fn leave(self) -> Learned
        ensures learned { Learns result (searched self.entry) }
    {
        let Searcher { learned, .. } = self;
        learned
    }

    /// What the automaton tells of the matches at or after a place.
    fn scan(&mut self, text: &[u8], from: usize) -> Result<Scanned, AllocError>
        requires place { from ≤ length text.now }
        ensures told { IfOk result (IsTold (searched self.old) text.now from) }
        ensures pattern { searched self.new ≡ searched self.old }
        ensures plain { IsSome (literal (searched self.old)) → IsOk result }
        ensures kind { self.new.learned.is_plain ≡ self.old.learned.is_plain }
    {
        if self.learned.is_plain {
            return Ok(Scanned::Untold);
        }
        let ahead = text.len() - from;
        if ahead < self.learned.wait {
            self.learned.wait -= ahead;
            return Ok(Scanned::Untold);
        }
        let items = self.pattern.items();
        if self.learned.needs && lacks_needed(items, text, from) {
            return Ok(Scanned::Nowhere);
        }
        let told = scan(
            &mut self.learned.states,
            &mut self.learned.table,
            &mut self.learned.pace,
            items,
            text,
            from,
        )?;
        Ok(told)
    }

    /// A word that each match of the pattern has, an empty one where none is known: `Candidates` pass over much of a text by it.
    pub fn needed_word(&self) -> Word
        ensures needed { NeedsWord (searched self.now) (word_bytes result) }
    {
        self.learned.word
    }

    /// Whether the pattern matches anywhere in a text, as `crate::matches` says it.
    pub fn matches(&mut self, text: &[u8]) -> Result<bool, AllocError>
        ensures value { IfOk result (λ matches. matches ≡ is_some (match_from (searched self.old) text.now 0)) }
        ensures without_memory { IsSome (literal (searched self.old)) → IsOk result }
        ensures pattern { searched self.new ≡ searched self.old }
    {
        let alloc = *self.learned.table.allocator();
        match self.scan(text, 0)? {
            Scanned::Untold => matches(alloc, self.pattern, text),
            Scanned::Nowhere => Ok(false),
            Scanned::From(_) => Ok(true),
        }
    }

    /// The match of the pattern at or after a place, as `crate::find` answers it.
    pub fn find(&mut self, text: &[u8], from: usize) -> Result<Option<Match>, AllocError>
        requires place { from ≤ length text.now }
        ensures value { IfOk result (λ found. option_map spans found ≡ match_from (searched self.old) text.now from) }
        ensures within { IfOk result (λ found. IfSome found (LiesWithin from (length text.now))) }
        ensures without_memory { IsSome (literal (searched self.old)) → IsOk result }
        ensures pattern { searched self.new ≡ searched self.old }
    {
        if self.learned.is_plain {
            return find(*self.learned.table.allocator(), self.pattern, text, from);
        }
        self.find_scanned(text, from)
    }

    /// The match by an automaton. It is apart from `find`, so that a literal pattern doesn't pay for its locals.
    fn find_scanned(&mut self, text: &[u8], from: usize) -> Result<Option<Match>, AllocError>
        requires place { from ≤ length text.now }
        requires general { self.old.learned.is_plain ≡ false }
        ensures value { IfOk result (λ found. option_map spans found ≡ match_from (searched self.old) text.now from) }
        ensures within { IfOk result (λ found. IfSome found (LiesWithin from (length text.now))) }
        ensures pattern { searched self.new ≡ searched self.old }
    {
        let alloc = *self.learned.table.allocator();
        match self.scan(text, from)? {
            Scanned::Untold => find(alloc, self.pattern, text, from),
            Scanned::Nowhere => Ok(None),
            Scanned::From(start) => self.find_after(text, start),
        }
    }

    /// The match at or after a place, where one is known to be there: its end by a run from its start, and its groups between both.
    fn find_after(&mut self, text: &[u8], from: usize) -> Result<Option<Match>, AllocError>
        requires place { from ≤ length text.now }
        requires general { self.old.learned.is_plain ≡ false }
        ensures value { IfOk result (λ found. option_map spans found ≡ match_from (searched self.old) text.now from) }
        ensures within { IfOk result (λ found. IfSome found (LiesWithin from (length text.now))) }
        ensures pattern { searched self.new ≡ searched self.old }
    {
        let alloc = *self.learned.table.allocator();
        let items = self.pattern.items();
        if self.learned.is_told {
            if let Some(found) = match_here(alloc, items, text, from)? {
                return Ok(Some(found));
            }
        }
        let span = start_and_end(
            &mut self.learned.end_states,
            &mut self.learned.end_table,
            &mut self.learned.end_pace,
            items,
            text,
            from,
        )?;
        match span {
            Found::NotBefore(start) => find(alloc, self.pattern, text, start),
            Found::At(start, end) => {
                let mut groups = [None; 9];
                set_row(&mut groups, alloc, items, text, start, end)?;
                Ok(Some(Match { start, end, groups }))
            }
        }
    }
}
