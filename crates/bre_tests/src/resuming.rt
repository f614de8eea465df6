//! Searchers that are left and resumed: after each text, with states that are forgotten, and after a refused allocation.

ghost use Rattle.bre_parse.specs.Bre.{bre_tree};
ghost use Rattle.bre_match.specs.Learning.{Learns, Learns-prop};

use crate::matching::{pattern, pattern_unless_refused};
use crate::searching::{REFUSED, ROWS, filler, numbers, refused_text};
use bre_match::{Learned, Match, Searcher};
use bre_parse::Bre;
use std::alloc::{AllocError, Global};
use std::mem;
use std::test::Fail;

// A pattern beside what was learned of it, as a caller keeps both.
#[derive(Drop)]
struct Kept {
    alloc: Global,
    pattern: Bre,
    learned: Learned,
    ghost learns: { Learns learned (bre_tree pattern) } by { Learns-prop learned (bre_tree pattern) },
}

impl Kept {
    fn of(alloc: Global, pattern: Bre) -> Self {
        let learned = Learned::of(alloc, &pattern);
        Kept {
            alloc,
            pattern,
            learned,
        }
    }

    /// What a searcher answers that goes on from what was learned, and is left at once.
    fn matches(&mut self, text: &[u8]) -> Result<bool, AllocError> {
        let fresh = Learned::of(self.alloc, &self.pattern);
        let learned = mem::replace(&mut self.learned, fresh);
        let mut searcher = Searcher::resume(&self.pattern, learned);
        let answer = searcher.matches(text);
        self.learned = searcher.leave();
        answer
    }

    /// The same for the match from a place on. A place past the text's end is taken for its end.
    fn find(&mut self, text: &[u8], from: usize) -> Result<Option<Match>, AllocError> {
        let fresh = Learned::of(self.alloc, &self.pattern);
        let learned = mem::replace(&mut self.learned, fresh);
        let mut searcher = Searcher::resume(&self.pattern, learned);
        let answer = searcher.find(text, from.min(text.len()));
        self.learned = searcher.leave();
        answer
    }
}

#[test]
fn a_resumed_searcher_finds_what_lies_in_each_text(rt: HostRuntime) -> Result<(), Fail> {
    let filler = filler(rt.alloc())?;
    for row in ROWS.as_slice() {
        let pattern = pattern(rt.alloc(), row.pattern)?;
        let mut kept = Kept::of(rt.alloc(), pattern);
        assert!(rt; !kept.matches(&filler)?, "{:?}", row.pattern);
        for text in row.texts.iter().chain(row.texts.iter().rev()) {
            let spans = kept
                .find(text.bytes, text.from)?
                .map(|found| (found.start, found.end));
            assert!(rt;
                spans == text.spans,
                "{:?} on {:?}",
                row.pattern,
                text.bytes
            );
        }
    }
    Ok(())
}

/// What is learned of the numbers uses up all states, more than once.
#[test]
fn a_searcher_is_left_and_resumed_with_all_states_used_up(rt: HostRuntime) -> Result<(), Fail> {
    let pattern = pattern(rt.alloc(), b"a.\\{8\\}b")?;
    let mut kept = Kept::of(rt.alloc(), pattern);
    for round in 0..3u32 {
        let mut text = numbers(rt.alloc())?;
        assert!(rt; !kept.matches(&text)?, "round {}", round);
        text.extend_from_slice(b"accccccccb")?;
        let found = kept.find(&text, 0)?.ok_or("no match")?;
        assert_eq!(rt; (found.start, found.end), (2304, 2314), "round {}", round);
    }
    Ok(())
}

/// To be run with each allocation refused in turn (`rt try --test --fail-alloc N`): what a searcher leaves that ran out of memory serves
/// the next one.
#[test]
fn a_searcher_that_ran_out_of_memory_is_left_and_resumed(rt: HostRuntime) -> Result<(), Fail> {
    for row in REFUSED.as_slice() {
        let Some(pattern) = pattern_unless_refused(rt.alloc(), row.pattern)? else {
            continue;
        };
        let Ok(text) = refused_text(rt.alloc(), row) else {
            continue;
        };
        let mut kept = Kept::of(rt.alloc(), pattern);
        let found = match kept.find(&text, 0) {
            Ok(found) => found,
            Err(AllocError { .. }) => kept.find(&text, 0)?,
        };
        let found = found.ok_or("no match")?;
        assert_eq!(rt; (found.start, found.end), row.spans, "{:?}", row.pattern);
    }
    Ok(())
}
