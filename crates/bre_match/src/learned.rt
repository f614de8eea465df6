//! What a searcher has worked out for its pattern, apart from the pattern.

ghost use Rattle.std.specs.Prelude.{◌≡◌, false, true, IsSome};
ghost use Rattle.bre_parse.specs.Bre.{bre_tree};
ghost use Rattle.bre_parse.specs.Groups.{refers};
ghost use Rattle.bre_parse.specs.Literal.{literal};

use crate::grouping::all_groupless;
use crate::needed::needs_ranges;
use crate::needed_word::needed_word;
use crate::pace::Pace;
use crate::row::{has_wide_states, is_told_in_order};
use crate::short_word::Word;
use crate::state::State;
use bre_parse::Bre;
use std::alloc::Global;

// How many bytes are searched before an automaton is made: the steps for its first line cost as much as some hundred bytes do by columns.
const FIRST_BYTES: usize = 256;

/// What a `Searcher` has worked out for its pattern: two automata, as far as they have been filled up. It borrows nothing, so that it
/// may be kept beside the pattern from one search of many texts to the next: `Searcher::resume` takes it, and `Searcher::leave` hands it
/// back.
///
/// It serves only the pattern for which it was made. A new one takes no memory; one that was filled up holds all the memory of its
/// searcher until it is dropped.
#[derive(Drop)]
pub struct Learned {
    // Whether the pattern is looked for in each text by itself, without an automaton.
    pub(crate) is_plain: bool,
    // Whether a match with groups is told soonest item by item, from its start.
    pub(crate) is_told: bool,
    // Whether a text is first searched for the bytes that the pattern needs.
    pub(crate) needs: bool,
    pub(crate) states: Vec<State>,
    pub(crate) table: Vec<u16>,
    pub(crate) pace: Pace,
    // The same for the ends of matches, by runs from a start.
    pub(crate) end_states: Vec<State>,
    pub(crate) end_table: Vec<u16>,
    pub(crate) end_pace: Pace,
    // How many bytes are still searched without an automaton.
    pub(crate) wait: usize,
    // A word that each match has, an empty one where none is known.
    pub(crate) word: Word,
}

impl Learned {
    ghost use Rattle.bre_match.specs.Learning.{Learns};

    /// What is known of a pattern before the first text. It takes no memory yet.
    pub fn of(alloc: Global, pattern: &Bre) -> Self
        ensures learned { Learns result (bre_tree pattern.now) }
    {
        let items = pattern.items();
        Learned {
            is_plain: is_plain(pattern),
            is_told: !all_groupless(items) && is_told_in_order(items),
            needs: needs_ranges(items),
            states: Vec::new(alloc),
            table: Vec::new(alloc),
            pace: Pace::first(items),
            end_states: Vec::new(alloc),
            end_table: Vec::new(alloc),
            end_pace: Pace::first(items),
            wait: FIRST_BYTES,
            word: needed_word(items),
        }
    }
}

/// Whether a pattern is looked for in each text by itself, without an automaton.
fn is_plain(pattern: &Bre) -> bool
    ensures free { result ≡ false → refers (bre_tree pattern.now) ≡ false }
    ensures word { IsSome (literal (bre_tree pattern.now)) → result ≡ true }
{
    if pattern.literal().is_some() {
        return true;
    }
    if pattern.refers() {
        return true;
    }
    let items = pattern.items();
    has_wide_states(items)
}
