//! Where a basic regular expression matches a text (XBD 9.3).
#![tactic(auto)]

ghost use Rattle.std.specs.Prelude.{◌≡◌, ◌≤◌, Some, IfOk, IfSome, IsOk, IsSome, length, option_map};
ghost use Rattle.std.specs.Option.{is_some};
ghost use Rattle.bre_parse.specs.Tree.{sequence_of};
ghost use Rattle.bre_parse.specs.Bre.{bre_tree};
ghost use Rattle.bre_parse.specs.Literal.{literal};
ghost use Rattle.bre_parse.specs.Match.{match_from};
ghost use Rattle.bre_match.specs.Answer.{spans, LiesWithin};

mod ahead;
mod alike;
mod asked;
mod automaton;
mod backwards;
mod candidates;
mod column;
mod ending;
mod grouping;
mod index;
mod join;
mod kinds;
pub mod laws;
mod learned;
mod left;
mod listed;
mod narrow;
mod needed;
mod needed_word;
mod order;
mod outlook;
mod pace;
mod prospect;
mod row;
mod row_end;
mod row_search;
mod run;
mod scan;
mod search;
mod searcher;
mod seen;
mod short_word;
mod span;
mod spread;
mod start;
mod state;
mod table;
mod transition;
mod turn;
mod witness;
mod word;

use crate::asked::asked_groups;
use crate::grouping::set_row;
use crate::join::first_meeting_of_starts;
use crate::needed::{first_start, lacks_needed};
use crate::outlook::Outlook;
use crate::prospect::{is_worth_asking, later_start};
use crate::row::{is_quick_row, is_told_in_order, is_too_wide};
use crate::row_search::{RowMatch, row_match};
use crate::seen::Seen;
use crate::span::span;
use crate::start::{begins_at_start, longest_from, starts_without};
use crate::word::find_word;
use bre_parse::Bre;
use bre_parse::tree::{Groups, Node};
pub use candidates::Candidates;
pub use learned::Learned;
pub use searcher::Searcher;
pub use short_word::Word;
use std::alloc::{AllocError, Global};
pub use witness::{Answer, Witness, find_witness};

/// Where a pattern matches a text.
#[derive(Clone, Copy)]
pub struct Match {
    /// The place of the first byte, counted from 0.
    pub start: usize,
    /// The place after the last byte.
    pub end: usize,
    /// For each of the first nine groups, where it begins and ends, if it is set.
    pub groups: Groups,
}

/// The match of a pattern at or after a place: of the starts from there on the first that has a way, and there the
/// first of the ways that end last (XBD 9.1). None where no start from there on has a way.
pub fn find(
    alloc: Global,
    pattern: &Bre,
    text: &[u8],
    from: usize,
) -> Result<Option<Match>, AllocError>
    requires place { from ≤ length text.now }
    ensures value { IfOk result (λ found. option_map spans found ≡ match_from (bre_tree pattern.now) text.now from) }
    ensures within { IfOk result (λ found. IfSome found (LiesWithin from (length text.now))) }

    // A literal pattern takes no memory.
    ensures without_memory { IsSome (literal (bre_tree pattern.now)) → IsOk result }
{
    match pattern.literal() {
        Some(word) => Ok(find_word(word, text, from)),
        None => find_items(alloc, pattern, text, from),
    }
}

/// The match of a pattern by its items. It is apart from `find`, so that a literal pattern doesn't pay for its many locals.
fn find_items(
    alloc: Global,
    pattern: &Bre,
    text: &[u8],
    from: usize,
) -> Result<Option<Match>, AllocError>
    requires place { from ≤ length text.now }
    ensures value { IfOk result (λ found. option_map spans found ≡ match_from (bre_tree pattern.now) text.now from) }
    ensures within { IfOk result (λ found. IfSome found (LiesWithin from (length text.now))) }
{
    let items = pattern.items();
    let refers = pattern.refers();
    if refers || is_quick_row(items) {
        return first_match(alloc, items, text, from, refers);
    }
    if is_told_in_order(items) {
        if let Some(found) = match_here(alloc, items, text, from)? {
            return Ok(Some(found));
        }
    }
    if is_too_wide(items) {
        return first_match(alloc, items, text, from, true);
    }
    match span(alloc, items, text, from)? {
        None => Ok(None),
        Some((start, end)) => {
            let mut groups = [None; 9];
            set_row(&mut groups, alloc, items, text, start, end)?;
            Ok(Some(Match { start, end, groups }))
        }
    }
}

/// Whether a pattern matches anywhere in a text.
pub fn matches(alloc: Global, pattern: &Bre, text: &[u8]) -> Result<bool, AllocError>
    ensures value { IfOk result (λ matches. matches ≡ is_some (match_from (bre_tree pattern.now) text.now 0)) }
    ensures without_memory { IsSome (literal (bre_tree pattern.now)) → IsOk result }
{
    match pattern.literal() {
        Some(word) => Ok(find_word(word, text, 0).is_some()),
        None => matches_items(alloc, pattern, text),
    }
}

/// Whether a pattern matches anywhere in a text, by its items.
fn matches_items(alloc: Global, pattern: &Bre, text: &[u8]) -> Result<bool, AllocError>
    ensures value { IfOk result (λ matches. matches ≡ is_some (match_from (bre_tree pattern.now) text.now 0)) }
{
    let items = pattern.items();
    let is_quick = is_quick_row(items);
    if is_quick || is_too_wide(items) || pattern.refers() {
        let found = first_match(alloc, items, text, 0, !is_quick)?;
        return Ok(found.is_some());
    }
    let found = span(alloc, items, text, 0)?;
    Ok(found.is_some())
}

/// The match that starts at this very place, if there is one: with its groups, which cost a second look where a match is searched by
/// columns.
fn match_here(
    alloc: Global,
    items: &[Node],
    text: &[u8],
    from: usize,
) -> Result<Option<Match>, AllocError>
    requires place { from ≤ length text.now }
    ensures value { IfOk result (λ found. IfSome found (λ m. Some (spans m) ≡ match_from (sequence_of items.now) text.now from)) }
    ensures within { IfOk result (λ found. IfSome found (LiesWithin from (length text.now))) }
{
    let asked = asked_groups(items);
    let mut left = Vec::new(alloc);
    let mut seen = Seen::new(alloc);
    match longest_from(
        &mut left,
        &mut seen,
        alloc,
        items,
        &asked,
        usize::MAX,
        text,
        from,
    )? {
        Some(way) => {
            let end = way.0;
            let groups = way.1;
            Ok(Some(Match {
                start: from,
                end,
                groups,
            }))
        }
        None => Ok(None),
    }
}

// No more ways than these are kept in mind from one start to the next, which costs memory.
const MOST_SEEN: usize = 100_000;

/// The first match in a text of items one after another, from one start after another. A way that is like one that was taken up from an
/// earlier start, where ways may meet, leads to no match and isn't taken up again.
fn searched_match(
    alloc: Global,
    items: &[Node],
    text: &[u8],
    from: usize,
    may_meet: bool,
) -> Result<Option<Match>, AllocError>
    requires place { from ≤ length text.now }
    ensures value { IfOk result (λ found. option_map spans found ≡ match_from (sequence_of items.now) text.now from) }
    ensures within { IfOk result (λ found. IfSome found (LiesWithin from (length text.now))) }
{
    let asked = asked_groups(items);
    let met = first_meeting_of_starts(items, &asked, may_meet);
    let mut left = Vec::new(alloc);
    let mut seen = Seen::new(alloc);
    let mut outlook = Outlook::new(alloc, items, &asked);
    let mut is_told = is_worth_asking(items, &asked);
    let mut start = first_start(items, text, from);
    while start <= text.len() {
        seen.keep_at_most(MOST_SEEN);
        match outlook.longest_from(&mut left, &mut seen, alloc, items, &asked, met, text, start)? {
            Some(way) => {
                let end = way.0;
                let groups = way.1;
                return Ok(Some(Match { start, end, groups }));
            }
            None => {
                let next = start + (1 + starts_without(items, text, start));
                start = later_start(&mut is_told, alloc, items, text, &asked, next)?;
            }
        }
    }
    Ok(None)
}

/// The first match in a text of items one after another. It pays to look where ways may meet, but in a quick row.
fn first_match(
    alloc: Global,
    items: &[Node],
    text: &[u8],
    from: usize,
    may_meet: bool,
) -> Result<Option<Match>, AllocError>
    requires place { from ≤ length text.now }
    ensures value { IfOk result (λ found. option_map spans found ≡ match_from (sequence_of items.now) text.now from) }
    ensures within { IfOk result (λ found. IfSome found (LiesWithin from (length text.now))) }
{
    // Where each match begins at the start of the text, it is found or not with less.
    if !begins_at_start(items) && lacks_needed(items, text, from) {
        return Ok(None);
    }
    match row_match(items, text, from) {
        RowMatch::At(start, end) => {
            let groups = [None; 9];
            Ok(Some(Match { start, end, groups }))
        }
        RowMatch::Nowhere => Ok(None),
        RowMatch::Untold(start) => {
            let found = searched_match(alloc, items, text, start, may_meet)?;
            Ok(found)
        }
    }
}
