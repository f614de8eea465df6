//! The turns of a repeat that were taken up, so that none is taken up twice; and the ways of a sequence, by the item that each
//! meets next in place of the turns that are done.

ghost use Rattle.std.specs.Prelude.{◌≡◌, ℕ, ◌<◌, ◌⊎◌, ◌++◌, ◌∷◌, [], IsTrue, OnOk, IfOk, IfSome, None, true, false, length, get_or, drop};
ghost use Rattle.bre_match.specs.Meeting.{AreInRow, HasMet, MayMark, from_place};
ghost use Rattle.bre_match.specs.Runs.{members};
ghost use Rattle.bre_match.specs.Turns.{same_turn, HasTurn, rank};

use crate::alike::{alike, number_of, number_of_groups};
use crate::asked::Asked;
use crate::index::{Index, mixed};
use crate::run::{Way, count_members};
use crate::turn::Bounds;
use bre_parse::tree::ByteSet;
use std::alloc::{AllocError, Global};

/// How many turns were done before one, where it begins and with which groups.
#[derive(Clone, Copy)]
pub(crate) struct Mark {
    pub done: usize,
    pub way: Way,
}

/// The turns that were taken up, and where to look for them.
#[derive(Drop)]
pub(crate) struct Seen {
    pub marks: Vec<Mark>,
    index: Index,
}

/// How many turns are done, as far as what comes after depends on it: where there is no most, more than are needed count as the
/// least that is needed, or as one.
pub(crate) fn rank(bounds: Bounds, done: usize) -> usize
    ensures value { result ≡ rank bounds done }
{
    if bounds.unbounded && bounds.least as usize <= done && 0 < done {
        (bounds.least as usize).max(1)
    } else {
        done
    }
}

/// The numbers by which ways of a sequence are told apart by the items that they meet next.
pub(crate) fn items_apart() -> Bounds
    ensures apart { result.unbounded ≡ false }
{
    Bounds {
        least: 0,
        most: None,
        enough: 0,
        unbounded: false,
    }
}

/// Whether the same ways come of two turns, as far as the groups count that are asked for.
fn same_turn(bounds: Bounds, asked: &Asked, one: &Mark, other: &Mark) -> bool
    ensures value { result ≡ same_turn bounds asked.now one.now other.now }
{
    rank(bounds, one.done) == rank(bounds, other.done) && alike(asked, &one.way, &other.way)
}

/// Whether such a turn is among those that were taken up, as far as the index has them.
fn has_turn(
    marks: &[Mark],
    index: &Index,
    number: usize,
    bounds: Bounds,
    asked: &Asked,
    mark: &Mark,
) -> bool
    ensures sound { IsTrue result → HasTurn bounds asked.now marks.now mark.now }
{
    let mut after = index.last(number);
    while after > 0 {
        if after <= marks.len() && same_turn(bounds, asked, &marks[after - 1], mark) {
            return true;
        }
        after = index.before(after);
    }
    false
}

/// Whether two places lie in one row of bytes of a set, of which there are `more` from the other one on.
fn are_in_row(set: &ByteSet, text: &[u8], one: usize, other: usize, more: usize) -> bool
    requires more { more ≡ members None 0 set.now.negated set.now.ranges.items (drop other text.now) }
    ensures sound { IsTrue result → AreInRow set.now.negated set.now.ranges.items text.now one other }
{
    if one <= other {
        other - one <= count_members(set, None, text, one)
    } else {
        one - other <= more
    }
}

/// Where among those that were taken up a way is that met the same item in one row with this one, as far as the index has them. There are
/// `more` bytes of the set from the way's place on.
fn place_in_row(
    marks: &[Mark],
    index: &Index,
    number: usize,
    asked: &Asked,
    mark: &Mark,
    set: &ByteSet,
    text: &[u8],
    more: usize,
) -> Option<usize>
    requires more { more ≡ members None 0 set.now.negated set.now.ranges.items (drop mark.now.way.0 text.now) }
    ensures within { IfSome result (λ at. at < length marks.now) }
    ensures met { IfSome result (λ at. HasMet asked.now marks.now (from_place (get_or marks.now at mark.now).way.0 mark.now)) }
    ensures row { IfSome result (λ at. AreInRow set.now.negated set.now.ranges.items text.now (get_or marks.now at mark.now).way.0 mark.now.way.0) }
{
    let mut after = index.last(number);
    while after > 0 {
        if after <= marks.len() {
            let done = mark.done;
            let way = (marks[after - 1].way.0, mark.way.1);
            let is_like = same_turn(items_apart(), asked, &marks[after - 1], &Mark { done, way });
            if is_like && are_in_row(set, text, way.0, mark.way.0, more) {
                return Some(after - 1);
            }
        }
        after = index.before(after);
    }
    None
}

impl Seen {
    pub(crate) fn new(alloc: Global) -> Self
        ensures value { result.marks.items ≡ [] }
    {
        Seen {
            marks: Vec::new(alloc),
            index: Index::new(alloc),
        }
    }

    /// Forgets all.
    pub(crate) fn clear(&mut self)
        ensures value { self.new.marks.items ≡ [] }
    {
        self.marks.clear();
        self.index.clear();
    }

    /// Forgets all, where there are more than so many.
    pub(crate) fn keep_at_most(&mut self, most: usize)
        ensures value { (self.new.marks.items ≡ []) ⊎ (self.new.marks.items ≡ self.old.marks.items) }
    {
        if self.marks.len() > most {
            self.clear();
        }
    }

    /// Keeps a mark in mind, to be found by this number.
    fn keep(&mut self, number: usize, mark: Mark) -> Result<(), AllocError>
        ensures value { OnOk result (self.new.marks.items ≡ self.old.marks.items ++ mark ∷ []) }
    {
        self.index.add(number)?;
        self.marks.push(mark)?;
        Ok(())
    }

    /// Whether a turn wasn't taken up before, as far as this is known; it counts as taken up from now on.
    pub(crate) fn is_new(
        &mut self,
        bounds: Bounds,
        asked: &Asked,
        mark: Mark,
    ) -> Result<bool, AllocError>
        ensures taken_up { IfOk result (λ is_new. is_new ≡ true → self.new.marks.items ≡ self.old.marks.items ++ mark ∷ []) }
        ensures seen { IfOk result (λ is_new. is_new ≡ false → (self.new.marks.items ≡ self.old.marks.items) × HasTurn bounds asked.now self.old.marks.items mark) }
    {
        let number = mixed(number_of(asked, &mark.way), rank(bounds, mark.done));
        if has_turn(&self.marks, &self.index, number, bounds, asked, &mark) {
            return Ok(false);
        }
        self.keep(number, mark)?;
        Ok(true)
    }

    /// The place of a way that met the same item in one row of bytes of a set with this one, with the same groups that are asked for, if
    /// one is known. Of the two the one with the earlier place is kept in mind from now on, whose ends are those of both.
    pub(crate) fn met_in_row(
        &mut self,
        asked: &Asked,
        mark: Mark,
        set: &ByteSet,
        text: &[u8],
    ) -> Result<Option<usize>, AllocError>
        ensures met { IfOk result (λ found. IfSome found (λ place. HasMet asked.now self.old.marks.items (from_place place mark))) }
        ensures row { IfOk result (λ found. IfSome found (λ place. AreInRow set.now.negated set.now.ranges.items text.now place mark.way.0)) }
        ensures marked { IfOk result (λ found. MayMark mark self.old.marks.items self.new.marks.items) }
    {
        let place = mark.way.0;
        let more = count_members(set, None, text, place);
        let end = place.saturating_add(more);
        let number = mixed(number_of_groups(asked, end, &mark.way.1), mark.done);
        if let Some(at) = place_in_row(
            &self.marks,
            &self.index,
            number,
            asked,
            &mark,
            set,
            text,
            more,
        ) {
            let met = self.marks[at].way.0;
            if place < met {
                self.marks[at] = mark;
            }
            return Ok(Some(met));
        }
        self.keep(number, mark)?;
        Ok(None)
    }
}
