//! How a scan goes through a text: what it may spend on transitions that have to be worked out, and when it passes over bytes unseen.

ghost use Rattle.std.specs.Prelude.{◌≡◌, ◌≤◌, ◌<◌, false, length, nat_eq};
ghost use Rattle.bre_parse.specs.Tree.{sequence_of};
ghost use Rattle.bre_parse.specs.Match.{match_from};

use crate::needed::{begins_with_range, first_start};
use crate::start::begins_at_start;
use bre_parse::tree::Node;

// What a transition costs that has to be worked out, in bytes that are scanned by the table.
const PRICE: usize = 32;

// The credit before the first byte.
const FIRST_CREDIT: usize = 100_000;

// How many bytes a jump has to pass over to be worth its while.
const LEAST_JUMP: usize = 16;

// How many bytes are scanned after a jump that wasn't.
const REST: usize = 128;

// How many bytes are scanned after one that was, or where the state has marks.
const PAUSE: usize = 8;

/// What is counted from one text to the next. Each byte of a text brings one of credit, which pays for transitions that have to be
/// worked out, so that a pattern whose states seldom recur isn't scanned for long.
#[derive(Clone, Copy)]
pub(crate) struct Pace {
    credit: usize,
    // The place in the text up to which bytes were counted.
    counted: usize,
    // The first place from which bytes may be passed over.
    jump: usize,
}

impl Pace {
    /// For a pattern of these items, before the first text. No place to jump from is reached where nothing tells the bytes with which
    /// a match may begin.
    pub(crate) fn first(items: &[Node]) -> Self {
        let jumps = begins_at_start(items) || begins_with_range(items);
        Pace {
            credit: FIRST_CREDIT,
            counted: 0,
            jump: if jumps { 0 } else { usize::MAX },
        }
    }

    /// For a scan that begins at a place of another text.
    pub(crate) fn begun(self, from: usize) -> Self {
        Pace {
            credit: self.credit,
            counted: from,
            jump: self.jump.saturating_add(from),
        }
    }

    /// For the next text, after a scan that ended at this place.
    pub(crate) fn ended(self, place: usize) -> Self {
        Pace {
            credit: self.left(place),
            counted: 0,
            jump: self.jump.saturating_sub(place),
        }
    }

    /// What is left of the credit at a place.
    fn left(self, place: usize) -> usize {
        self.credit
            .saturating_add(place.saturating_sub(self.counted))
    }

    /// Pays for a transition at a place, if enough is left.
    pub(crate) fn pay(&mut self, place: usize) -> bool {
        let credit = self.left(place);
        self.credit = credit.saturating_sub(PRICE);
        self.counted = place;
        credit >= PRICE
    }

    /// The place before which a scan goes from byte to byte, without asking where it goes on: up to there no jump is due, and the text
    /// doesn't end.
    #[inline(always)]
    pub(crate) fn plain_until(&self, text: &[u8]) -> usize
        requires some { 0 < length text.now }
        ensures within { result < length text.now }
    {
        self.jump.min(text.len()).saturating_sub(1)
    }

    /// Where a scan goes on that came to a state at a place: there, or at a later place, where the state has no marks and no start
    /// before it leads on. A byte costs one comparison, and the state is looked at where it is due: it can't be foretold.
    #[inline(always)]
    pub(crate) fn next_place(
        &mut self,
        items: &[Node],
        text: &[u8],
        place: usize,
        state: usize,
    ) -> usize
        requires place { place ≤ length text.now }
        requires later { 0 < place }
        ensures after { place ≤ result }
        ensures within { result ≤ length text.now }
        ensures stays { nat_eq state 1 ≡ false → result ≡ place }
        ensures same { match_from (sequence_of items.now) text.now result ≡ match_from (sequence_of items.now) text.now place }
    {
        if place < self.jump {
            place
        } else {
            self.jumped(items, text, place, state)
        }
    }

    /// Where a jump from a place leads, which needs a state without marks.
    #[inline(never)]
    fn jumped(&mut self, items: &[Node], text: &[u8], place: usize, state: usize) -> usize
        requires place { place ≤ length text.now }
        requires later { 0 < place }
        ensures after { place ≤ result }
        ensures within { result ≤ length text.now }
        ensures stays { nat_eq state 1 ≡ false → result ≡ place }
        ensures same { match_from (sequence_of items.now) text.now result ≡ match_from (sequence_of items.now) text.now place }
    {
        if state != 1 {
            self.jump = place.saturating_add(PAUSE);
            return place;
        }
        let start = later_start(items, text, place);
        let rest = if start - place < LEAST_JUMP {
            REST
        } else {
            PAUSE
        };
        self.jump = start.saturating_add(rest);
        start
    }
}

/// The first start from a place after the text's start on that may have a way, as far as the first item tells.
fn later_start(items: &[Node], text: &[u8], place: usize) -> usize
    requires place { place ≤ length text.now }
    requires later { 0 < place }
    ensures after { place ≤ result }
    ensures within { result ≤ length text.now }
    ensures same { match_from (sequence_of items.now) text.now result ≡ match_from (sequence_of items.now) text.now place }
{
    if begins_at_start(items) {
        text.len()
    } else {
        first_start(items, text, place)
    }
}
