//! The lines of a store in a row, of which those may be passed over that a pattern can't match.
ghost use Rattle.std.specs.Prelude.{◌≡◌, ◌+◌, ◌<◌, ◌≤◌, ◌^◌, length, IfOk, IfSome};
ghost use Rattle.ed_base.specs.Buffer.{texts};
ghost use Rattle.ed_base.specs.Lines.{lines_of};
ghost use Rattle.line_store.specs.Uncut.{StandUncut};

use crate::editor::first_line::likely_line;
use bre_match::{Candidates, Word};
use line_store::{LineStore, UncutLines};
use std::alloc::AllocError;

/// The lines of a store from a place up to another. Those that are cut come one by one. Of those that aren't, which stand in one text, the
/// ones that can't match aren't looked at one by one.
#[derive(Drop)]
pub struct Course<'a> {
    candidates: Candidates<'a>,
    // The next line,
    at: usize,
    // the first one that isn't cut,
    cut: usize,
    // and the bytes of those from there on.
    rest: &'a [u8],
    // How many of those come one by one, since many lines next to each other may match.
    near: usize,
    ghost order: { at ≤ cut },
    ghost fits: { cut + length (lines_of rest.now) < 2 ^ 64 },
}

/// A line that may match.
#[derive(Drop)]
pub struct LikelyLine<'a> {
    pub place: usize,
    // Its text, if it isn't cut.
    text: Option<&'a [u8]>,
}

impl<'a> LikelyLine<'a> {
    ghost use Rattle.std.specs.Prelude.{[], slice_index_or, MatchOption};
    ghost use Rattle.ed_base.specs.Buffer.{plain_line};

    /// Its text, if it stands in a store at this place.
    pub fn text_in<S: LineStore>(&self, place: usize, store: &'a S) -> &'a [u8]
        requires place { place < length (S.lines store.now) }
        ensures value { MatchOption self.now.text (result.now ≡ (slice_index_or (S.lines store.now) place (plain_line [])).bytes) (λ text. result.now ≡ text.now) }
    {
        match self.text {
            Some(text) => text,
            None => store.text(place),
        }
    }
}

/// Makes ready to go over the lines of a store from a place up to another, and gives those that aren't cut. Where all that follow are gone
/// over, none is cut but those before them. An `Err` comes where there is no memory, and then, too, the lines are the same.
pub fn uncut_lines<S: LineStore>(
    from: usize,
    to: usize,
    store: &mut S,
) -> Result<Option<UncutLines>, AllocError>
    ensures texts { IfOk result (λ uncut. IfSome uncut (StandUncut (texts (S.lines store.new)))) }
    ensures unchanged { S.lines store.new ≡ S.lines store.old }
{
    let cut = if to == store.len() { from } else { to };
    store.open(cut)?;
    store.uncut()
}

impl<'a> Course<'a> {
    ghost use Rattle.std.specs.Prelude.{ℕ, List, [], slice_index_or, IfNone};
    ghost use Rattle.bre_parse.specs.Tree.{Tree};
    ghost use Rattle.bre_match.specs.Passing.{NeedsWord, word_bytes};
    ghost use Rattle.ed_commands.specs.Courses.{GoesOver, NoneFrom, end_of, word_of};

    /// Over the lines of a store from a place up to another. Lines that aren't cut are passed over only where all that follow are gone
    /// over, so that nothing is looked at beyond them.
    pub fn of<S: LineStore>(
        uncut: &'a Option<UncutLines>,
        word: &'a Word,
        from: usize,
        to: usize,
        store: &S,
    ) -> Self
        requires order { from ≤ to }
        requires last { to ≤ length (S.lines store.now) }
        requires texts { IfSome uncut.now (StandUncut (texts (S.lines store.now))) }
        ensures over { GoesOver result (texts (S.lines store.now)) }
        ensures from { result.at ≡ from }
        ensures to { end_of result ≡ to }
        ensures word { word_of result ≡ word_bytes word.now }
    {
        let candidates = Candidates::of(word);
        match uncut {
            Some(uncut) if from <= uncut.before && to == store.len() => Course {
                candidates,
                at: from,
                cut: uncut.before,
                rest: uncut.file.as_slice(),
                near: 0,
            },
            _ => Course {
                candidates,
                at: from,
                cut: to,
                rest: &[],
                near: 0,
            },
        }
    }

    /// The next line that may match: none of those that are passed over does. None where none of those that are left does. It takes no
    /// memory.
    pub fn next_line(&mut self) -> Option<LikelyLine<'a>>
        ensures end { end_of self.new ≡ end_of self.old }
        ensures word { word_of self.new ≡ word_of self.old }
        ensures order { IfSome result (λ line. (self.old.at ≤ line.place) × (line.place < end_of self.old) × (self.new.at ≡ line.place + 1)) }
        ensures none { (tree : Tree) (texts : List (List ℕ)) → NeedsWord tree (word_of self.old) → GoesOver self.old texts →
            IfNone result (NoneFrom tree texts self.old.at (end_of self.old)) }
        ensures passed { (tree : Tree) (texts : List (List ℕ)) → NeedsWord tree (word_of self.old) → GoesOver self.old texts →
            IfSome result (λ line. NoneFrom tree texts self.old.at line.place) }
        ensures over { (texts : List (List ℕ)) → GoesOver self.old texts → IfSome result (λ _. GoesOver self.new texts) }
        ensures text { (texts : List (List ℕ)) → GoesOver self.old texts → IfSome result (λ line.
            IfSome line.text (λ text. text.now ≡ slice_index_or texts line.place [])) }
    {
        if self.at < self.cut {
            let place = self.at;
            self.at += 1;
            return Some(LikelyLine { place, text: None });
        }
        let found = likely_line(&mut self.near, &self.candidates, self.rest)?;
        let place = self.cut + found.before;
        self.at = place + 1;
        self.cut = place + 1;
        self.rest = found.rest;
        Some(LikelyLine {
            place,
            text: Some(found.line),
        })
    }
}
