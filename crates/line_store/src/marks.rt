//! Where the lines are that letters mark.
ghost use Rattle.std.specs.Prelude.{◌≡◌, ◌+◌, ◌-◌, ◌<◌, ◌≤◌, ◌^◌, ◌↔◌, Some, None, length, replicate, slice_index_or, slice_set, IsTrue};
ghost use Rattle.ed_base.specs.Buffer.{no_letters};
ghost use Rattle.line_store.specs.Marks.{AllBelow, lettered, letters_at, marks_of};
ghost use Rattle.line_store.specs.Shifts.{below, closed, opened, place_swapped, places_below, places_exchanged, places_swapped, with_line, without_line};

use crate::LineStore;
use ed_base::Letter;
use std::marker::Model;

/// How many letters there are.
pub(crate) const LETTERS: usize = 26;

/// For each letter the place of the line that it marks, counted from 0.
#[derive(Drop)]
pub struct Marks {
    places: [Option<usize>; LETTERS],
    // Where this is true no letter marks a line, and a line that comes in or goes out costs no look at the places. Where it is
    // false there may be none all the same.
    unused: bool,
}

impl Model for Marks {
    ghost use Rattle.std.specs.Prelude.{ℕ, ◌≡◌, IsTrue, List, None, Option, length, replicate};

    ghost Value = { List (Option ℕ) };

    ghost view = { λ m. m.places };

    ghost invariant = { λ m. (length m.places ≡ 26) × (IsTrue m.unused → m.places ≡ replicate 26 None) };
}

/// Whether none of these letters is set.
fn has_no_letters(letters: &[bool; LETTERS]) -> bool
    ensures exact { IsTrue result ↔ (letters.now ≡ no_letters) }
{
    *letters == [false; LETTERS]
}

/// Whether no letter has a place here.
fn has_no_places(places: &[Option<usize>; LETTERS]) -> bool
    ensures exact { IsTrue result ↔ (places.now ≡ replicate 26 None) }
{
    *places == [None; LETTERS]
}

/// Where a letter is after the line at a place has given way to one that comes with it or without it.
fn place_passed_on(at: usize, comes: bool, place: Option<usize>) -> Option<usize>
    ensures value { result ≡ opened at comes (closed at place) }
{
    match place {
        _ if comes => Some(at),
        Some(old) if old == at => None,
        _ => place,
    }
}

/// Where a letter is after the lines from place `low` up to `middle` and those from there up to `high` have changed places.
fn place_swapped(low: usize, middle: usize, high: usize, place: Option<usize>) -> Option<usize>
    requires first { low ≤ middle }
    requires second { middle ≤ high }
    ensures value { result ≡ place_swapped low middle high place }
{
    match place {
        Some(other) if other < low => place,
        Some(other) if other < middle => Some(other + (high - middle)),
        Some(other) if other < high => Some(other - (middle - low)),
        _ => place,
    }
}

/// Where a letter is, if that is one of the first `count` lines.
fn place_among(count: usize, place: Option<usize>) -> Option<usize>
    ensures value { result ≡ below count place }
{
    match place {
        Some(other) if count <= other => None,
        _ => place,
    }
}

impl Marks {
    /// No letter marks a line.
    pub fn none() -> Self
        ensures value { result ≡ replicate 26 None }
    {
        Marks {
            places: [None; LETTERS],
            unused: true,
        }
    }

    /// The places of the letters in a store.
    pub fn of<S: LineStore>(store: &S) -> Self
        ensures value { result ≡ marks_of (S.lines store.now) }

        // The lines have just the letters whose places these are.
        ensures own { lettered result 0 (S.lines store.now) ≡ S.lines store.now }
        ensures places { AllBelow (length (S.lines store.now)) result }
    {
        let mut marks = Marks::none();
        for place in 0..26 {
            if let Some(letter) = Letter::new(b'a' + place) {
                if let Some(line) = store.marked(letter) {
                    marks.set(letter, line);
                }
            }
        }
        marks
    }

    /// The place of a letter's line.
    pub fn place_of(&self, letter: Letter) -> Option<usize>
        ensures value { result ≡ slice_index_or self.now letter None }
        ensures letter { letter < 26 }
    {
        self.places[letter.place()]
    }

    /// The same places once more.
    pub(crate) fn copy(&self) -> Self
        ensures value { result ≡ self.now }
    {
        Marks {
            places: self.places,
            unused: self.unused,
        }
    }

    /// The same places, of the first `count` lines.
    pub(crate) fn among(&self, count: usize) -> Self
        ensures value { result ≡ places_below count self.now }
    {
        let mut marks = self.copy();
        if marks.unused {
            return marks;
        }
        for letter in 0..LETTERS {
            marks.places[letter] = place_among(count, marks.places[letter]);
        }
        marks.unused = has_no_places(&marks.places);
        marks
    }

    /// The letter marks the line at this place, and no other.
    pub(crate) fn set(&mut self, letter: Letter, place: usize)
        ensures value { self.new ≡ slice_set self.old letter (Some place) }
        ensures letter { letter < 26 }
        ensures count { length self.old ≡ 26 }
    {
        self.places[letter.place()] = Some(place);
        self.unused = false;
    }

    /// The lines from place `low` up to `middle` and those from there up to `high` have changed places.
    pub(crate) fn swap_places(&mut self, low: usize, middle: usize, high: usize)
        requires first { low ≤ middle }
        requires second { middle ≤ high }
        ensures value { self.new ≡ places_swapped low middle high self.old }
    {
        if self.unused {
            return;
        }
        for letter in 0..LETTERS {
            self.places[letter] = place_swapped(low, middle, high, self.places[letter]);
        }
    }

    /// The lines from place `from` up to `to` of so many have given way to others, which no letter marks.
    pub(crate) fn exchange_places(&mut self, from: usize, to: usize, count: usize, entered: usize)
        requires order { from ≤ to }
        requires last { to ≤ count }
        requires room { count - (to - from) + entered < 2 ^ 64 }
        ensures value { self.new ≡ places_exchanged from to count entered self.old }
    {
        if self.unused {
            return;
        }
        let left = count - (to - from);
        self.swap_places(from, to, count);
        *self = self.among(left);
        self.swap_places(from, left, left + entered);
    }

    /// Whether no letter is known to mark a line, and none of these is set.
    fn none_with(&self, letters: &[bool; LETTERS]) -> bool
        ensures places { IsTrue result → self.now ≡ replicate 26 None }
        ensures letters { IsTrue result → letters.now ≡ no_letters }
    {
        self.unused && has_no_letters(letters)
    }

    /// The line at this place has given way to one that these letters mark, and those of the old one are told.
    pub(crate) fn pass_on(&mut self, at: usize, letters: &[bool; LETTERS]) -> [bool; LETTERS]
        ensures letters { result ≡ letters_at at self.old }
        ensures value { self.new ≡ with_line at letters.now (without_line at self.old) }
    {
        let mut before = [false; LETTERS];
        if self.none_with(letters) {
            return before;
        }
        for letter in 0..LETTERS {
            before[letter] = self.places[letter] == Some(at);
            self.places[letter] = place_passed_on(at, letters[letter], self.places[letter]);
        }
        self.unused = has_no_places(&self.places);
        before
    }
}
