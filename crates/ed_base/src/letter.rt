//! The letters that mark lines.
ghost use Rattle.std.specs.Prelude.{ℕ, ◌≡◌, ◌<◌, ◌≤◌, ◌↔◌, List, Some, map, count_by};
ghost use Rattle.ed_base.specs.Buffer.{Line, plain_line, has_letter, letter_of, marked_at, AtMostOnce, KnowLetters};

use std::marker::Model;

/// One of the letters `a` to `z`. Contracts see it as its place among them: `a` is 0.
#[derive(Clone, Copy, Debug, PartialEq, Eq)]
pub struct Letter {
    place: u8,
}

impl Model for Letter {
    ghost use Rattle.std.specs.Prelude.{ℕ, ◌<◌};

    ghost Value = { ℕ };

    ghost view = { λ l. l.place };

    ghost invariant = { λ l. l.place < 26 };

    ghost inverse = { λ n. record { place = n } };
}

impl Letter {
    /// The letter that a byte spells.
    pub fn new(byte: u8) -> Option<Letter>
        ensures exact { result ≡ letter_of byte }
    {
        if byte.is_ascii_lowercase() {
            Some(Letter { place: byte - b'a' })
        } else {
            None
        }
    }

    /// How many letters there are.
    pub const COUNT: usize = 26;

    /// The letter at this place among the letters, from 0. All letters in their order are those at the places from 0 up to
    /// [`Letter::COUNT`].
    pub fn at(place: usize) -> Letter
        requires within { place < 26 }
        ensures value { result ≡ place }
    {
        Letter { place: place as u8 }
    }

    /// The byte that spells it.
    pub fn byte(self) -> u8
        ensures value { letter_of result ≡ Some self }
    {
        b'a' + self.place
    }

    /// Its place among the letters, from 0.
    pub fn place(self) -> usize
        ensures value { result ≡ self }
        ensures within { result < 26 }
    {
        usize::from(self.place)
    }
}

/// Lines without letters, and lines of which one has been marked: a letter marks one of them at most, and of each it is known
/// which of the 26 letters mark it.
pub fn marking_keeps_letters()
    ensures known_at_first { (texts : List (List ℕ)) → KnowLetters (map plain_line texts) }
    ensures known { (place letter : ℕ) (lines : List Line) → KnowLetters lines → KnowLetters (marked_at place letter lines) }
    ensures once { (place letter : ℕ) (lines : List Line) → AtMostOnce lines → AtMostOnce (marked_at place letter lines) }
{}

/// That a letter marks one line at most can be told by counts, which are sums over the parts of a list.
pub fn letters_are_counted()
    ensures plain { (texts : List (List ℕ)) (letter : ℕ) → count_by (has_letter letter) (map plain_line texts) ≡ 0 }
    ensures once { (lines : List Line) → AtMostOnce lines ↔ ((letter : ℕ) → count_by (has_letter letter) lines ≤ 1) }
{}
