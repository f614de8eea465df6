//! The letters that surely mark a line.

ghost use Rattle.std.specs.Prelude.{◌≡◌, true, false, length, slice_set, IsTrue, ◌↔◌};
ghost use Rattle.ed_rules.specs.Marks.{is_sure, no_marks, both_sure, AreAmong};

use ed_base::Letter;
use std::marker::Model;

/// For each letter whether it surely marks a line.
#[derive(Clone, Copy, PartialEq, Eq, Debug)]
pub struct Marks {
    sure: [bool; Letter::COUNT],
}

impl Model for Marks {
    ghost use Rattle.std.specs.Prelude.{◌≡◌, Bool, List, length};

    ghost Value = { List Bool };

    ghost view = { λ marks. marks.sure };

    ghost invariant = { λ marks. length marks.sure ≡ 26 };

    ghost inverse = { λ sure. record { sure = sure } };
}

impl Marks {
    /// No letter is sure.
    pub fn none() -> Self
        ensures value { result ≡ no_marks }
    {
        Marks {
            sure: [false; Letter::COUNT],
        }
    }

    /// Whether a letter is sure.
    pub fn is_sure(&self, letter: Letter) -> bool
        ensures value { result ≡ is_sure self.now letter }
        ensures well_formed { length self.now ≡ 26 }
    {
        self.sure[letter.place()]
    }

    /// Makes a letter sure.
    pub fn add(&mut self, letter: Letter)
        ensures value { self.new ≡ slice_set self.old letter true }
    {
        self.sure[letter.place()] = true;
    }

    /// Makes a letter unsure.
    pub fn remove(&mut self, letter: Letter)
        ensures value { self.new ≡ slice_set self.old letter false }
    {
        self.sure[letter.place()] = false;
    }

    /// The letters that are sure in both.
    pub fn both(&self, other: &Marks) -> Marks
        ensures value { result ≡ both_sure self.now other.now }
    {
        let mut sure = [false; Letter::COUNT];
        for place in 0..Letter::COUNT {
            sure[place] = self.sure[place] && other.sure[place];
        }
        Marks { sure }
    }

    /// Whether no letter is sure.
    pub(crate) fn are_none(&self) -> bool
        ensures exact { IsTrue result ↔ AreAmong self.now no_marks }
    {
        self.are_among(&Marks::none())
    }

    /// Whether each letter that is sure here is sure in the other.
    pub fn are_among(&self, many: &Marks) -> bool
        ensures exact { IsTrue result ↔ AreAmong self.now many.now }
    {
        for place in 0..Letter::COUNT {
            if self.sure[place] && !many.sure[place] {
                return false;
            }
        }
        true
    }
}
