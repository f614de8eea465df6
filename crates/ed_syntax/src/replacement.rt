//! Replacements, and the matches that they take the place of.
ghost use Rattle.std.specs.Prelude.{◌≡◌, ◌++◌, ◌∷◌, [], suc, IfOk, IfSome, IfNone, OnOk, OnErr};
ghost use Rattle.ed_syntax.specs.PartNumbers.{part_number};

use std::alloc::{AllocError, Global};
use std::marker::Model;

/// A part of a replacement (XCU ed, "Substitute Command").
#[derive(Clone, Copy, Debug)]
pub enum Part {
    /// A byte as itself.
    Literal(u8),
    /// `&`: the match.
    Match,
    /// `\1` to `\9`: what a group matched, nothing where it isn't set. Groups count from 0, which is `\1`.
    Group(u8),
    /// A place where the line is split.
    Split,
}

impl Part {
    /// A number of its own for each part.
    fn number(&self) -> u16
        ensures value { result ≡ part_number self.now }
    {
        match self {
            Part::Literal(byte) => u16::from(*byte),
            Part::Group(group) => 256 + u16::from(*group),
            Part::Match => 512,
            Part::Split => 513,
        }
    }
}

impl PartialEq for Part {
    ghost use Rattle.std.specs.Prelude.{◌==◌};
    ghost use Rattle.std.specs.Ordering.{on};
    ghost use Rattle.std.specs.Cmp.Rules.{comparing};
    ghost use Rattle.std.proofs.Common.{rules};
    ghost use Rattle.ed_syntax.specs.PartNumbers.{part_number};

    ghost eq = { on part_number ◌==◌ };

    ghost laws = { Prim.search (comparing, rules) };

    fn eq(&self, other: &Self) -> bool {
        self.number() == other.number()
    }
}

impl Eq for Part {
    ghost use Rattle.std.specs.Cmp.Rules.{comparing};
    ghost use Rattle.std.proofs.Common.{rules};

    ghost laws = { Prim.search (comparing, rules) };
}

/// The number of a match on a line, which counts from 1. Contracts see it as how many matches stand before that one.
#[derive(Clone, Copy, Debug, PartialEq, Eq)]
pub struct MatchNumber {
    before: u32,
}

impl Model for MatchNumber {
    ghost use Rattle.std.specs.Prelude.{ℕ};

    ghost Value = { ℕ };

    ghost view = { λ n. n.before };

    ghost inverse = { λ n. record { before = n } };
}

impl MatchNumber {
    /// The match of a number; `None` where that is 0.
    pub fn new(number: u32) -> Option<MatchNumber>
        ensures value { IfSome result (λ n. suc n ≡ number) }
        ensures zero { IfNone result (number ≡ 0) }
    {
        match number {
            0 => None,
            _ => Some(MatchNumber { before: number - 1 }),
        }
    }

    /// How many matches stand before it on its line.
    pub fn before(self) -> u32
        ensures value { result ≡ self }
    {
        self.before
    }
}

/// Which of the matches on a line are replaced.
#[derive(Clone, Copy, Debug, PartialEq, Eq)]
pub enum Which {
    First,
    /// The match of this number.
    Nth(MatchNumber),
    All,
}

/// What comes in the place of a match, part by part.
#[derive(Debug, Drop)]
pub struct Replacement {
    parts: Vec<Part>,
}

impl Model for Replacement {
    ghost use Rattle.std.specs.Prelude.{List};
    ghost use Rattle.ed_syntax.specs.declared.replacement.Part.{Part};

    ghost Value = { List Part };

    ghost view = { λ r. r.parts.items };
}

impl Replacement {
    /// A replacement without parts, which leaves nothing of a match. It takes no memory.
    pub fn new(alloc: Global) -> Self
        ensures value { result ≡ [] }
    {
        Replacement {
            parts: Vec::new(alloc),
        }
    }

    /// Its parts in order.
    pub fn parts(&self) -> &[Part]
        ensures value { result.now ≡ self.now }
    {
        self.parts.as_slice()
    }

    /// Appends a part.
    pub fn push(&mut self, part: Part) -> Result<(), AllocError>
        ensures appended { OnOk result (self.new ≡ self.old ++ part ∷ []) }
        ensures unchanged { OnErr result (self.new ≡ self.old) }
    {
        self.parts.push(part)?;
        Ok(())
    }

    /// An equal replacement, made by the same allocator.
    pub fn try_copy(&self) -> Result<Self, AllocError>
        ensures value { IfOk result (λ copy. copy ≡ self.now) }
    {
        Ok(Replacement {
            parts: Vec::from_slice(*self.parts.allocator(), self.parts())?,
        })
    }
}

impl PartialEq for Replacement {
    ghost use Rattle.std.specs.Prelude.{◌==◌};
    ghost use Rattle.std.specs.Ordering.{on};
    ghost use Rattle.std.specs.Cmp.Lexicographic.{pointwise, lists_per};
    ghost use Rattle.std.specs.Cmp.Rules.{comparing};
    ghost use Rattle.std.proofs.Common.{rules};
    ghost use Rattle.ed_syntax.specs.PartNumbers.{part_number};

    ghost eq = { λ a b. pointwise (on part_number ◌==◌) a b };

    ghost laws = { lists_per (Prim.search (comparing, rules)) };

    fn eq(&self, other: &Self) -> bool {
        self.parts() == other.parts()
    }
}

impl Eq for Replacement {
    ghost use Rattle.std.specs.Cmp.Lexicographic.{lists_equiv};
    ghost use Rattle.std.specs.Cmp.Rules.{comparing};
    ghost use Rattle.std.proofs.Common.{rules};

    ghost laws = { lists_equiv (Prim.search (comparing, rules)) };
}
