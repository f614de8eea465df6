//! Why a landmark isn't where it should be.

use ed_base::Bytes;

/// What is wrong with the place of a landmark. Lines count from 1.
#[derive(Debug, PartialEq, Eq, Drop)]
pub enum Misfit {
    /// No line below the landmark before it matches its pattern.
    Missing,
    /// The file has no line of this number, which is the one that is looked for.
    Beyond(usize),
    /// This line, which is the one that is looked for, isn't so far below the landmark before it as the gap says.
    Near(usize),
    /// Fewer lines come after this line, which is the one that is looked for, than the tail says.
    Late(usize),
    /// Its pattern should match this line alone, and this other one is the first of the others that it matches.
    Repeated(usize, usize),
    /// This line, which is the one that is looked for, doesn't match this pattern, the first such one of those that it should match.
    Unmatched(usize, Bytes),
    /// This line, which is the one that is looked for, matches this pattern, the first such one of those that it shouldn't match.
    Matched(usize, Bytes),
    /// Between the landmark before it and this line, which is the one that is looked for, the second line is the first that matches this
    /// pattern, and no line between matches one of those that come before this pattern.
    Between(usize, usize, Bytes),
}

/// The first landmark of a chain that isn't where it should be.
#[derive(Debug, PartialEq, Eq, Drop)]
pub struct Misplaced {
    /// Its place in the chain, counted from 0.
    pub index: usize,
    /// The line of the landmark before it, or 0.
    pub before: usize,
    pub why: Misfit,
}
