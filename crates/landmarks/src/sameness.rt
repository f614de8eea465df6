//! Whether chains are the same.

ghost use Rattle.std.specs.Prelude.{◌≡◌};
ghost use Rattle.std.specs.Bool.{Decides};

use crate::{Landmark, Which};
use ed_base::Texts;

/// Whether two chains have the same landmarks.
pub fn are_same(one: &[Landmark], other: &[Landmark]) -> bool
    ensures exact { Decides result (one.now ≡ other.now) }
{
    if one.len() != other.len() {
        return false;
    }
    for place in 0..one.len() {
        if !is_same(&one[place], &other[place]) {
            return false;
        }
    }
    true
}

/// Whether two sets have the same members.
fn are_one(one: &Texts, other: &Texts) -> bool
    ensures exact { Decides result (one.now ≡ other.now) }
{
    one.members() == other.members()
}

/// Whether two landmarks say the same.
#[tactic(auto, using(crate::proofs::SameChains::landmark_decides))]
fn is_same(one: &Landmark, other: &Landmark) -> bool
    ensures exact { Decides result (one.now ≡ other.now) }
{
    let none = are_one(&one.none, &other.none);
    let which = is_same_line(&one.which, &other.which);
    let gap = one.gap == other.gap;
    let tail = one.tail == other.tail;
    let also = are_one(&one.also, &other.also);
    let lacks = are_one(&one.lacks, &other.lacks);
    none && which && gap && tail && also && lacks
}

/// Whether the same line is looked for.
#[tactic(auto, using(crate::proofs::SameChains::first_decides, crate::proofs::SameChains::only_decides, crate::proofs::SameChains::numbered_decides))]
fn is_same_line(one: &Which, other: &Which) -> bool
    ensures exact { Decides result (one.now ≡ other.now) }
{
    match one {
        Which::First(pattern) => match other {
            Which::First(sought) => pattern.as_slice() == sought.as_slice(),
            Which::Only(_) => false,
            Which::Numbered(_) => false,
        },
        Which::Only(pattern) => match other {
            Which::Only(sought) => pattern.as_slice() == sought.as_slice(),
            Which::First(_) => false,
            Which::Numbered(_) => false,
        },
        Which::Numbered(number) => match other {
            Which::Numbered(sought) => number == sought,
            Which::First(_) => false,
            Which::Only(_) => false,
        },
    }
}
