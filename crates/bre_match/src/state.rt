//! A state of an automaton: the marks of a pattern at a place.

ghost use Rattle.std.specs.Prelude.{◌≡◌, [], true, IfOk};
ghost use Rattle.bre_match.specs.States.{none_marked, as_state};

use std::alloc::{AllocError, Global};
use std::marker::Model;

/// The starts for which an automaton goes through a text: every place, or only the first one that it comes to.
#[derive(Clone, Copy)]
pub(crate) enum Starts {
    Every,
    First,
}

/// A mark for each byte set of a pattern, or none at all where no set is marked.
#[derive(Drop)]
pub(crate) struct State {
    marks: Vec<Option<usize>>,
}

impl Model for State {
    ghost use Rattle.std.specs.Prelude.{ℕ, List, Option};

    ghost Value = { List (Option ℕ) };

    ghost view = { λ s. s.marks.items };
}

impl State {
    pub(crate) fn of(mut marks: Vec<Option<usize>>) -> Self
        ensures value { result ≡ as_state marks.items }
    {
        if none_marked(&marks) {
            marks.clear();
        }
        State { marks }
    }

    pub(crate) fn marks(&self) -> &[Option<usize>]
        ensures value { result.now ≡ self.now }
    {
        self.marks.as_slice()
    }

    /// An equal state.
    pub(crate) fn try_copy(&self, alloc: Global) -> Result<State, AllocError>
        ensures value { IfOk result (λ copy. copy ≡ self.now) }
    {
        Ok(State {
            marks: self.marks.as_slice().to_vec(alloc)?,
        })
    }

    /// Whether it has no marks at all. It tells no more than its clause.
    pub(crate) fn is_empty(&self) -> bool
        ensures sound { result ≡ true → self.now ≡ [] }
    {
        self.marks.is_empty()
    }

    /// Whether both are the same state. It tells no more than its clause: where it is false they may still be.
    pub(crate) fn is_same(&self, other: &State) -> bool
        ensures sound { result ≡ true → self.now ≡ other.now }
    {
        are_same(self.marks.as_slice(), other.marks.as_slice())
    }
}

/// Whether no byte set is marked.
fn none_marked(marks: &[Option<usize>]) -> bool
    ensures value { result ≡ none_marked marks.now }
{
    for mark in marks {
        if mark.is_some() {
            return false;
        }
    }
    true
}

/// Whether two rows have the same marks.
fn are_same(marks: &[Option<usize>], others: &[Option<usize>]) -> bool
    ensures sound { result ≡ true → marks.now ≡ others.now }
{
    if marks.len() != others.len() {
        return false;
    }
    for at in 0..marks.len() {
        match marks[at] {
            None => {
                if others[at].is_some() {
                    return false;
                }
            }
            Some(weight) => match others[at] {
                None => return false,
                Some(other) => {
                    if weight != other {
                        return false;
                    }
                }
            },
        }
    }
    true
}
