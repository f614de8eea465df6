//! What several patterns come to in one text, side by side.

ghost use Rattle.std.specs.Prelude.{◌≡◌, ◌≤◌, true, IfOk, length, option_map};
ghost use Rattle.bre_parse.specs.Bre.{bre_tree};
ghost use Rattle.bre_match.specs.Parts.{part_of};
ghost use Rattle.bre_match.specs.Watches.{next_watch, next_watches, first_watches, is_as_said, is_out, are_as_said, is_ruled_out};

use crate::column::{Asked, Passed, step_all};
use crate::state::State;
use crate::witness::Answer;
use bre_parse::Bre;
use std::alloc::{AllocError, Global};
use std::marker::Model;

/// For each pattern the state of its automaton before a place, or none where a match has ended.
#[derive(Drop)]
pub(super) struct Watches {
    each: Vec<Option<State>>,
}

impl Model for Watches {
    ghost use Rattle.std.specs.Prelude.{ℕ, List, Option};

    ghost Value = { List (Option (List (Option ℕ))) };

    ghost view = { λ w. w.each.items };
}

/// What is known of a pattern after a place.
fn next_watch(
    alloc: Global,
    pattern: &Bre,
    watch: Option<&State>,
    text: &[u8],
    place: usize,
) -> Result<Option<State>, AllocError>
    ensures value { IfOk result (λ next. next ≡ next_watch (part_of (bre_tree pattern.now)) (option_map (λ state. state.now) watch.entry) text.now place) }
{
    match watch {
        None => Ok(None),
        Some(state) => {
            let mut marks = Vec::new(alloc);
            let before = Passed {
                weight: Some(0),
                at: 0,
            };
            let items = pattern.items();
            let passed = step_all(
                &mut marks,
                Asked::Marks,
                items,
                state.marks(),
                text,
                place,
                before,
            )?;
            if passed.weight.is_some() {
                return Ok(None);
            }
            Ok(Some(State::of(marks)))
        }
    }
}

fn is_same(watch: &Option<State>, other: &Option<State>) -> bool
    ensures sound { result ≡ true → watch.now ≡ other.now }
{
    match watch {
        None => other.is_none(),
        Some(state) => match other {
            None => false,
            Some(other) => state.is_same(other),
        },
    }
}

/// Whether both lists are the same.
fn are_same(watches: &[Option<State>], others: &[Option<State>]) -> bool
    ensures sound { result ≡ true → watches.now ≡ others.now }
{
    if watches.len() != others.len() {
        return false;
    }
    for at in 0..watches.len() {
        if !is_same(&watches[at], &others[at]) {
            return false;
        }
    }
    true
}

/// Whether the pattern has a match, or has none, as its answer says.
fn is_as_said(answer: &Answer<'_>, watch: Option<&State>) -> bool
    ensures value { result ≡ is_as_said answer.now.matches (option_map (λ state. state.now) watch.entry) }
{
    if answer.matches {
        watch.is_none()
    } else {
        watch.is_some()
    }
}

/// Whether a match has ended of a pattern that is to have none.
fn is_out(answer: &Answer<'_>, watch: Option<&State>) -> bool
    ensures value { result ≡ is_out answer.now.matches (option_map (λ state. state.now) watch.entry) }
{
    !answer.matches && watch.is_none()
}

fn copy_of(alloc: Global, watch: &Option<State>) -> Result<Option<State>, AllocError>
    ensures value { IfOk result (λ copy. copy ≡ watch.now) }
{
    match watch {
        None => Ok(None),
        Some(state) => Ok(Some(state.try_copy(alloc)?)),
    }
}

impl Watches {
    ghost use Rattle.std.specs.Prelude.{drop};
    ghost use Rattle.bre_match.specs.Watches.{first_watch};

    /// What is known of the pattern at a place of the list; as of a matched one, past its end.
    fn at(&self, at: usize) -> Option<&State>
        ensures value { option_map (λ state. state.now) result ≡ first_watch (drop at self.now) }
    {
        if at < self.each.len() {
            self.each[at].as_ref()
        } else {
            None
        }
    }

    /// Before the first place of a text.
    pub(super) fn first(alloc: Global, answers: &[Answer<'_>]) -> Result<Watches, AllocError>
        ensures value { IfOk result (λ first. first ≡ first_watches answers.now) }
    {
        let mut each = Vec::new(alloc);
        for answer in answers {
            each.push(Some(State::of(Vec::new(alloc))))?;
        }
        Ok(Watches { each })
    }

    /// After a place of a text.
    pub(super) fn next(
        &self,
        alloc: Global,
        answers: &[Answer<'_>],
        text: &[u8],
        place: usize,
    ) -> Result<Watches, AllocError>
        requires place { place ≤ length text.now }
        ensures value { IfOk result (λ next. next ≡ next_watches answers.now self.now text.now place) }
    {
        let mut each = Vec::new(alloc);
        for at in 0..answers.len() {
            let next = next_watch(alloc, answers[at].pattern, self.at(at), text, place)?;
            each.push(next)?;
        }
        Ok(Watches { each })
    }

    /// Whether a text that ends there is as the answers say.
    pub(super) fn are_as_said(&self, answers: &[Answer<'_>]) -> bool
        ensures value { result ≡ are_as_said answers.now self.now }
    {
        for at in 0..answers.len() {
            if !is_as_said(&answers[at], self.at(at)) {
                return false;
            }
        }
        true
    }

    /// Whether no text that goes on from there is as the answers say, since a match has ended that is not to be.
    pub(super) fn are_ruled_out(&self, answers: &[Answer<'_>]) -> bool
        ensures value { result ≡ is_ruled_out answers.now self.now }
    {
        for at in 0..answers.len() {
            if is_out(&answers[at], self.at(at)) {
                return true;
            }
        }
        false
    }

    /// Whether both are the same. It tells no more than its clause.
    pub(super) fn are_same(&self, others: &Watches) -> bool
        ensures sound { result ≡ true → self.now ≡ others.now }
    {
        are_same(&self.each, &others.each)
    }

    /// The same again.
    pub(super) fn try_copy(&self, alloc: Global) -> Result<Watches, AllocError>
        ensures value { IfOk result (λ copy. copy ≡ self.now) }
    {
        let mut each = Vec::new(alloc);
        for watch in &self.each {
            each.push(copy_of(alloc, watch)?)?;
        }
        Ok(Watches { each })
    }
}
