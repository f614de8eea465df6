//! What is known before a command, as far as a person is told it.
ghost use Rattle.std.specs.Prelude.{◌≡◌, IfOk};
ghost use Rattle.ed_syntax.specs.meaning.States as editor;
ghost use Rattle.ed_rules.specs.StandsFor.{StandsFor};
ghost use Rattle.ed_calls.specs.Known.{IsTrueOf, bounds_of, change_of, is_shown, known_of, least_of, most_of, shown_of};

use ed_rules::{Changed, KeptState, KnownLine, LineBounds, LineFacts, Texts};
use std::alloc::AllocError;
use zones::{Name, Zone};

/// Whether the buffer is changed since it was last written or read.
#[derive(Clone, Copy, PartialEq, Eq, Debug)]
pub enum Change {
    /// It isn't.
    No,
    /// It may be.
    Maybe,
    /// It is.
    Yes,
}

/// What is known before a command.
#[derive(Debug, Drop)]
pub struct Known {
    /// How many lines there are.
    pub lines: LineBounds,
    /// The number of the current line.
    pub current: LineBounds,
    /// Whether the current line is surely the last one.
    pub is_last: bool,
    pub change: Change,
    /// The patterns that some line surely matches.
    pub has: Texts,
    /// What is known of the current line and of the last one, each by its name.
    pub told: LineFacts,
}

impl Known {
    /// What a state says of these.
    pub fn of(state: &KeptState) -> Result<Known, AllocError>
        // Each bound is the one that the zone says, and each fact of a line one that the state has.
        ensures exact { IfOk result (λ known. known ≡ known_of state.now) }

        // It is true of each editor that the state stands for.
        ensures sound { IfOk result (λ known. (e : editor.State) → StandsFor state.now e → IsTrueOf known e) }
    {
        said_by(state)
    }
}

/// What a state says.
fn said_by(state: &KeptState) -> Result<Known, AllocError>
    ensures value { IfOk result (λ known. known ≡ known_of state.now) }
{
    let zone = state.zone();
    Ok(Known {
        lines: bounds_of(&zone, Name::LAST_LINE),
        current: bounds_of(&zone, Name::CURRENT_LINE),
        is_last: zone.is_known(Name::LAST_LINE, Name::CURRENT_LINE, 0),
        change: change_of(state.changed()),
        has: state.matches().has.try_copy()?,
        told: shown_of(state.facts())?,
    })
}

/// What is known of the lines that a person is told of.
fn shown_of(facts: &LineFacts) -> Result<LineFacts, AllocError>
    ensures value { IfOk result (λ shown. shown ≡ shown_of facts.now) }
{
    let mut shown = facts.try_copy()?;
    keep_shown(&mut shown);
    Ok(shown)
}

/// Keeps of some facts those that a person is told.
fn keep_shown(facts: &mut LineFacts)
    ensures value { facts.new ≡ shown_of facts.old }
{
    facts.lines.retain(|fact| is_shown(fact));
    facts.clear.clear();
}

/// Whether a fact is of the current line or of the last one.
fn is_shown(fact: &KnownLine) -> bool
    ensures value { result ≡ is_shown fact.now }
{
    fact.name == Name::CURRENT_LINE || fact.name == Name::LAST_LINE
}

/// The bounds of a number.
fn bounds_of(zone: &Zone, name: Name) -> LineBounds
    ensures value { result ≡ bounds_of zone.now name }
{
    LineBounds {
        min: least_of(zone.least(name, Name::ZERO)),
        max: most_of(zone.bound(name, Name::ZERO)),
    }
}

/// The fewest that a number of lines is, by a bound.
fn least_of(bound: Option<i64>) -> u64
    ensures value { result ≡ least_of bound }
{
    match bound {
        Some(least) => match u64::try_from(least) {
            Ok(least) => least,
            Err(_) => 0,
        },
        None => 0,
    }
}

/// The most that it is, where there is a limit.
fn most_of(bound: Option<i64>) -> Option<u64>
    ensures value { result ≡ most_of bound }
{
    match bound {
        Some(most) => match u64::try_from(most) {
            Ok(most) => Some(most),
            Err(_) => Some(0),
        },
        None => None,
    }
}

fn change_of(changed: Changed) -> Change
    ensures value { result ≡ change_of changed }
{
    if !changed.yes {
        Change::No
    } else if changed.no {
        Change::Maybe
    } else {
        Change::Yes
    }
}
