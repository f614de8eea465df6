//! The rounds of a global command's list, up to the invariant that shows what is known at every turn.

ghost use Rattle.std.specs.Prelude.{◌≡◌, ◌+◌, true, if◌then◌else◌, map, min, IfOk, OnOk};
ghost use Rattle.ed_syntax.specs.PublicTypes.{command_value, step_value};
ghost use Rattle.ed_syntax.specs.meaning.Verbs.{is_global};
ghost use Rattle.zones.specs.Limits.{IsZone};
ghost use Rattle.analyser.specs.Walking.{IsRound, invariant_after, AreCountable, OldIsZone, HasZones, IsLastRound};

use cert_check::{Sight, covering_is_decided};
use ed_base::Fault;
use ed_rules::{
    KeptState, LineFacts, Old, State, joined_states_are_covered,
    needs_are_the_same_whatever_is_watched, outcome_into,
};
use ed_syntax::Command;
use std::alloc::{AllocError, Global};
use std::mem;
use zones::{Name, Zone};

/// What a round comes to.
#[derive(Drop)]
pub(crate) struct Round {
    /// What is known before each command of the list, up to the first one with a need that fails.
    pub inner: Vec<KeptState>,
    /// The fault of the need that fails.
    pub failed: Option<Fault>,
}

/// The invariant of the last round, and what that comes to.
#[derive(Drop)]
pub(crate) struct Settled {
    pub invariant: KeptState,
    pub round: Round,
}

/// A round: goes through a list, from the state in which it is run for a line. Where no need fails, `coming` becomes the result of
/// the last command. `left` is room for the result of each: a state is large, so the boxes are exchanged and not what they hold.
fn go_round(
    alloc: Global,
    sight: &Sight,
    list: &[Command],
    coming: &mut Box<State>,
    left: &mut Box<State>,
) -> Result<Round, AllocError>
    ensures value { IfOk result (λ round. IsRound sight.now (map command_value list.now) coming.old.value round.inner.items round.failed coming.new.value) }
{
    needs_are_the_same_whatever_is_watched();
    let mut inner = Vec::new(alloc);
    for command in list {
        inner.push(coming.try_keep()?)?;
        match outcome_into(command, coming, left, sight.watch())? {
            None => {
                sight.tell(left);
                mem::swap(coming, left);
            }
            Some(why) => {
                return Ok(Round {
                    inner,
                    failed: Some(why),
                });
            }
        }
    }
    Ok(Round {
        inner,
        failed: None,
    })
}

/// The invariant of the next round, by how many rounds came before this one and what this one comes to; none where it is the last, as it
/// is where the list is run for one line alone.
fn invariant_after(
    before: u8,
    once: bool,
    invariant: &State,
    failed: Option<Fault>,
    left: &State,
) -> Result<Option<State>, AllocError>
    ensures value { IfOk result (λ next. next ≡ invariant_after before once invariant.now failed left.now) }
{
    covering_is_decided();
    if once || failed.is_some() || invariant.covers(left) {
        Ok(None)
    } else if before < 2 {
        Ok(Some(invariant.join(left)?))
    } else {
        Ok(Some(invariant.widen(left)?))
    }
}

/// One round more; more than two count as two.
fn one_more(before: u8) -> u8
    ensures value { result ≡ min (before + 1) 2 }
{
    if before < 2 { before + 1 } else { 2 }
}

fn zone_is_kept(zone: &Zone)
    ensures kept { IsZone zone.now }
{
    let _bound = zone.bound(Name::ZERO, Name::ZERO);
}

fn facts_are_countable(facts: &LineFacts)
    ensures kept { AreCountable facts.now }
{
    let _lines = facts.lines.len();
    let _clear = facts.clear.len();
}

fn old_is_kept(old: &Option<Old>)
    ensures kept { OldIsZone old.now }
{
    match old {
        Some(old) => {
            zone_is_kept(&old.zone);
            facts_are_countable(&old.facts);
        }
        None => {}
    }
}

/// The zones of a state have what each zone has.
fn zones_are_kept(state: &State)
    ensures kept { HasZones state.now }
{
    zone_is_kept(&state.zone);
    old_is_kept(&state.undo.was);
}

/// What is told of the last round. From its invariant, what is known before each line is taken, `known` becomes what is known after the last
/// one: what the list leaves where it is run once.
fn end_rounds(
    once: bool,
    round: Round,
    turned: &State,
    known: &mut State,
) -> Result<Settled, AllocError>
    ensures invariant { IfOk result (λ settled. settled.invariant ≡ known.old) }
    ensures round { IfOk result (λ settled. settled.round ≡ round) }
    ensures after { OnOk result (known.new ≡ (if once then turned.now else known.old)) }
{
    let invariant = known.try_keep()?;
    if once {
        known.try_copy_from(turned)?;
    }
    Ok(Settled { invariant, round })
}

/// Goes through the rounds of a global command's list, from the state before the first line is taken, up to the last one, which is
/// told with its invariant. `known` becomes what is known after the last line.
pub(crate) fn settle(
    alloc: Global,
    sight: &Sight,
    command: &Command,
    known: &mut State,
) -> Result<Settled, AllocError>
    requires global { is_global (command_value command.now).verb ≡ true }
    ensures value { IfOk result (λ settled. IsLastRound sight.now (step_value command.now) known.old known.new settled) }
{
    joined_states_are_covered();
    let list = command.list();
    let mut left = Box::new(alloc, known.try_copy()?)?;
    let mut before = 0;
    'settling: loop {
        let entry = sight.enter(command, known)?;
        let once = entry.once;
        let mut coming = Box::new(alloc, entry.state)?;
        let round = go_round(alloc, sight, list, &mut coming, &mut left)?;
        zones_are_kept(known);
        zones_are_kept(&coming);
        match invariant_after(before, once, known, round.failed, &coming)? {
            None => {
                let last = end_rounds(once, round, &coming, known)?;
                return Ok(last);
            }
            Some(next) => *known = next,
        }
        before = one_more(before);
    }
}
