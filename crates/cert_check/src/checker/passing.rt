//! The checks of commands and of the end.

ghost use Rattle.std.specs.Prelude.{◌≡◌, true, length, map, option_map, IfOk};
ghost use Rattle.std.specs.List.{list_all};
ghost use Rattle.ed_syntax.specs.PublicTypes.{verb_value, command_value, step_value, steps_value};
ghost use Rattle.ed_syntax.specs.meaning.Verbs.{is_global};
ghost use Rattle.cert_check.specs.checker.Covering.{covers};
ghost use Rattle.cert_check.specs.Certificates.{note_value, certificate_value};
ghost use Rattle.cert_check.specs.checker.Valid.{is_listed, are_listed, counted, has_quit, fits, are_shaped, knows_least, knows_most};
ghost use Rattle.cert_check.specs.checker.Passing.{Passes, left_where_met, passed, ends_well, StepGoesTo, GoesTo};

use crate::certificate::{Certificate, Note};
use crate::checker::loops::pass_loop;
use crate::checker::verdict::Place;
use crate::laws::covering_is_decided;
use crate::sight::Sight;
use ed_base::Bytes;
use ed_rules::{KeptState, State, needs_are_the_same_whatever_is_watched, outcome_into};
use ed_syntax::{Command, Verb};
use std::alloc::AllocError;
use zones::{Name, Zone};

/// How many commands of a script are counted, and whether the last of them ends the run.
#[derive(Clone, Copy)]
pub(crate) struct Counted {
    pub number: usize,
    pub quit: bool,
}

pub(crate) fn count(commands: &[Command]) -> Counted
    ensures number { result.number ≡ length (counted (steps_value commands.now)) }
    ensures quit { result.quit ≡ has_quit (steps_value commands.now) }
{
    for (index, command) in commands.iter().enumerate() {
        if command.verb.takes().ends.is_some() {
            return Counted {
                number: index + 1,
                quit: true,
            };
        }
    }
    Counted {
        number: commands.len(),
        quit: false,
    }
}

/// Whether what is known says no more than a state.
pub(crate) fn is_covered(known: &KeptState, strong: &State) -> bool
    ensures value { result ≡ covers known.now strong.now }
{
    covering_is_decided();
    known.covers(strong)
}

/// Goes on to the state after a command, if all its needs hold, and says whether they do.
fn leave(
    sight: &Sight,
    command: &Command,
    known: &State,
    coming: &mut State,
) -> Result<bool, AllocError>
    ensures value { IfOk result (λ holds.
        Passes holds coming.new (left_where_met sight.now (command_value command.now) known.now)) }
{
    needs_are_the_same_whatever_is_watched();
    match outcome_into(command, known, coming, sight.watch())? {
        None => {
            sight.tell(coming);
            Ok(true)
        }
        Some(_) => Ok(false),
    }
}

/// A path that may be written is among those that are listed.
fn is_listed(writes: &[Bytes], path: &Option<Bytes>) -> bool
    ensures value { result ≡ is_listed writes.now path.now }
{
    match path {
        Some(path) => writes.contains(path),
        None => true,
    }
}

/// All choices of a set are listed.
fn are_all_listed(writes: &[Bytes], paths: &[Option<Bytes>]) -> bool
    ensures value { result ≡ list_all (is_listed writes.now) paths.now }
{
    for path in paths {
        if !is_listed(writes, path) {
            return false;
        }
    }
    true
}

/// Each path that a command may write is listed.
fn are_listed(writes: &[Bytes], command: &Command, known: &KeptState) -> bool
    ensures value { result ≡ are_listed writes.now (command_value command.now) known.now }
{
    match &command.verb {
        Verb::WriteFile(path) => match path {
            Some(_) => is_listed(writes, path),
            None => are_all_listed(writes, known.names().members()),
        },
        _ => true,
    }
}

/// Whether all checks of a command hold: what is known before it says no more than what comes in, its needs hold, and the paths
/// that it may write are listed. Then `before` becomes what is known, and `coming` the state after the command.
pub(crate) fn passes(
    sight: &Sight,
    writes: &[Bytes],
    command: &Command,
    known: &KeptState,
    before: &mut State,
    coming: &mut State,
) -> Result<bool, AllocError>
    ensures value { IfOk result (λ holds. Passes holds coming.new
        (passed sight.now writes.now (command_value command.now) known.now coming.old)) }
    ensures before { IfOk result (λ holds. holds ≡ true → before.new ≡ known.now) }
{
    if !is_covered(known, coming) || !are_listed(writes, command, known) {
        return Ok(false);
    }
    known.restore(before)?;
    leave(sight, command, before, coming)
}

/// Something is known of a list exactly if the command is global, and before each command of the list.
fn fits(command: &Command, note: &Note) -> bool
    ensures value { result ≡ fits (step_value command.now) (note_value note.now) }
{
    let global = command.verb.takes().global;
    match &note.looped {
        None => !global,
        Some(looped) => global && looped.inner.len() == command.list().len(),
    }
}

/// The notes have the shape that goes with the commands, of which `number` are counted.
pub(crate) fn are_shaped(commands: &[Command], number: usize, notes: &[Note]) -> bool
    requires counted { number ≡ length (counted (steps_value commands.now)) }
    ensures value { result ≡
        are_shaped (counted (steps_value commands.now)) (map note_value notes.now) }
{
    if notes.len() != number {
        return false;
    }
    for (index, note) in notes.iter().enumerate() {
        if !fits(&commands[index], note) {
            return false;
        }
    }
    true
}

/// The checks of one command with its note: the place of the first that fails. Where none does, `coming` becomes the state after
/// the command. `before` is used again for each state that is known.
fn pass(
    sight: &Sight,
    number: usize,
    writes: &[Bytes],
    command: &Command,
    note: &Note,
    before: &mut State,
    coming: &mut State,
) -> Result<Option<Place>, AllocError>
    requires shape { fits (step_value command.now) (note_value note.now) ≡ true }
    ensures value { IfOk result (λ failed. StepGoesTo sight.now number writes.now (step_value command.now)
        (note_value note.now) coming.old failed coming.new) }
{
    let holds = passes(sight, writes, command, &note.state, before, coming)?;
    if !holds {
        return Ok(Some(Place {
            command: number,
            inner: None,
        }));
    }
    match &note.looped {
        None => Ok(None),
        Some(looped) => pass_loop(sight, number, writes, command, before, coming, looped),
    }
}

/// Goes through the counted commands with their notes, from the state at the start on: the place of the first check that fails.
/// Where none does, `coming` becomes the state after the last command.
pub(crate) fn go_through(
    sight: &Sight,
    writes: &[Bytes],
    commands: &[Command],
    notes: &[Note],
    before: &mut State,
    coming: &mut State,
) -> Result<Option<Place>, AllocError>
    requires shape { are_shaped (counted (steps_value commands.now)) (map note_value notes.now) ≡ true }
    ensures value { IfOk result (λ failed. GoesTo sight.now writes.now (counted (steps_value commands.now))
        (map note_value notes.now) coming.old failed coming.new) }
{
    for (index, note) in notes.iter().enumerate() {
        match pass(
            sight,
            index + 1,
            writes,
            &commands[index],
            note,
            before,
            coming,
        )? {
            None => {}
            Some(place) => return Ok(Some(place)),
        }
    }
    Ok(None)
}

#[tactic(auto, unfolding(crate::specs::checker::Valid::knows_least, zones::specs::Known::known))]
fn knows_least(zone: &Zone, low: u64) -> bool
    ensures value { result ≡ knows_least zone.now low }
{
    match zone.bound(Name::ZERO, Name::LAST_LINE) {
        Some(bound) => i128::from(bound) <= -i128::from(low),
        None => false,
    }
}

#[tactic(auto, unfolding(crate::specs::checker::Valid::knows_most, zones::specs::Known::known))]
fn knows_most(zone: &Zone, high: Option<u64>) -> bool
    ensures value { result ≡ knows_most zone.now high }
{
    match (high, zone.bound(Name::LAST_LINE, Name::ZERO)) {
        (None, _) => true,
        (Some(high), Some(bound)) => i128::from(bound) <= i128::from(high),
        (Some(_), None) => false,
    }
}

/// Whether all checks of the end hold.
pub(crate) fn ends_well(
    quit: bool,
    fault: Option<usize>,
    certificate: &Certificate,
    coming: &State,
) -> bool
    ensures value { result ≡ ends_well quit fault (certificate_value certificate.now) coming.now }
{
    let last = &certificate.last;
    let zone = last.zone();
    (quit || fault.is_none())
        && is_covered(last, coming)
        && (quit || !last.changed().yes)
        && knows_least(&zone, certificate.low)
        && knows_most(&zone, certificate.high)
}
