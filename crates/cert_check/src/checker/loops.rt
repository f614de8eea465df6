//! The checks of what a certificate says of a global command's list.

ghost use Rattle.std.specs.Prelude.{◌≡◌, true, length, map, IfOk, OnOk};
ghost use Rattle.ed_syntax.specs.PublicTypes.{command_value, step_value};
ghost use Rattle.ed_syntax.specs.meaning.Verbs.{is_global};
ghost use Rattle.ed_rules.specs.Globals.{loop_end};
ghost use Rattle.cert_check.specs.Certificates.{looped_value};
ghost use Rattle.cert_check.specs.checker.Valid.{told};
ghost use Rattle.cert_check.specs.checker.Passing.{Passes, ListGoesTo, after_turn, LoopGoesTo};

use crate::certificate::Looped;
use crate::checker::passing::{is_covered, passes};
use crate::checker::verdict::Place;
use crate::sight::{Entry, Sight};
use ed_base::Bytes;
use ed_rules::{KeptState, State, loop_end};
use ed_syntax::Command;
use std::alloc::AllocError;

/// Goes through the commands of a list, with what is known before each, from the state in which the list is run for a line. The
/// global command has this number. Where no check fails, `coming` becomes what the list leaves.
fn go_through_list(
    sight: &Sight,
    number: usize,
    writes: &[Bytes],
    list: &[Command],
    states: &[KeptState],
    before: &mut State,
    coming: &mut State,
) -> Result<Option<Place>, AllocError>
    requires shape { length states.now ≡ length list.now }
    ensures value { IfOk result (λ failed. ListGoesTo sight.now number writes.now (map command_value list.now) states.now coming.old failed coming.new) }
{
    for (index, known) in states.iter().enumerate() {
        let holds = passes(sight, writes, &list[index], known, before, coming)?;
        if !holds {
            return Ok(Some(Place {
                command: number,
                inner: Some(index + 1),
            }));
        }
    }
    Ok(None)
}

/// From what a list leaves, `coming` becomes what is known after the last line. Says whether the check of what it leaves holds: of one that is
/// run once nothing is asked.
fn end_turns(once: bool, invariant: &KeptState, coming: &mut State) -> Result<bool, AllocError>
    ensures value { IfOk result (λ holds. Passes holds coming.new (after_turn once invariant.now coming.old)) }
{
    if once {
        return Ok(true);
    }
    if !is_covered(invariant, coming) {
        return Ok(false);
    }
    invariant.restore(coming)?;
    Ok(true)
}

/// From what is known after the last line, `coming` becomes the state after a global command, before which `known` is known.
fn leave_loop(
    sight: &Sight,
    command: &Command,
    known: &State,
    coming: &mut State,
) -> Result<(), AllocError>
    requires global { is_global (command_value command.now).verb ≡ true }
    ensures value { OnOk result (coming.new ≡ told sight.now (loop_end (step_value command.now) known.now coming.old)) }
{
    *coming = loop_end(command, known, coming)?;
    sight.tell(coming);
    Ok(())
}

/// Goes through the list of a global command, before which `known` is known. From the state before its first line, `coming` becomes the
/// state after the command, if no check fails.
pub(crate) fn pass_loop(
    sight: &Sight,
    number: usize,
    writes: &[Bytes],
    command: &Command,
    known: &State,
    coming: &mut State,
    looped: &Looped,
) -> Result<Option<Place>, AllocError>
    requires global { is_global (command_value command.now).verb ≡ true }
    requires shape { length looped.now.inner.items ≡ length (step_value command.now).list }
    ensures value { IfOk result (λ failed. LoopGoesTo sight.now number writes.now (step_value command.now) (looped_value looped.now) known.now coming.old failed coming.new) }
{
    let holds_at_first = is_covered(&looped.invariant, coming);
    if !holds_at_first {
        return Ok(Some(Place {
            command: number,
            inner: None,
        }));
    }
    let list = command.list();
    let mut before = looped.invariant.state()?;
    let Entry { state, once } = sight.enter(command, &before)?;
    *coming = state;
    let inner = looped.inner.as_slice();
    match go_through_list(sight, number, writes, list, inner, &mut before, coming)? {
        None => {}
        Some(place) => return Ok(Some(place)),
    }
    let holds_again = end_turns(once, &looped.invariant, coming)?;
    if !holds_again {
        return Ok(Some(Place {
            command: number,
            inner: Some(list.len() + 1),
        }));
    }
    leave_loop(sight, command, known, coming)?;
    Ok(None)
}
