//! `u`: changes are taken back (XCU ed, "Undo Command").
ghost use Rattle.std.specs.Prelude.{◌≡◌, ◌+◌, ◌-◌, ◌≤◌, ◌++◌, [], length, map, take, drop, IfOk, IfSome, OnErr, OnOk};
ghost use Rattle.ed_base.specs.Buffer.{texts};
ghost use Rattle.ed_base.specs.Parts.{carried, exchanged};
ghost use Rattle.ed_syntax.specs.meaning.States.{unflagged};
ghost use Rattle.ed_syntax.specs.meaning.Effects as effect;
ghost use Rattle.ed_syntax.specs.meaning.Effects.{only};
ghost use Rattle.ed_commands.specs.Earlier.{StandsAfter, rewound, texts_before};
ghost use Rattle.ed_commands.specs.Editors.{Tells};

use crate::editor::Editor;
use crate::editor::blocks::exchange_block;
use crate::editor::past::{Change, OpenGlobal};
use ed_base::Fault;
use line_store::{Block, LineStore};
use std::alloc::{AllocError, Global};
use std::mem;

/// Takes back all changes but the first so many, and tells from where on those stand now that would do them again. It costs no more
/// than they did. What was before a global command that is open is told from the changes as they are, so then they stay, too.
pub fn rewind<S: LineStore>(
    alloc: Global,
    global: &Option<OpenGlobal>,
    since: usize,
    changes: &mut Vec<Change>,
    store: &mut S,
) -> Result<usize, AllocError>
    requires since { since ≤ length changes.old.items }
    ensures texts { OnOk result (texts (S.lines store.new) ≡ rewound (drop since changes.old.items) (texts (S.lines store.old))) }
    ensures again { IfOk result (λ from. rewound (drop from changes.new.items) (texts (S.lines store.new)) ≡ texts (S.lines store.old)) }
    ensures within { IfOk result (λ from. from ≤ length changes.new.items) }
    ensures earlier { IfOk result (λ from. IfSome global.now (λ _. StandsAfter changes.old.items from changes.new.items)) }
    ensures no_fewer { length changes.old.items ≤ length changes.new.items }
{
    match global {
        None => {
            rewind_from(alloc, since, changes, store)?;
            Ok(since)
        }
        Some(_open) => {
            let count = changes.len();
            rewind_copies(alloc, since, changes, store)?;
            Ok(count)
        }
    }
}

/// Takes back all changes but the first so many, and puts those after all of them that would do them again.
fn rewind_copies<S: LineStore>(
    alloc: Global,
    since: usize,
    changes: &mut Vec<Change>,
    store: &mut S,
) -> Result<(), AllocError>
    requires since { since ≤ length changes.old.items }
    ensures texts { OnOk result (texts (S.lines store.new) ≡ rewound (drop since changes.old.items) (texts (S.lines store.old))) }
    ensures again { OnOk result
        (rewound (drop (length changes.old.items) changes.new.items) (texts (S.lines store.new)) ≡ texts (S.lines store.old)) }
    ensures earlier { OnOk result (take (length changes.old.items) changes.new.items ≡ changes.old.items) }
    ensures no_fewer { length changes.old.items ≤ length changes.new.items }
{
    let count = changes.len();
    repeat_changes(alloc, since, changes)?;
    rewind_from(alloc, count, changes, store)?;
    Ok(())
}

/// The changes but the first so many once more, after all others. They share the lines.
fn repeat_changes(alloc: Global, since: usize, changes: &mut Vec<Change>) -> Result<(), AllocError>
    requires since { since ≤ length changes.old.items }
    ensures repeated { OnOk result (changes.new.items ≡ changes.old.items ++ drop since changes.old.items) }
    ensures no_fewer { length changes.old.items ≤ length changes.new.items }
{
    for i in since..changes.len() {
        let copy = changes[i].try_copy(alloc)?;
        changes.push(copy)?;
    }
    Ok(())
}

/// Takes back all changes but the first so many, the last one first, and puts those in their place that would do them again.
fn rewind_from<S: LineStore>(
    alloc: Global,
    since: usize,
    changes: &mut Vec<Change>,
    store: &mut S,
) -> Result<(), AllocError>
    requires since { since ≤ length changes.old.items }
    ensures texts { OnOk result (texts (S.lines store.new) ≡ rewound (drop since changes.old.items) (texts (S.lines store.old))) }
    ensures again { OnOk result (rewound (drop since changes.new.items) (texts (S.lines store.new)) ≡ texts (S.lines store.old)) }
    ensures earlier { OnOk result (take since changes.new.items ≡ take since changes.old.items) }
    ensures count { length changes.new.items ≡ length changes.old.items }
{
    let count = changes.len();
    for i in (since..count).rev() {
        take_back(alloc, &mut changes[i], store)?;
    }
    changes[since..count].reverse();
    Ok(())
}

/// Takes back what a command did to the lines, and turns the change into the one that would do it again. After an `Err` both are as
/// before.
fn take_back<S: LineStore>(
    alloc: Global,
    change: &mut Change,
    store: &mut S,
) -> Result<(), AllocError>
    ensures texts { OnOk result (texts (S.lines store.new) ≡ texts_before change.old (texts (S.lines store.old))) }
    ensures again { OnOk result (texts_before change.new (texts (S.lines store.new)) ≡ texts (S.lines store.old)) }
    ensures kept { OnErr result (change.new ≡ change.old) }
    ensures unchanged { OnErr result (S.lines store.new ≡ S.lines store.old) }
{
    match change {
        Change::Replaced {
            from,
            entered,
            removed,
        } => put_back(alloc, from, entered, removed, store),
        Change::Moved { from, to, place } => carry_back(from, to, place, store),
    }
}

/// Puts lines that went out in place of those that came in for them, which are what went out then. There are no lines after the last
/// one.
fn put_back<S: LineStore>(
    alloc: Global,
    from: &mut usize,
    entered: &mut usize,
    removed: &mut Block,
    store: &mut S,
) -> Result<(), AllocError>
    ensures texts { OnOk result
        (texts (S.lines store.new) ≡ exchanged from.old (from.old + entered.old) removed.old (texts (S.lines store.old))) }
    ensures again { OnOk result
        (exchanged from.new (from.new + entered.new) removed.new (texts (S.lines store.new)) ≡ texts (S.lines store.old)) }
    ensures kept { OnErr result ((from.new ≡ from.old) × (entered.new ≡ entered.old) × (removed.new ≡ removed.old)) }
    ensures unchanged { OnErr result (S.lines store.new ≡ S.lines store.old) }
{
    let last = store.len();
    let first = (*from).min(last);
    let to = first.saturating_add(*entered).min(last);
    // The lines themselves come in: a copy of them would cost as much as they are many.
    let new = mem::replace(removed, Block::new(alloc));
    match exchange_block(first, to, new, store) {
        Ok(taken) => {
            let reached = store.len() - (last - to);
            *removed = taken;
            *entered = reached - first;
            *from = first;
            Ok(())
        }
        Err(refused) => {
            *removed = refused;
            Err(AllocError)
        }
    }
}

/// Carries lines that were carried from after line `from` up to line `to` back there from after line `place`.
fn carry_back<S: LineStore>(
    from: &mut usize,
    to: &mut usize,
    place: &mut usize,
    store: &mut S,
) -> Result<(), AllocError>
    ensures texts { OnOk result
        (texts (S.lines store.new) ≡ carried place.old (place.old + (to.old - from.old)) from.old (texts (S.lines store.old))) }
    ensures again { OnOk result
        (carried place.new (place.new + (to.new - from.new)) from.new (texts (S.lines store.new)) ≡ texts (S.lines store.old)) }
    ensures kept { OnErr result ((from.new ≡ from.old) × (to.new ≡ to.old) × (place.new ≡ place.old)) }
    ensures unchanged { OnErr result (S.lines store.new ≡ S.lines store.old) }
{
    let last = store.len();
    let start = (*place).min(last);
    let end = (*place)
        .saturating_add((*to).saturating_sub(*from))
        .min(last);
    let count = end - start;
    let target = (*from).min(last - count);
    store.carry(start, end, target)?;
    *from = start;
    *to = end;
    *place = target;
    Ok(())
}

/// Takes the flag of each line that has it.
pub fn take_flags<S: LineStore>(store: &mut S)
    ensures taken { S.lines store.new ≡ unflagged (S.lines store.old) }
{
    while let Some(place) = store.next_flagged() {
        store.unflag(place);
    }
}

impl<S: LineStore> Editor<S> {
    /// `u`: the buffer that undo kept is brought back, with its letters and its current line, and undo keeps the present one.
    pub(crate) fn undo(&mut self) -> Result<(), Fault>
        ensures exact { Tells (λ _. only self.new.state []) (effect.undo self.old.state.past self.old.state) result }
        ensures failed { self.new.failed ≡ self.old.failed }
    {
        let brought = self
            .past
            .bring_back(self.alloc, self.current, &mut self.store);
        // Where memory ran out half way there may be fewer lines.
        self.current = self.current.min(self.store.len());
        if let Some(line) = brought? {
            self.current = line;
            self.changed = true;
        }
        Ok(())
    }
}
