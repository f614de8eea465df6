//! What undo may find, as it is kept between commands.

ghost use Rattle.std.specs.Prelude.{◌≡◌, ◌↔◌, IsTrue, IfOk, OnOk};
ghost use Rattle.ed_rules.specs.Order.{CoversOld};

use crate::line_facts::LineFacts;
use crate::marks::Marks;
use crate::state::{Old, Undo, find_no_old};
use std::alloc::{AllocError, Global};
use std::marker::Model;
use zones::KeptZone;

/// What is known of an earlier buffer, as it is kept. A contract sees what was kept.
#[derive(Debug, Drop)]
pub struct KeptOld {
    zone: KeptZone,
    marks: Marks,
    facts: LineFacts,
}

impl Model for KeptOld {
    ghost use Rattle.ed_rules.specs.declared.state.Old.{Old};

    ghost Value = { Old };

    ghost view = { λ kept. record { zone = kept.zone; marks = kept.marks; facts = kept.facts } };
}

/// What undo may find, as it is kept. A contract sees what was kept.
#[derive(Debug, Drop)]
pub struct KeptUndo {
    nothing: bool,
    same: bool,
    was: Option<KeptOld>,
}

impl Model for KeptUndo {
    ghost use Rattle.ed_rules.specs.declared.state.Undo.{Undo};

    ghost Value = { Undo };

    ghost view = { λ kept. record { nothing = kept.nothing; same = kept.same; was = kept.was } };
}

impl KeptOld {
    /// The buffer with these bounds, sure marks and facts. It takes no memory.
    pub fn new(zone: KeptZone, marks: Marks, facts: LineFacts) -> KeptOld
        ensures value { result ≡ record { zone = zone; marks = marks; facts = facts } }
    {
        KeptOld { zone, marks, facts }
    }

    /// The bounds on lines, as they are kept.
    pub fn zone(&self) -> &KeptZone
        ensures value { result.now ≡ self.now.zone }
    {
        &self.zone
    }

    /// The letters that surely mark a line.
    pub fn marks(&self) -> &Marks
        ensures value { result.now ≡ self.now.marks }
    {
        &self.marks
    }

    /// What is known of single lines.
    pub fn facts(&self) -> &LineFacts
        ensures value { result.now ≡ self.now.facts }
    {
        &self.facts
    }

    fn of(old: &Old, alloc: Global) -> Result<KeptOld, AllocError>
        ensures value { IfOk result (λ kept. kept ≡ old.now) }
    {
        Ok(KeptOld {
            zone: old.zone.try_keep(alloc)?,
            marks: old.marks,
            facts: old.facts.try_copy()?,
        })
    }

    fn old(&self) -> Result<Old, AllocError>
        ensures value { IfOk result (λ old. old ≡ self.now) }
    {
        let facts = self.facts.try_copy()?;
        Ok(Old {
            zone: self.zone.zone(),
            marks: self.marks,
            facts,
        })
    }

    fn restore(&self, old: &mut Old) -> Result<(), AllocError>
        ensures value { OnOk result (old.new ≡ self.now) }
    {
        old.facts.try_copy_from(&self.facts)?;
        self.zone.restore(&mut old.zone);
        old.marks = self.marks;
        Ok(())
    }

    /// Becomes what is known where nothing was. It has a function of its own since a function clears the room of its locals, here
    /// that of a whole zone, at each call.
    fn restore_new(&self, old: &mut Option<Old>) -> Result<(), AllocError>
        ensures value { OnOk result (old.new ≡ Some self.now) }
    {
        *old = Some(self.old()?);
        Ok(())
    }

    fn restore_into(&self, old: &mut Option<Old>) -> Result<(), AllocError>
        ensures value { OnOk result (old.new ≡ Some self.now) }
    {
        match old {
            Some(old) => self.restore(old),
            None => self.restore_new(old),
        }
    }
}

fn keep_old(old: &Option<Old>, alloc: Global) -> Result<Option<KeptOld>, AllocError>
    ensures value { IfOk result (λ kept. kept ≡ old.now) }
{
    match old {
        Some(old) => Ok(Some(KeptOld::of(old, alloc)?)),
        None => Ok(None),
    }
}

fn kept_old(kept: &Option<KeptOld>) -> Result<Option<Old>, AllocError>
    ensures value { IfOk result (λ old. old ≡ kept.now) }
{
    match kept {
        Some(kept) => Ok(Some(kept.old()?)),
        None => Ok(None),
    }
}

fn restore_old(kept: &Option<KeptOld>, old: &mut Option<Old>) -> Result<(), AllocError>
    ensures value { OnOk result (old.new ≡ kept.now) }
{
    match kept {
        Some(kept) => kept.restore_into(old),
        None => {
            find_no_old(old);
            Ok(())
        }
    }
}

pub(crate) fn kept_old_covers(weak: &Option<KeptOld>, strong: &Option<Old>) -> bool
    ensures exact { IsTrue result ↔ CoversOld weak.now strong.now }
{
    match (weak, strong) {
        (_, None) => true,
        (None, Some(_)) => false,
        (Some(weak), Some(strong)) => {
            weak.zone.covers(&strong.zone)
                && weak.marks.are_among(&strong.marks)
                && weak.facts.are_covered(&strong.zone, &strong.facts)
        }
    }
}

impl KeptUndo {
    /// What undo may find, of its parts. It takes no memory.
    pub fn new(nothing: bool, same: bool, was: Option<KeptOld>) -> KeptUndo
        ensures value { result ≡ record { nothing = nothing; same = same; was = was } }
    {
        KeptUndo { nothing, same, was }
    }

    /// Whether undo may find nothing.
    pub fn nothing(&self) -> bool
        ensures value { result ≡ self.now.nothing }
    {
        self.nothing
    }

    /// Whether undo may find the buffer as it is.
    pub fn same(&self) -> bool
        ensures value { result ≡ self.now.same }
    {
        self.same
    }

    /// The earlier buffer that undo may find.
    pub fn was(&self) -> &Option<KeptOld>
        ensures value { result.now ≡ self.now.was }
    {
        &self.was
    }

    pub(crate) fn of(undo: &Undo, alloc: Global) -> Result<KeptUndo, AllocError>
        ensures value { IfOk result (λ kept. kept ≡ undo.now) }
    {
        Ok(KeptUndo {
            nothing: undo.nothing,
            same: undo.same,
            was: keep_old(&undo.was, alloc)?,
        })
    }

    pub(crate) fn undo(&self) -> Result<Undo, AllocError>
        ensures value { IfOk result (λ undo. undo ≡ self.now) }
    {
        Ok(Undo {
            nothing: self.nothing,
            same: self.same,
            was: kept_old(&self.was)?,
        })
    }

    pub(crate) fn restore(&self, undo: &mut Undo) -> Result<(), AllocError>
        ensures value { OnOk result (undo.new ≡ self.now) }
    {
        undo.nothing = self.nothing;
        undo.same = self.same;
        restore_old(&self.was, &mut undo.was)
    }
}
