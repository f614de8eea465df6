//! The rule of `u` (XCU ed, "Undo Command").

ghost use Rattle.std.specs.Prelude.{◌≡◌, Some, IfOk, OnOk};
ghost use Rattle.ed_rules.specs.Undoing.{present_of, brought_back, undone_by, undone};
ghost use Rattle.ed_rules.specs.Reaching.{Reaches};

use crate::line_facts::LineFacts;
use crate::pieces::forget_addresses;
use crate::state::{Changed, Old, State, Undo, copied_old};
use ed_base::Fault;
use std::alloc::AllocError;

impl State {
    /// The present buffer, as undo keeps it.
    fn present(&self) -> Result<Old, AllocError>
        ensures value { IfOk result (λ present. present ≡ present_of self.now) }
    {
        let mut present = self.old()?;
        forget_addresses(&mut present.zone);
        if self.follows {
            present.facts.end(&self.marks);
        } else {
            present.facts = LineFacts::none(self.patterns.allocator());
        }
        Ok(present)
    }

    /// An earlier buffer comes in place of the present one, which undo then finds.
    fn bring_back(&mut self, old: &Old) -> Result<(), AllocError>
        ensures exact { OnOk result (self.new ≡ brought_back old.now self.old) }
    {
        let present = self.present()?;
        let facts = old.facts.try_copy()?;
        self.zone = old.zone;
        self.marks = old.marks;
        self.changed = Changed::YES;
        self.undo = Undo {
            nothing: false,
            same: false,
            was: Some(present),
        };
        self.facts = facts;
        Ok(())
    }

    /// `u` where it finds an earlier buffer.
    fn undo_to(&mut self, old: &Old) -> Result<(), AllocError>
        ensures exact { OnOk result (self.new ≡ undone_by self.old.undo.same (Some old.now) self.old) }
    {
        if self.undo.same {
            let mut back = self.try_copy()?;
            back.bring_back(old)?;
            *self = self.join(&back)?;
            Ok(())
        } else {
            self.bring_back(old)
        }
    }

    /// `u`
    pub(crate) fn undo_change(&mut self) -> Result<(), Fault>
        ensures exact { Reaches result self.new (undone self.old) }
    {
        if self.undo.nothing {
            return Err(Fault::Undo);
        }
        if let Some(old) = copied_old(&self.undo.was)? {
            self.undo_to(&old)?;
        }
        Ok(())
    }
}
