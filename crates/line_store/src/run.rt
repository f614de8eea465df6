//! Lines that stand in a row in a block of bytes, to be written at once.
ghost use Rattle.std.specs.Prelude.{◌≡◌, ◌≤◌, ◌++◌, length, slice_range, IfOk, OnOk};
ghost use Rattle.line_store.specs.Runs.{run_bytes};

use ed_base::{Bytes, Pieces};
use std::alloc::AllocError;
use std::marker::Model;
use std::rc::Rc;

/// Lines that stand in a row in a block. A contract sees their bytes, each line with its newline.
#[derive(Drop)]
pub(crate) struct LineRun {
    block: Rc<Bytes>,
    start: usize,
    end: usize,
    // Whether the last line has its newline in the block.
    ended: bool,
}

impl Model for LineRun {
    ghost use Rattle.std.specs.Prelude.{ℕ, ◌≤◌, List, length, slice_range};
    ghost use Rattle.line_store.specs.Runs.{run_bytes};

    ghost Value = { List ℕ };

    ghost view = { λ r. run_bytes (slice_range r.block.value r.start r.end) r.ended };

    ghost invariant = { λ r. (r.start ≤ r.end) × (r.end ≤ length r.block.value) };
}

impl LineRun {
    /// The lines of a block from one place up to another. An `Err` comes only where more share the block than can be counted.
    pub(crate) fn of(
        block: &Rc<Bytes>,
        start: usize,
        end: usize,
        ended: bool,
    ) -> Result<Self, AllocError>
        requires order { start ≤ end }
        requires within { end ≤ length block.now.value }
        ensures value { IfOk result (λ run. run ≡ run_bytes (slice_range block.now.value start end) ended) }
    {
        Ok(LineRun {
            block: block.clone()?,
            start,
            end,
            ended,
        })
    }

    /// Appends its bytes, which share its block.
    pub(crate) fn push_to(&self, output: &mut Pieces) -> Result<(), AllocError>
        ensures appended { OnOk result (output.new ≡ output.old ++ self.now) }
    {
        output.extend_from_block(&self.block, self.start, self.end)?;
        if self.ended {
            return Ok(());
        }
        output.extend_from_slice(b"\n")
    }

    /// The same run once more.
    pub(crate) fn try_copy(&self) -> Result<Self, AllocError>
        ensures value { IfOk result (λ copy. copy ≡ self.now) }
    {
        LineRun::of(&self.block, self.start, self.end, self.ended)
    }
}
