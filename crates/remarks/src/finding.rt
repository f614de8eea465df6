//! What was remarked so far: each kind once, at its first place.

ghost use Rattle.std.specs.Prelude.{◌≡◌, ◌↔◌, ◌&&◌, ◌||◌, if◌then◌else◌, IsTrue, OnOk};
ghost use Rattle.remarks.specs.declared.slip.Slip.{Slip};
ghost use Rattle.remarks.specs.Told.{same, tells};
ghost use Rattle.remarks.specs.Adding.{with_remark, Adds};

use crate::{Remarked, Slip};
use std::alloc::AllocError;

fn are_equal(one: Slip, other: Slip) -> bool
    ensures exact { IsTrue result ↔ (one ≡ other) }
{
    one == other
}

/// Whether two kinds are the same.
fn same(one: Slip, other: Slip) -> bool
    ensures value { result ≡ same one other }
{
    are_equal(one, other)
}

/// Whether a kind is among these.
fn tells(slip: Slip, found: &[Remarked]) -> bool
    ensures value { result ≡ tells slip found.now }
{
    for remarked in found {
        if same(slip, remarked.slip) {
            return true;
        }
    }
    false
}

/// Adds a kind at a line, unless it is there.
#[tactic(auto, using(crate::proofs::TellLemmas::tells_push, crate::proofs::TellLemmas::told_again))]
pub fn tell(found: &mut Vec<Remarked>, slip: Slip, line: usize) -> Result<(), AllocError>
    ensures value { OnOk result (found.new.items ≡ with_remark line slip found.old.items) }
    ensures told { OnOk result ((kind : Slip) → tells kind found.new.items ≡ (same kind slip || tells kind found.old.items)) }
    ensures appended { OnOk result (Adds found.old.items found.new.items) }
{
    if tells(slip, found.as_slice()) {
        return Ok(());
    }
    found.push(Remarked { line, slip })?;
    Ok(())
}

/// Adds a kind at a line where it is shown there.
pub fn tell_if(
    found: &mut Vec<Remarked>,
    is_shown: bool,
    slip: Slip,
    line: usize,
) -> Result<(), AllocError>
    ensures value { OnOk result (found.new.items ≡ (if is_shown then with_remark line slip found.old.items else found.old.items)) }
    ensures told { OnOk result ((kind : Slip) → tells kind found.new.items ≡ ((same kind slip && is_shown) || tells kind found.old.items)) }
    ensures appended { OnOk result (Adds found.old.items found.new.items) }
{
    if is_shown {
        return tell(found, slip, line);
    }
    Ok(())
}
