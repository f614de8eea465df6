//! What lies ahead in a sequence: ways, each with the item that it meets next.

ghost use Rattle.std.specs.Prelude.{◌≡◌, ℕ, ◌-◌, ◌<◌, List, ◌++◌, map, OnOk};
ghost use Rattle.bre_parse.specs.Ways.{Way};
ghost use Rattle.bre_match.specs.Listed.{listed};
ghost use Rattle.bre_match.specs.Runs.{groups_at, other_ways, at_item, tasks, AreOf};

use crate::left::Left;
use crate::listed::WayList;
use crate::run::{Ahead, Ends, Run};
use bre_parse::tree::Groups;
use std::alloc::AllocError;

/// Puts the ways of a list before all else, each to meet this item next.
pub(crate) fn push_ahead(left: &mut Vec<Left>, item: usize, ways: WayList) -> Result<(), AllocError>
    ensures value { OnOk result (tasks left.new.items ≡ map (at_item item) (listed ways) ++ tasks left.old.items) }
{
    left.push(Left::List(item, 0, ways))?;
    Ok(())
}

/// Puts the ways that end there, if any do, before all else, each to meet this item next.
#[tactic(auto, using(crate::proofs::Tasks::tasks_push))]
pub(crate) fn push_run_ahead(
    left: &mut Vec<Left>,
    item: usize,
    groups: &Groups,
    found: Option<Ends>,
) -> Result<(), AllocError>
    ensures value { (ways : List Way) → AreOf groups.now found ways → OnOk result (tasks left.new.items ≡ map (at_item item) ways ++ tasks left.old.items) }
{
    if let Some(ends) = found {
        let run = Run {
            end: ends.end,
            shorter: ends.shorter,
            groups: *groups,
            closes: ends.closes,
        };
        left.push(Left::Run(Ahead { item, run }))?;
    }
    Ok(())
}

/// Puts the ways of what was taken up but the first before all else.
#[tactic(auto, using(crate::proofs::Tasks::tasks_push, crate::proofs::Tasks::others_there))]
pub(crate) fn push_others(left: &mut Vec<Left>, taken: &Ahead) -> Result<(), AllocError>
    ensures value { OnOk result (tasks left.new.items ≡ map (at_item taken.now.item) (other_ways taken.now.run.end taken.now.run.shorter (groups_at taken.now.run)) ++ tasks left.old.items) }
{
    if taken.run.shorter > 0 {
        let item = taken.item;
        let groups = taken.run.groups;
        let closes = taken.run.closes;
        let end = taken.run.end.saturating_sub(1);
        let shorter = taken.run.shorter - 1;
        let run = Run {
            end,
            shorter,
            groups,
            closes,
        };
        left.push(Left::Run(Ahead { item, run }))?;
    }
    Ok(())
}
