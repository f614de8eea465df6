//! Whether a script is vouched for, told without a certificate.

ghost use Rattle.std.specs.Prelude.{◌≤◌, length, IfOk};
ghost use Rattle.ed_syntax.specs.PublicScript.{script_value};
ghost use Rattle.ed_syntax.specs.PublicTypes.{steps_value};
ghost use Rattle.analyser.specs.Following.{sight_over, begun};
ghost use Rattle.analyser.specs.Judged.{IsJudgement};
ghost use Rattle.analyser.specs.Passing.{IsPassage};

use crate::analysing::{begin, end_fault};
use crate::analysis::Start;
use crate::passing::{Passage, pass_through};
use crate::walk::{Outcome, place_of};
use cert_check::Place;
use ed_base::Fault;
use ed_syntax::Script;
use std::alloc::AllocError;

/// A need that fails.
#[derive(Clone, Copy, PartialEq, Eq, Debug)]
pub struct Failure {
    /// A counted command's number, which counts from 1, or the number after the last one for the end.
    pub place: Place,
    /// The fault that may come there.
    pub why: Fault,
}

/// The first need that fails, by what the commands came to.
fn judgement(script: &Script, start: &Start, passage: Passage) -> Option<Failure>
    requires passed { IsPassage (sight_over (script_value script.now) start.now) (steps_value script.now.commands.items) (begun (script_value script.now) start.now) passage }
    requires within { passage.count ≤ length script.now.commands.items }
    ensures exact { IsJudgement (script_value script.now) start.now result }
{
    let Passage {
        count,
        quit,
        outcome,
    } = passage;
    match outcome {
        Outcome::Fails { place, why } => Some(Failure { place, why }),
        Outcome::Left(last) => match end_fault(quit, script.fault, &last) {
            Some(why) => Some(Failure {
                place: place_of(count + 1, None),
                why,
            }),
            None => None,
        },
    }
}

/// The first need of a script that fails over a start; none just where `analyse` makes a certificate. It tells no more than `analyse`, and
/// is quicker: no state is kept but the last one, and no path is listed.
pub fn first_failure(script: &Script, start: &Start) -> Result<Option<Failure>, AllocError>
    ensures exact { IfOk result (IsJudgement (script_value script.now) start.now) }
{
    let alloc = *script.commands.allocator();
    let (_, sight, begins) = begin(alloc, script, start)?;
    let passage = pass_through(alloc, &sight, script.commands.as_slice(), begins)?;
    Ok(judgement(script, start, passage))
}
