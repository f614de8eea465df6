//! A script that is judged: whether it is vouched for, without its certificate.
ghost use Rattle.std.specs.Prelude.{◌≤◌};
ghost use Rattle.hints.specs.Passing.{IsAllowed};
ghost use Rattle.ed_calls.specs.Judging.{IsJudgement};
ghost use Rattle.ed_calls.specs.Starts.{AreAllowed};

use crate::judging::{Finding, Judged, judge};
use crate::starts::Starts;
use crate::stderr::aside::Aside;
use crate::vouching::{CANNOT_STATUS, VOUCHED_STATUS};
use analyser::Analysis;
use cert_check::Place;
use ed_base::Fault;
use std::alloc::{AllocError, Global};

/// How much a person is told of a script that isn't vouched for.
#[derive(Clone, Copy, Debug, PartialEq, Eq)]
pub enum Detail {
    /// Nothing.
    Nothing,
    /// The first command that may fail.
    First,
    /// Each one that may fail, with the earlier ones mended.
    Each,
}

/// Judges the script that these bytes spell over the start that is given or found, and gives the status that `vouch_text` ends with where
/// its output is taken. A person is told why a script isn't vouched for, and what it shows that is hardly meant.
pub fn judge_text(
    alloc: Global,
    script: &[u8],
    starts: Starts,
    detail: Detail,
    aside: &mut Aside<'_>,
) -> u8
    requires allowed { AreAllowed starts }
    ensures judged { IsJudgement script.now starts result }
    ensures status { result ≤ 2 }
{
    if detail != Detail::Nothing {
        aside.remark();
    }
    match judge(alloc, script, &starts) {
        Ok(Finding::Unusable(place)) => {
            tell_name(place, detail, aside);
            CANNOT_STATUS
        }
        Ok(Finding::Judged(one)) => match &one.analysis {
            Analysis::Vouched(_) => VOUCHED_STATUS,
            Analysis::Cannot { .. } => {
                tell_why(&one, &starts, detail, aside);
                CANNOT_STATUS
            }
        },
        Err(AllocError) => Fault::Memory.status(),
    }
}

/// Tells a person which command asks for a file by what isn't UTF-8.
fn tell_name(place: Place, detail: Detail, aside: &mut Aside<'_>) {
    if detail != Detail::Nothing {
        aside.unusable(place);
    }
}

/// Tells a person why a script isn't vouched for.
fn tell_why(one: &Judged, starts: &Starts, detail: Detail, aside: &mut Aside<'_>)
    requires allowed { IsAllowed one.now.start }
{
    if detail == Detail::Nothing {
        return;
    }
    aside.cannot(
        &one.start,
        &one.analysis,
        starts.file(),
        starts.least_sought(),
        detail == Detail::Each,
    );
}
