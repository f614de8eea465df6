//! What is found of a script that is judged: a name that no file can have, or the analyser's answer over a start.
ghost use Rattle.std.specs.Prelude.{◌≡◌, ℕ, List, IfOk};
ghost use Rattle.ed_syntax.specs.PublicScript.{script_value};
ghost use Rattle.ed_syntax.specs.reading.Reading.{script_of};
ghost use Rattle.analyser.specs.Analysis.{HasTextIfVouched};
ghost use Rattle.hints.specs.Passing.{IsAllowed};
ghost use Rattle.ed_calls.specs.Finding.{IsFinding};
ghost use Rattle.ed_calls.specs.Starts.{AreAllowed};
ghost use Rattle.ed_calls.specs.Vouch.{IsAnswerFor};

use crate::names::first_unusable;
use crate::starts::{Starts, start_of};
use analyser::{Analysis, Start, analyse};
use cert_check::Place;
use ed_syntax::{Script, read_script, scripts_are_read_as_spelled};
use hints::copy_of;
use std::alloc::{AllocError, Global};

/// A script that was judged: as it was read, the start that it was judged over, and the analyser's answer.
#[derive(Debug, Drop)]
pub(crate) struct Judged {
    pub(crate) script: Script,
    pub(crate) start: Start,
    pub(crate) analysis: Analysis,
}

/// What is found of a script.
#[derive(Debug, Drop)]
pub(crate) enum Finding {
    /// The command at this place asks for a file by what isn't UTF-8. It is the first that does, and a run comes there before a need that
    /// fails.
    Unusable(Place),
    /// None does, and the script was judged.
    Judged(Judged),
}

/// What is found of the script that these bytes spell.
pub(crate) fn judge(alloc: Global, script: &[u8], starts: &Starts) -> Result<Finding, AllocError>
    requires allowed { AreAllowed starts.now }
    ensures found { IfOk result (IsFinding script.now starts.now) }
{
    let read = read_script(alloc, script)?;
    let start = start_of(alloc, script, starts)?;
    let kept = copy_of(&start)?;
    let analysis = answer(&read, start)?;
    match first_unusable(&read, &kept, &analysis) {
        Some(place) => Ok(Finding::Unusable(place)),
        None => Ok(Finding::Judged(Judged {
            script: read,
            start: kept,
            analysis,
        })),
    }
}

/// The analyser's answer for a script that was read of some bytes.
fn answer(read: &Script, start: Start) -> Result<Analysis, AllocError>
    requires allowed { IsAllowed start }
    ensures answers { (bytes : List ℕ) → script_value read.now ≡ script_of bytes → IfOk result (IsAnswerFor bytes start) }
    ensures texts { IfOk result HasTextIfVouched }
{
    scripts_are_read_as_spelled();
    analyse(read, start)
}
