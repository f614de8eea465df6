//! The verdict on a certificate.

ghost use Rattle.std.specs.Prelude.{◌≡◌, IfOk};
ghost use Rattle.ed_syntax.specs.PublicScript.{script_value};
ghost use Rattle.cert_check.specs.Certificates.{certificate_value};
ghost use Rattle.cert_check.specs.checker.Valid.{judged};
ghost use Rattle.cert_check.specs.checker.Passing.{verdict_at, verdict_after};
ghost use Rattle.cert_check.specs.checker.Sound.{CannotFail};

pub(crate) mod loops;
pub(crate) mod passing;
pub(crate) mod starting;
pub(crate) mod verdict;

use crate::certificate::Certificate;
use crate::checker::passing::{are_shaped, count, ends_well, go_through};
use crate::checker::starting::start_of;
use crate::checker::verdict::{Place, Verdict};
use crate::laws::accepted_scripts_cannot_fail;
use crate::sight::Sight;
use ed_rules::State;
use ed_syntax::Script;
use std::alloc::AllocError;

fn verdict_at(number: usize, holds: bool) -> Verdict
    ensures value { result ≡ verdict_at number holds }
{
    if holds {
        Verdict::Accepted
    } else {
        Verdict::Refused(Place {
            command: number,
            inner: None,
        })
    }
}

/// The verdict where the checks of the commands came to this, and left `coming` where none failed.
fn verdict_after(
    failed: Option<Place>,
    coming: &State,
    quit: bool,
    fault: Option<usize>,
    certificate: &Certificate,
) -> Verdict
    ensures value { result ≡ verdict_after failed coming.now quit fault (certificate_value certificate.now) }
{
    match failed {
        None => {
            let holds = ends_well(quit, fault, certificate, coming);
            verdict_at(certificate.notes.len() + 1, holds)
        }
        Some(place) => Verdict::Refused(place),
    }
}

fn judge(script: &Script, certificate: &Certificate) -> Result<Verdict, AllocError>
    ensures exact { IfOk result (λ answer. answer ≡
        judged (script_value script.now) (certificate_value certificate.now)) }
{
    let commands = script.commands.as_slice();
    let notes = certificate.notes.as_slice();
    let counted = count(commands);
    if !are_shaped(commands, counted.number, notes) {
        return Ok(verdict_at(0, false));
    }
    let Some(mut coming) = start_of(script, certificate)? else {
        return Ok(verdict_at(0, false));
    };
    let sight = Sight::of(script, certificate.version, &certificate.has)?;
    sight.tell(&mut coming);
    let mut before = coming.try_copy()?;
    let writes = certificate.writes.as_slice();
    let failed = go_through(&sight, writes, commands, notes, &mut before, &mut coming)?;
    let verdict = verdict_after(failed, &coming, counted.quit, script.fault, certificate);
    Ok(verdict)
}

/// Checks a certificate for a script. It goes through the script once and stops at the first check that fails.
pub fn check(script: &Script, certificate: &Certificate) -> Result<Verdict, AllocError>
    ensures exact { IfOk result (λ answer. answer ≡
        judged (script_value script.now) (certificate_value certificate.now)) }

    // What is accepted can't fail: each run over a start that it allows ends as the certificate says.
    ensures sound { IfOk result (λ answer. answer ≡ Verdict.Accepted →
        CannotFail (script_value script.now) (certificate_value certificate.now)) }
{
    accepted_scripts_cannot_fail();
    judge(script, certificate)
}
