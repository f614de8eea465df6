//! Laws about runs: contracts of functions that do nothing.
ghost use Rattle.ed_calls.specs.Headline.{AcceptedRunsEndWell};

use cert_check::accepted_scripts_cannot_fail;
use ed_syntax::cut_runs_write_a_front;

/// The headline for a session just made that is driven: where the script's certificate is accepted and the start is as that wants it, the run
/// ends as certified, and asks to write only listed paths.
pub fn accepted_runs_end_well()
    ensures sound { AcceptedRunsEndWell }
{
    accepted_scripts_cannot_fail();
    cut_runs_write_a_front();
}
