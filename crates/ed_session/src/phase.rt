//! Where a session is.

use ed_base::{Bytes, Fault};
use ed_syntax::Ending;

/// Where a session is.
#[derive(Drop)]
pub(crate) enum Phase {
    /// It wants the file at this path, if there is one, before its first step.
    Fresh(Option<Bytes>),
    /// It is before a step, or before the end, and where prompting is on the prompt comes first.
    Between,
    /// The same, after the prompt where prompting is on.
    Prompted,
    /// It waits for the answer to the request of its next step.
    Waiting,
    /// Its run is over: by itself, because memory ran out, or because its output was refused.
    Over(Result<Ending, Fault>),
}
