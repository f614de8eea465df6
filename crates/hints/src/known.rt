//! What is known before a command.

ghost use Rattle.std.specs.Prelude.{◌≡◌, map};
ghost use Rattle.std.specs.Option.{option_copied};
ghost use Rattle.cert_check.specs.Certificates.{note_value};
ghost use Rattle.hints.specs.Sought.{known_at};

use cert_check::{Note, Place};
use ed_rules::KeptState;

/// What is known before the command at a place: of a list, before its last command that was noted.
pub(crate) fn state_at(place: Place, notes: &[Note]) -> Option<&KeptState>
    ensures value { option_copied result ≡ known_at place (map note_value notes.now) }
{
    let note = notes.get(place.command.saturating_sub(1))?;
    match place.inner {
        None => Some(&note.state),
        Some(_) => note.looped.as_ref()?.inner.as_slice().last(),
    }
}
