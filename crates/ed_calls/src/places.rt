//! The order in which a run comes to commands.
ghost use Rattle.std.specs.Prelude.{◌≡◌};
ghost use Rattle.ed_calls.specs.Places as meaning;

use cert_check::Place;

/// Whether a place comes before another.
pub(crate) fn is_before(one: Place, other: Place) -> bool
    ensures value { result ≡ meaning.is_before one other }
{
    one.command < other.command
        || (one.command == other.command && comes_first(one.inner, other.inner))
}

/// The same of two places at one command.
fn comes_first(one: Option<usize>, other: Option<usize>) -> bool
    ensures value { result ≡ meaning.comes_first one other }
{
    match (one, other) {
        (None, Some(_)) => true,
        (Some(one), Some(other)) => one < other,
        (_, None) => false,
    }
}
