//! The flags of `s`.
ghost use Rattle.std.specs.Prelude.{◌≡◌, MatchOption, Some, None};
ghost use Rattle.ed_syntax.specs.PublicTypes.{suffix_value};
ghost use Rattle.ed_syntax.specs.reading.ReadParameters.{form_at, count_at, which_at, later_which, flags, end_at};

use crate::tokens::{form_of, number};
use crate::{Form, MatchNumber, Which};

/// The closing delimiter with its flags, or the line's end, which writes as `p` does.
pub fn end_at(bytes: &[u8]) -> Option<((Which, Option<Form>), &[u8])>
    ensures value { MatchOption result (end_at bytes.now ≡ None)
        (λ ((w, form), rest). end_at bytes.now ≡ Some ((w, suffix_value form), rest.now)) }
{
    match bytes {
        [_, rest @ ..] => flags(rest),
        [] => Some(((Which::First, Some(Form::Plain)), bytes)),
    }
}

/// A count or `g`, and the letter of a form, each of which may be left out, in any order.
fn flags(bytes: &[u8]) -> Option<((Which, Option<Form>), &[u8])>
    ensures value { MatchOption result (flags bytes.now ≡ None)
        (λ ((w, form), rest). flags bytes.now ≡ Some ((w, suffix_value form), rest.now)) }
{
    let Some((first, rest)) = which_at(bytes) else {
        return None;
    };
    let (form, rest) = form_at(rest);
    match later_which(first, rest) {
        Some((which, rest)) => Some(((which, form), rest)),
        None => None,
    }
}

/// A count or `g` after the letter of a form, where none stood before it.
fn later_which(first: Option<Which>, bytes: &[u8]) -> Option<(Which, &[u8])>
    ensures value { MatchOption result (later_which first bytes.now ≡ None)
        (λ (w, rest). later_which first bytes.now ≡ Some (w, rest.now)) }
{
    match first {
        Some(which) => Some((which, bytes)),
        None => match which_at(bytes) {
            Some((second, rest)) => Some((second.unwrap_or(Which::First), rest)),
            None => None,
        },
    }
}

/// A count or `g`, or none.
fn which_at(bytes: &[u8]) -> Option<(Option<Which>, &[u8])>
    ensures value { MatchOption result (which_at bytes.now ≡ None)
        (λ (w, rest). which_at bytes.now ≡ Some (w, rest.now)) }
{
    match bytes {
        [b'g', rest @ ..] => Some((Some(Which::All), rest)),
        [b'0'..=b'9', ..] => count_at(bytes),
        _ => Some((None, bytes)),
    }
}

/// A count, which isn't 0.
fn count_at(bytes: &[u8]) -> Option<(Option<Which>, &[u8])>
    ensures value { MatchOption result (count_at bytes.now ≡ None)
        (λ (w, rest). count_at bytes.now ≡ Some (w, rest.now)) }
{
    let (count, rest) = number(bytes)?;
    let which = Which::Nth(MatchNumber::new(count)?);
    Some((Some(which), rest))
}

/// The letter of a form, or none.
fn form_at(bytes: &[u8]) -> (Option<Form>, &[u8])
    ensures value { (suffix_value result.0, result.1.now) ≡ form_at bytes.now }
{
    match bytes {
        [letter @ (b'l' | b'n' | b'p'), rest @ ..] => (form_of(*letter), rest),
        _ => (None, bytes),
    }
}
