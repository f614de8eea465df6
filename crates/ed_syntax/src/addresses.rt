//! The addresses at the front of a line.
ghost use Rattle.std.specs.Prelude.{◌≡◌, MatchOption, Some, None, IfOk};
ghost use Rattle.ed_syntax.specs.reading.Tokens.{base, with_offsets, address, pair, addresses};
ghost use Rattle.ed_syntax.specs.spelling.Addressing.{alone, comma, semicolon};
ghost use Rattle.ed_syntax.specs.PublicTypes.{base_value, address_value, addresses_value, optional_address};
ghost use Rattle.ed_syntax.specs.Commands as ed;
ghost use Rattle.ed_syntax.specs.reading.ReadParts.{optional_base, around};

use crate::offsets::offsets;
use crate::quoting::{Parsed, after_closing, pattern_at};
use crate::tokens::{after_blanks, letter, number};
use crate::{Address, Addresses, Base};
use std::alloc::{AllocError, Global};

/// The addresses before a command, with the blanks around them.
pub fn addresses(alloc: Global, bytes: &[u8]) -> Parsed<'_, Addresses>
    ensures value { IfOk result (λ read. MatchOption read (addresses bytes.now ≡ None)
        (λ (a, rest). addresses bytes.now ≡ Some (addresses_value a, rest.now))) }
{
    match address(alloc, after_blanks(bytes))? {
        Some((first, rest)) => pair(alloc, first, after_blanks(rest)),
        None => Ok(None),
    }
}

/// A `,` or a `;` with the second address and the blanks after it, or nothing.
fn pair(alloc: Global, first: Option<Address>, bytes: &[u8]) -> Parsed<'_, Addresses>
    ensures value { IfOk result (λ read. MatchOption read (pair (optional_address first) bytes.now ≡ None)
        (λ (a, rest). pair (optional_address first) bytes.now ≡ Some (addresses_value a, rest.now))) }
{
    match bytes {
        [separator @ (b',' | b';'), rest @ ..] => match address(alloc, after_blanks(rest))? {
            Some((second, rest)) => {
                Ok(Some((around(*separator, first, second)?, after_blanks(rest))))
            }
            None => Ok(None),
        },
        _ => Ok(Some((alone(first), bytes))),
    }
}

/// The addresses around a `,` or else a `;`.
fn around(
    separator: u8,
    first: Option<Address>,
    second: Option<Address>,
) -> Result<Addresses, AllocError>
    ensures value { IfOk result (λ a. addresses_value a ≡ around separator (optional_address first) (optional_address second)) }
{
    if separator == b',' {
        comma(first, second)
    } else {
        Ok(semicolon(first, second))
    }
}

/// The addresses around a `,`, each of which may be left out.
fn comma(first: Option<Address>, second: Option<Address>) -> Result<Addresses, AllocError>
    ensures value { IfOk result (λ a. addresses_value a ≡ comma (optional_address first) (optional_address second)) }
{
    match (first, second) {
        (None, None) => Ok(Addresses::Comma(at_base(Base::Number(1)), at_base(Base::Last))),
        (None, Some(second)) => Ok(Addresses::Comma(at_base(Base::Number(1)), second)),
        (Some(first), None) => {
            let second = first.try_copy()?;
            Ok(Addresses::Comma(first, second))
        }
        (Some(first), Some(second)) => Ok(Addresses::Comma(first, second)),
    }
}

/// The addresses around a `;`, each of which may be left out.
fn semicolon(first: Option<Address>, second: Option<Address>) -> Addresses
    ensures value { addresses_value result ≡ semicolon (optional_address first) (optional_address second) }
{
    match (first, second) {
        (None, None) => { Addresses::Semicolon(at_base(Base::Current), Some(at_base(Base::Last))) }
        (None, Some(second)) => Addresses::Semicolon(at_base(Base::Current), Some(second)),
        (Some(first), second) => Addresses::Semicolon(first, second),
    }
}

fn alone(first: Option<Address>) -> Addresses
    ensures value { addresses_value result ≡ alone (optional_address first) }
{
    match first {
        None => Addresses::Without,
        Some(address) => Addresses::One(address),
    }
}

/// An address in front, or none.
pub(crate) fn address(alloc: Global, bytes: &[u8]) -> Parsed<'_, Option<Address>>
    ensures value { IfOk result (λ read. MatchOption read (address bytes.now ≡ None)
        (λ (a, rest). address bytes.now ≡ Some (optional_address a, rest.now))) }
{
    match base(alloc, bytes)? {
        Some((base, rest)) => Ok(with_offsets(base, rest)),
        None => Ok(None),
    }
}

/// The offsets after a base.
fn with_offsets(base: Option<Base>, bytes: &[u8]) -> Option<(Option<Address>, &[u8])>
    ensures value { MatchOption result (with_offsets (optional_base base) bytes.now ≡ None)
        (λ (a, rest). with_offsets (optional_base base) bytes.now ≡ Some (optional_address a, rest.now)) }
{
    match base {
        Some(base) => {
            let (offset, rest) = offsets(bytes)?;
            Some((Some(Address { base, offset }), rest))
        }
        None => Some((None, bytes)),
    }
}

/// The base of an address, or none. One that begins with an offset has the current line for its base.
fn base(alloc: Global, bytes: &[u8]) -> Parsed<'_, Option<Base>>
    ensures value { IfOk result (λ read. MatchOption read (base bytes.now ≡ None)
        (λ (b, rest). base bytes.now ≡ Some (optional_base b, rest.now))) }
{
    let (base, rest) = match bytes {
        [b'0'..=b'9', ..] => match number(bytes) {
            Some((line, rest)) => (Base::Number(line), rest),
            None => return Ok(None),
        },
        [b'.', rest @ ..] => (Base::Current, rest),
        [b'$', rest @ ..] => (Base::Last, rest),
        [b'\'', rest @ ..] => match letter(rest) {
            Some((letter, rest)) => (Base::Marked(letter), rest),
            None => return Ok(None),
        },
        [b'/', rest @ ..] => match pattern_at(alloc, b'/', rest)? {
            Some((pattern, rest)) => (Base::Forward(pattern), after_closing(rest)),
            None => return Ok(None),
        },
        [b'?', rest @ ..] => match pattern_at(alloc, b'?', rest)? {
            Some((pattern, rest)) => (Base::Backward(pattern), after_closing(rest)),
            None => return Ok(None),
        },
        [b'+' | b'-', ..] => (Base::Current, bytes),
        _ => return Ok(Some((None, bytes))),
    };
    Ok(Some((Some(base), rest)))
}

/// An address without offsets.
fn at_base(base: Base) -> Address
    ensures value { address_value result ≡ ed.at_base (base_value base) }
{
    Address { base, offset: 0 }
}
