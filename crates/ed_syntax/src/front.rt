//! What stands at the front of a line, as its bytes spell it, and what stands after that.
ghost use Rattle.std.specs.Prelude.{◌≢◌, ◌≤◌, length, MatchOption, IfOk, ⊤};
ghost use Rattle.ed_syntax.specs.PublicTypes.{optional_address};
ghost use Rattle.ed_syntax.specs.spelling.Absence.{NoAddress, NoNumber, NoPattern};
ghost use Rattle.ed_syntax.specs.spelling.Addressing.{SpellsAddress, SpellsNumber};
ghost use Rattle.ed_syntax.specs.spelling.Characters.{backslash};
ghost use Rattle.ed_syntax.specs.spelling.Quoting.{SpellsPattern};

use crate::{Address, Parsed, Pattern, addresses, quoting, tokens};
use std::alloc::Global;

/// The number that one to nine digits in front spell, and the bytes after them. `None` where there is no digit, or a tenth one.
pub fn number(bytes: &[u8]) -> Option<(u32, &[u8])>
    ensures spelled { MatchOption result (NoNumber bytes.now) (λ (n, rest). SpellsNumber bytes.now rest.now n) }
    ensures few { MatchOption result ⊤ (λ (n, rest). n ≤ 999999999) }
    ensures shorter { MatchOption result ⊤ (λ (n, rest). length rest.now ≤ length bytes.now) }
{
    tokens::number(bytes)
}

/// The pattern after a delimiter, up to the next one, with which the rest begins, or to the line's end. Nothing is the remembered
/// pattern, `None`. None where what stands there is no pattern. Only a lack of memory is an error.
pub fn pattern_at(alloc: Global, delimiter: u8, bytes: &[u8]) -> Parsed<'_, Option<Pattern>>
    ensures spelled { IfOk result (λ read. delimiter ≢ backslash → MatchOption read (NoPattern delimiter bytes.now)
        (λ (p, rest). SpellsPattern delimiter bytes.now rest.now p)) }
{
    quoting::pattern_at(alloc, delimiter, bytes)
}

/// The address in front, or none where none begins there; blanks before it are no part of it. None where one begins that can't be read
/// (XCU ed, "Addresses in ed"). Only a lack of memory is an error.
pub fn address(alloc: Global, bytes: &[u8]) -> Parsed<'_, Option<Address>>
    ensures spelled { IfOk result (λ read. MatchOption read (NoAddress bytes.now)
        (λ (a, rest). SpellsAddress bytes.now rest.now (optional_address a))) }
{
    addresses::address(alloc, bytes)
}
