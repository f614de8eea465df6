//! Where the parts of a command's line end.
ghost use Rattle.std.specs.Prelude.{◌≢◌, MatchOption, IfOk};
ghost use Rattle.ed_syntax.specs.spelling.Characters.{backslash};
ghost use Rattle.ed_syntax.specs.Ends.{AddressesEnd, NoAddresses, PatternEnds, NoQuoted};

use crate::addresses::addresses;
use crate::quoting::quoted;
use std::alloc::{AllocError, Global};

/// The place after the addresses in front of a line and the blanks around them, where the letter of the command stands. None where they
/// can't be read.
pub fn addresses_end(alloc: Global, line: &[u8]) -> Result<Option<usize>, AllocError>
    ensures value { IfOk result (λ end. MatchOption end (NoAddresses line.now) (AddressesEnd line.now)) }
{
    match addresses(alloc, line)? {
        Some(read) => {
            let place = line.len() - read.1.len();
            Ok(Some(place))
        }
        None => Ok(None),
    }
}

/// The place of the closing delimiter of a pattern, whose text need not be one that can be read, or the end of the line. The bytes begin
/// after its first delimiter. None where a bracket expression or an escape isn't whole.
pub fn pattern_end(alloc: Global, delimiter: u8, bytes: &[u8]) -> Result<Option<usize>, AllocError>
    ensures value { IfOk result (λ end. delimiter ≢ backslash →
        MatchOption end (NoQuoted delimiter bytes.now) (PatternEnds delimiter bytes.now)) }
{
    match quoted(alloc, delimiter, bytes)? {
        Some(read) => {
            let place = bytes.len() - read.1.len();
            Ok(Some(place))
        }
        None => Ok(None),
    }
}
