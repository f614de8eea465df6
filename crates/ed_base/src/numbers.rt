//! Numbers as decimal digits.
ghost use Rattle.std.specs.Prelude.{◌≡◌, ◌++◌, decimal, OnOk, OnErr};

use crate::Bytes;
use itoa::Buffer;
use std::alloc::AllocError;

/// Appends the decimal digits of a number, without leading zeros, or, on an `Err`, nothing.
pub fn push_number(bytes: &mut Bytes, number: u64) -> Result<(), AllocError>
    ensures appended { OnOk result (bytes.new ≡ bytes.old ++ decimal number) }
    ensures unchanged { OnErr result (bytes.new ≡ bytes.old) }
{
    let mut digits = Buffer::new();
    bytes.extend_from_slice(digits.format(number).as_bytes())
}
