//! Ranges that begin or end elsewhere than they seem to.

ghost use Rattle.std.specs.Prelude.{◌≡◌};
ghost use Rattle.ed_syntax.specs.PublicTypes.{base_value, address_value, addresses_value};
ghost use Rattle.remarks.specs.Ranges.{is_forward, is_line_one, is_to_match, is_current, is_elsewhere, is_counted_from_current};

use ed_syntax::{Address, Addresses, Base, after_blanks};

fn is_forward(base: &Base) -> bool
    ensures value { result ≡ is_forward (base_value base.now) }
{
    match base {
        Base::Forward(_) => true,
        _ => false,
    }
}

/// Line 1, by its number and without an offset.
pub fn is_line_one(address: &Address) -> bool
    ensures value { result ≡ is_line_one (address_value address.now) }
{
    match &address.base {
        Base::Number(number) => *number == 1 && address.offset == 0,
        _ => false,
    }
}

fn is_current(base: &Base) -> bool
    ensures value { result ≡ is_current (base_value base.now) }
{
    match base {
        Base::Current => true,
        _ => false,
    }
}

/// Whether a line may be another one than the current line, wherever that is, and isn't the last one.
fn is_elsewhere(base: &Base) -> bool
    ensures value { result ≡ is_elsewhere (base_value base.now) }
{
    match base {
        Base::Current | Base::Last => false,
        _ => true,
    }
}

/// Whether the lines go from line 1 to a match.
pub fn is_to_match(addresses: &Addresses) -> bool
    ensures value { result ≡ is_to_match (addresses_value addresses.now) }
{
    match addresses {
        Addresses::Comma(first, last) => is_line_one(first) && is_forward(&last.base),
        _ => false,
    }
}

/// Whether the bytes of a command begin with a `,`, so that its first address is left out.
pub fn begins_with_comma(bytes: &[u8]) -> bool {
    match after_blanks(bytes) {
        [b',', ..] => true,
        _ => false,
    }
}

/// Whether a second address after a `,` is counted on from the current line, and the first one stands elsewhere.
pub fn is_counted_from_current(addresses: &Addresses) -> bool
    ensures value { result ≡ is_counted_from_current (addresses_value addresses.now) }
{
    match addresses {
        Addresses::Comma(first, last) => {
            is_elsewhere(&first.base) && is_current(&last.base) && last.offset > 0
        }
        _ => false,
    }
}
