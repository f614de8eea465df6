//! Ranges by numbers, the greater one first.

ghost use Rattle.std.specs.Prelude.{◌≡◌};
ghost use Rattle.ed_syntax.specs.PublicTypes.{address_value, addresses_value, command_value};
ghost use Rattle.remarks.specs.Ranges.{is_above, is_reversed_pair, is_reversed, is_range, is_backward};

use ed_syntax::{Address, Addresses, Base, Command, Taking};

/// Whether the first of two numbers of lines is greater.
fn is_above(first: &Address, last: &Address) -> bool
    ensures value { result ≡ is_above (address_value first.now) (address_value last.now) }
{
    match (&first.base, &last.base) {
        (Base::Number(first), Base::Number(last)) => first > last,
        _ => false,
    }
}

/// Whether both addresses are numbers without offsets, and the first one is greater.
fn is_reversed_pair(first: &Address, last: &Address) -> bool
    ensures value { result ≡ is_reversed_pair (address_value first.now) (address_value last.now) }
{
    is_above(first, last) && first.offset == 0 && last.offset == 0
}

/// Whether two such addresses are given.
fn is_reversed(addresses: &Addresses) -> bool
    ensures value { result ≡ is_reversed (addresses_value addresses.now) }
{
    match addresses {
        Addresses::Comma(first, last) => is_reversed_pair(first, last),
        Addresses::Semicolon(first, Some(last)) => is_reversed_pair(first, last),
        _ => false,
    }
}

/// Whether two lines are taken, and their order counts.
fn is_range(taking: Taking) -> bool
    ensures value { result ≡ is_range taking }
{
    match taking {
        Taking::Lines | Taking::Range | Taking::Whole => true,
        _ => false,
    }
}

/// Whether the first line of a command's range has a greater number than the last one.
pub fn is_backward(command: &Command) -> bool
    ensures value { result ≡ is_backward (command_value command.now) }
{
    is_reversed(&command.addresses) && is_range(command.verb.takes().taking)
}
