//! Text that is inserted before line 1 where no line may be left.

ghost use Rattle.std.specs.Prelude.{◌≡◌, map};
ghost use Rattle.std.specs.List.{list_any};
ghost use Rattle.ed_syntax.specs.PublicTypes.{verb_value, addresses_value, command_value, step_value, alteration_value};
ghost use Rattle.remarks.specs.Steps.{is_delete, puts, puts_lines, may_leave_none, is_insert, is_at_first, inserts_at_first};

use crate::ranges::is_line_one;
use ed_syntax::{Addresses, Alteration, Command, Verb};

fn is_delete(verb: &Verb) -> bool
    ensures value { result ≡ is_delete (verb_value verb.now) }
{
    match verb {
        Verb::Delete => true,
        _ => false,
    }
}

/// Whether one of the commands of a list is `d`.
fn any_deletes(list: &[Command]) -> bool
    ensures value { result ≡ list_any (λ c. is_delete c.verb) (map command_value list.now) }
{
    for command in list {
        if is_delete(&command.verb) {
            return true;
        }
    }
    false
}

/// Whether lines are put in, or come back, so that there are some.
fn puts(lines: Alteration<'_>) -> bool
    ensures value { result ≡ puts (alteration_value lines.entry) }
{
    match lines {
        Alteration::Enters(_) | Alteration::Reads | Alteration::Loads | Alteration::BringsBack =>
            true,
        _ => false,
    }
}

/// Whether a command puts lines in.
fn puts_lines(command: &Command) -> bool
    ensures value { result ≡ puts_lines (step_value command.now) }
{
    puts(command.verb.takes().lines)
}

/// Whether no line may be left after a command, where none may have been left before it or some were.
pub fn may_leave_none(emptied: bool, command: &Command) -> bool
    ensures value { result ≡ may_leave_none emptied (step_value command.now) }
{
    any_deletes(command.list()) || (emptied && !puts_lines(command))
}

fn is_insert(verb: &Verb) -> bool
    ensures value { result ≡ is_insert (verb_value verb.now) }
{
    match verb {
        Verb::Insert(_) => true,
        _ => false,
    }
}

/// Whether line 1 is the only address.
fn is_at_first(addresses: &Addresses) -> bool
    ensures value { result ≡ is_at_first (addresses_value addresses.now) }
{
    match addresses {
        Addresses::One(only) => is_line_one(only),
        _ => false,
    }
}

/// Whether a command is `1i`.
pub fn inserts_at_first(command: &Command) -> bool
    ensures value { result ≡ inserts_at_first (step_value command.now) }
{
    is_insert(&command.verb) && is_at_first(&command.addresses)
}
