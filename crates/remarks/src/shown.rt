//! What a command shows, its list aside.

ghost use Rattle.std.specs.Prelude.{◌≡◌, ◌&&◌, ◌||◌, false, option_map, OnOk};
ghost use Rattle.std.specs.List.{list_any};
ghost use Rattle.ed_syntax.specs.PublicTypes.{address_value, addresses_value, command_value};
ghost use Rattle.remarks.specs.declared.slip.Slip.{Slip};
ghost use Rattle.remarks.specs.Parts.{parts_of};
ghost use Rattle.remarks.specs.Patterns.{pattern_shows};
ghost use Rattle.remarks.specs.Shown.{text_shows, sought, pair_of, patterns_of, range_shows, command_shows, is_open};
ghost use Rattle.remarks.specs.Told.{same, tells};
ghost use Rattle.remarks.specs.Adding.{Adds};

use crate::backward::is_backward;
use crate::finding::tell_if;
use crate::parts::{Part, parts_of};
use crate::patterns::pattern_shows;
use crate::ranges::{begins_with_comma, is_counted_from_current, is_to_match};
use crate::{Remarked, Slip};
use ed_syntax::{Address, Addresses, Base, Command, Pattern};
use std::alloc::{AllocError, Global};

/// What a pattern may show.
const OF_PATTERNS: [Slip; 7] = [
    Slip::BracketOfBytes,
    Slip::DotOfBytes,
    Slip::Plus,
    Slip::QuestionMark,
    Slip::Bar,
    Slip::Parentheses,
    Slip::Braces,
];

/// Where a command stands: its bytes from their first on, and its line.
#[derive(Clone, Copy)]
pub struct Spot<'a> {
    pub alloc: Global,
    /// Whether the script has bytes above 127.
    pub is_high: bool,
    pub line: usize,
    pub bytes: &'a [u8],
}

/// Remarks what a pattern shows, where there is one.
fn tell_of_pattern(
    found: &mut Vec<Remarked>,
    spot: Spot<'_>,
    pattern: Option<&Pattern>,
) -> Result<(), AllocError>
    ensures told { OnOk result ((kind : Slip) → tells kind found.new.items ≡
        (text_shows spot.entry.is_high kind (option_map (λ pattern. pattern.now) pattern.entry) || tells kind found.old.items)) }
    ensures appended { OnOk result (Adds found.old.items found.new.items) }
{
    match pattern {
        Some(pattern) => tell_of_text(found, spot, pattern.text()),
        None => Ok(()),
    }
}

/// Remarks what the text of a pattern shows.
#[tactic(auto, using(crate::proofs::KindLemmas::pattern_kinds))]
fn tell_of_text(found: &mut Vec<Remarked>, spot: Spot<'_>, text: &[u8]) -> Result<(), AllocError>
    ensures told { OnOk result ((kind : Slip) → tells kind found.new.items ≡
        (pattern_shows kind spot.entry.is_high (parts_of text.now) || tells kind found.old.items)) }
    ensures appended { OnOk result (Adds found.old.items found.new.items) }
{
    let parts = parts_of(spot.alloc, text)?;
    tell_each(found, spot, parts.as_slice(), &OF_PATTERNS)
}

/// Remarks which of these kinds a pattern of these parts shows.
fn tell_each(
    found: &mut Vec<Remarked>,
    spot: Spot<'_>,
    parts: &[Part],
    slips: &[Slip],
) -> Result<(), AllocError>
    ensures told { OnOk result ((kind : Slip) → tells kind found.new.items ≡
        (list_any (λ s. same kind s && pattern_shows s spot.entry.is_high parts.now) slips.now || tells kind found.old.items)) }
    ensures appended { OnOk result (Adds found.old.items found.new.items) }
{
    for slip in slips {
        let is_shown = pattern_shows(*slip, spot.is_high, parts);
        tell_if(found, is_shown, *slip, spot.line)?;
    }
    Ok(())
}

/// The pattern for which an address looks, where there is one.
fn sought(address: Option<&Address>) -> Option<&Pattern>
    ensures value { option_map (λ pattern. pattern.now) result ≡ sought (option_map (λ address. address_value address.now) address.entry) }
{
    let Some(address) = address else {
        return None;
    };
    match &address.base {
        Base::Forward(pattern) | Base::Backward(pattern) => pattern.as_ref(),
        _ => None,
    }
}

/// The two addresses of a command, each of which may be missing.
fn pair(addresses: &Addresses) -> (Option<&Address>, Option<&Address>)
    ensures first { option_map (λ address. address_value address.now) result.0 ≡ (pair_of (addresses_value addresses.now)).0 }
    ensures second { option_map (λ address. address_value address.now) result.1 ≡ (pair_of (addresses_value addresses.now)).1 }
{
    match addresses {
        Addresses::Without => (None, None),
        Addresses::One(only) => (Some(only), None),
        Addresses::Comma(first, second) => (Some(first), Some(second)),
        Addresses::Semicolon(first, second) => (Some(first), second.as_ref()),
    }
}

/// Remarks what the patterns of a command show.
#[tactic(auto, using(crate::proofs::OrLemmas::or_four))]
fn tell_of_patterns(
    found: &mut Vec<Remarked>,
    spot: Spot<'_>,
    command: &Command,
) -> Result<(), AllocError>
    ensures told { OnOk result ((kind : Slip) → tells kind found.new.items ≡
        (list_any (text_shows spot.entry.is_high kind) (patterns_of (command_value command.now)) || tells kind found.old.items)) }
    ensures appended { OnOk result (Adds found.old.items found.new.items) }
{
    let (first, second) = pair(&command.addresses);
    let takes = command.verb.takes();
    tell_of_pattern(found, spot, sought(takes.target))?;
    tell_of_pattern(found, spot, takes.pattern)?;
    tell_of_pattern(found, spot, sought(second))?;
    tell_of_pattern(found, spot, sought(first))
}

/// Remarks what the addresses of a command show.
#[tactic(auto, using(crate::proofs::KindLemmas::range_kinds))]
fn tell_of_range(
    found: &mut Vec<Remarked>,
    spot: Spot<'_>,
    command: &Command,
) -> Result<(), AllocError>
    ensures told { OnOk result ((kind : Slip) → is_open kind ≡ false → tells kind found.new.items ≡
        (range_shows kind (command_value command.now) || tells kind found.old.items)) }
    ensures appended { OnOk result (Adds found.old.items found.new.items) }
{
    let is_left_out = is_to_match(&command.addresses) && begins_with_comma(spot.bytes);
    tell_if(
        found,
        is_left_out && !command.listed,
        Slip::RangeFromLineOne,
        spot.line,
    )?;
    tell_if(
        found,
        is_left_out && command.listed,
        Slip::ListedRangeFromLineOne,
        spot.line,
    )?;
    let is_counted = is_counted_from_current(&command.addresses);
    tell_if(found, is_counted, Slip::CountedFromCurrentLine, spot.line)?;
    tell_if(found, is_backward(command), Slip::BackwardRange, spot.line)
}

/// Remarks what a command shows, its list aside.
#[tactic(auto, using(crate::proofs::OrLemmas::or_two))]
pub fn tell_of_command(
    found: &mut Vec<Remarked>,
    spot: Spot<'_>,
    command: &Command,
) -> Result<(), AllocError>
    ensures told { OnOk result ((kind : Slip) → is_open kind ≡ false → tells kind found.new.items ≡
        (command_shows spot.entry.is_high kind (command_value command.now) || tells kind found.old.items)) }
    ensures appended { OnOk result (Adds found.old.items found.new.items) }
{
    tell_of_range(found, spot, command)?;
    tell_of_patterns(found, spot, command)
}
