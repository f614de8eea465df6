//! The patterns that a command looks for, and whether some line is known to match them.

ghost use Rattle.std.specs.Prelude.{◌≡◌, ◌||◌, ◌∷◌, ◌++◌, [], List, ℕ, map, option_map, Option, IfOk, OnOk};
ghost use Rattle.std.specs.List.{filter, cons_option};
ghost use Rattle.std.specs.Option.{option_copied};
ghost use Rattle.bre_parse.specs.Always.{text_is_always};
ghost use Rattle.ed_syntax.specs.PublicTypes.{address_value, command_value};
ghost use Rattle.ed_syntax.specs.reading.Reading.{script_of};
ghost use Rattle.ed_rules.specs.Texts.{is_member, with_texts};
ghost use Rattle.ed_rules.specs.Following.{is_followed};
ghost use Rattle.cert_check.specs.Certificates.{note_value};
ghost use Rattle.hints.specs.Sought.{search_at, searches, looked_for, remembered, is_unmatched, unmatched, is_of_search, to_state};

use crate::commands::{addresses_of, command_of, pair};
use crate::known::state_at;
use bre_parse::Bre;
use bre_parse::fault::BreFault;
use cert_check::{Note, Place};
use ed_base::{Bytes, Fault};
use ed_rules::{KeptState, Texts, is_witnessed};
use ed_syntax::{Address, Base, Command, Pattern, read_script};
use std::alloc::{AllocError, Global};
use zones::Name;

/// What an address searches for, where it is a search: a pattern, or the remembered one.
pub(crate) fn searched_by(address: Option<&Address>) -> Option<Option<&Pattern>>
    ensures value { option_map option_copied result ≡ search_at (option_map (λ address. address_value address.now) address.entry) }
{
    match &address?.base {
        Base::Forward(pattern) | Base::Backward(pattern) => Some(pattern.as_ref()),
        _ => None,
    }
}

/// How many searches the addresses of a command are.
pub(crate) fn count_of_searches(command: &Command) -> usize {
    let mut count: usize = 0;
    for address in addresses_of(command) {
        if searched_by(address).is_some() {
            count = count.saturating_add(1);
        }
    }
    count
}

/// The patterns that may be remembered.
fn remembered(alloc: Global, state: &KeptState) -> Result<Texts, AllocError>
    ensures value { IfOk result (λ patterns. patterns ≡ remembered state.now) }
{
    let mut patterns = Texts::none(alloc);
    'choices: for choice in state.patterns().members() {
        if let Some(text) = choice {
            patterns.add(text.as_slice())?;
        }
    }
    Ok(patterns)
}

/// The set of one pattern.
fn only(alloc: Global, text: &[u8]) -> Result<Texts, AllocError>
    ensures value { IfOk result (λ patterns. patterns ≡ text.now ∷ []) }
{
    let mut patterns = Texts::none(alloc);
    patterns.add(text)?;
    Ok(patterns)
}

/// Puts the patterns that an address may look for, where it is a search, after those of the searches before it: its own, which then is
/// the one that is remembered, or else those that may be remembered before it.
fn push_search(
    alloc: Global,
    address: Option<&Address>,
    remembered: &mut Texts,
    found: &mut Vec<Texts>,
) -> Result<(), AllocError>
    ensures pushed { OnOk result ((later : List (Option (List ℕ))) →
        found.old.items ++ looked_for remembered.old (cons_option (search_at (option_map (λ address. address_value address.now) address.entry)) later)
        ≡ found.new.items ++ looked_for remembered.new later) }
{
    let Some(pattern) = searched_by(address) else {
        return Ok(());
    };
    if let Some(pattern) = pattern {
        *remembered = only(alloc, pattern.text())?;
    }
    found.push(remembered.try_copy()?)?;
    Ok(())
}

/// The patterns that each search of a command may look for, in the order of the searches.
fn searches_of(
    alloc: Global,
    command: &Command,
    state: &KeptState,
) -> Result<Vec<Texts>, AllocError>
    ensures value { IfOk result (λ found. found.items ≡ looked_for (remembered state.now) (searches (command_value command.now))) }
{
    let mut before = remembered(alloc, state)?;
    let mut found: Vec<Texts> = Vec::new(alloc);
    let (first, second) = pair(&command.addresses);
    push_search(alloc, first, &mut before, &mut found)?;
    push_search(alloc, second, &mut before, &mut found)?;
    push_search(alloc, command.verb.takes().target, &mut before, &mut found)?;
    Ok(found)
}

/// Whether every line matches a pattern.
pub(crate) fn is_always(alloc: Global, text: &Bytes) -> Result<bool, AllocError>
    ensures value { IfOk result (λ yes. yes ≡ text_is_always text.now) }
{
    match Bre::read(alloc, text.as_slice()) {
        Ok(bre) => Ok(bre.always()),
        Err(BreFault::Memory) => Err(AllocError),
        Err(_) => Ok(false),
    }
}

/// Whether a line that is followed is known to match a pattern.
fn is_followed(state: &KeptState, text: &Bytes) -> bool
    ensures value { result ≡ is_followed state.now text.now }
{
    state.follows() && is_witnessed(state.facts(), text.as_slice())
}

/// Whether some line is known to match a pattern, or every line does.
fn is_matched(alloc: Global, state: &KeptState, text: &Bytes) -> Result<bool, AllocError>
    ensures value { IfOk result (λ yes. yes ≡ (is_member state.now.matches.has text.now || is_followed state.now text.now || text_is_always text.now)) }
{
    if state.matches().has.has(text.as_slice()) || is_followed(state, text) {
        return Ok(true);
    }
    is_always(alloc, text)
}

/// Whether a search for one of these patterns is known to find a line.
fn is_found(alloc: Global, state: &KeptState, patterns: &Texts) -> Result<bool, AllocError> {
    let has_line = state.zone().is_known(Name::ZERO, Name::LAST_LINE, -1);
    for text in patterns.members() {
        let known = state.matches().has.has(text.as_slice()) || is_followed(state, text);
        if !known && !(has_line && is_always(alloc, text)?) {
            return Ok(false);
        }
    }
    Ok(true)
}

/// How many searches of a command come before the first that need not find a line.
pub(crate) fn count_of_found(
    alloc: Global,
    command: &Command,
    state: &KeptState,
) -> Result<usize, AllocError> {
    let searches = searches_of(alloc, command, state)?;
    for (index, patterns) in searches.as_slice().iter().enumerate() {
        if !is_found(alloc, state, patterns)? {
            return Ok(index);
        }
    }
    Ok(searches.len())
}

/// Puts in those of some patterns that no line need match.
fn add_unmatched(
    alloc: Global,
    state: &KeptState,
    patterns: &Texts,
    unmatched: &mut Texts,
) -> Result<(), AllocError>
    ensures value { OnOk result (unmatched.new ≡ with_texts (filter (is_unmatched state.now) patterns.now) unmatched.old) }
{
    'texts: for text in patterns.members() {
        if !is_matched(alloc, state, text)? {
            unmatched.add(text.as_slice())?;
        }
    }
    Ok(())
}

/// The patterns that a command's searches look for and that no line need match. An `s` is no search: it isn't known to match by what
/// some line matches.
fn unmatched_by(alloc: Global, command: &Command, state: &KeptState) -> Result<Texts, AllocError>
    ensures value { IfOk result (λ patterns. patterns ≡ unmatched (command_value command.now) state.now) }
{
    let searches = searches_of(alloc, command, state)?;
    let mut unmatched = Texts::none(alloc);
    'searches: for patterns in searches.as_slice() {
        add_unmatched(alloc, state, patterns, &mut unmatched)?;
    }
    Ok(unmatched)
}

/// Whether a line that a search finds may mend a fault.
pub(crate) fn is_of_search(why: Fault) -> bool
    ensures value { result ≡ is_of_search why }
{
    match why {
        Fault::NoMatch | Fault::Address => true,
        _ => false,
    }
}

/// The patterns that are looked for at a place and that no line need match, where it fails by a fault that such a line may mend.
pub(crate) fn unmatched_at(
    alloc: Global,
    script: &[u8],
    place: Place,
    why: Fault,
    notes: &[Note],
) -> Result<Texts, AllocError>
    ensures value { IfOk result (λ patterns. patterns ≡ to_state (script_of script.now) place why (map note_value notes.now)) }
{
    if !is_of_search(why) {
        return Ok(Texts::none(alloc));
    }
    let read = read_script(alloc, script)?;
    match (state_at(place, notes), command_of(&read, place)) {
        (Some(state), Some(command)) => unmatched_by(alloc, command, state),
        _ => Ok(Texts::none(alloc)),
    }
}
