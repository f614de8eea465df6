//! Whether a certificate has a text.

ghost use Rattle.std.specs.Prelude.{◌≡◌, ◌<◌, ◌↔◌, ◌&&◌, ◌||◌, nat_lt, is_some, true, Some, IsTrue, All, length, map, option_map};
ghost use Rattle.zones.specs.Limits.{IsZone};
ghost use Rattle.cert_check.specs.Certificates.{boxed_value, note_value, certificate_value};
ghost use Rattle.ed_rules.specs.Formed.{has_name, may_say, ZoneIsFormed, OldIsFormed, ChoiceIsBytes, SetIsFormed, StateIsFormed};
ghost use Rattle.cert_check.specs.text.HasText.{IsSaidIn, OldIsSaidIn, OldIsToldIn, does_follow, StateHasText, ChainHasText, ChainsHaveText, LoopedHasText, NoteHasText, HasText};
ghost use Rattle.cert_check.specs.text.FactsText.{AreToldIn};
ghost use Rattle.ed_rules.specs.Formed.{says_nothing};

use crate::certificate::{Certificate, Looped, Note, Version};
use crate::text::formed_facts::facts_are_formed;
use ed_base::{Bytes, Letter, do_rise};
use ed_rules::{
    Changed, Choices, KeptOld, KeptState, KeptUndo, LineBounds, LineFacts, Marks, Replacements,
    Texts,
};
use landmarks::LandmarkChain;
use zones::{KeptZone, Name};

/// Whether a name is neither a letter's nor that of an address of one command, which no text has.
fn is_fixed(name: Name) -> bool
    ensures value { result ≡ nat_lt name 3 }
{
    name == Name::ZERO || name == Name::CURRENT_LINE || name == Name::LAST_LINE
}

pub(crate) fn has_name(marks: &Marks, name: Name) -> bool
    ensures value { result ≡ has_name marks.now name }
{
    match name.letter() {
        Some(letter) => marks.is_sure(letter),
        None => is_fixed(name),
    }
}

fn may_say(marks: &Marks, x: Name, y: Name, bound: Option<i64>) -> bool
    ensures value { result ≡ may_say marks.now x y bound }
{
    match bound {
        None => x != y,
        Some(number) => (number == 0 && x == y) || (has_name(marks, x) && has_name(marks, y)),
    }
}

/// There are 26 letters.
pub(crate) fn letters_are_counted(marks: &Marks)
    ensures size { length marks.now ≡ 26 }
{
    let _first = marks.is_sure(Letter::at(0));
}

/// Whether a zone speaks only of the lines and of the letters that are sure beside it. A bound that isn't known may be said.
pub(crate) fn zone_has_text(marks: &Marks, zone: &KeptZone) -> bool
    ensures exact { IsTrue result ↔ ZoneIsFormed marks.now zone.now }
{
    letters_are_counted(marks);
    for entry in zone.entries() {
        if !may_say(marks, entry.x(), entry.y(), entry.bound()) {
            return false;
        }
    }
    true
}

fn old_has_text(old: &Option<KeptOld>) -> bool
    ensures exact { IsTrue result ↔ OldIsFormed old.now }
{
    match old {
        Some(old) => zone_has_text(old.marks(), old.zone()),
        None => true,
    }
}

/// Items of a slice of bytes are bytes.
pub(crate) fn are_bytes(bytes: &[u8])
    ensures bytes { All (λ byte. byte < 256) bytes.now }
{
    let _bytes = bytes;
}

/// Texts and paths are bytes.
fn choice_is_bytes(choice: &Option<Bytes>)
    ensures bytes { ChoiceIsBytes choice.now }
{
    if let Some(text) = choice {
        are_bytes(text.as_slice());
    }
}

pub(crate) fn choices_are_bytes(set: &[Option<Bytes>])
    ensures bytes { All ChoiceIsBytes set.now }
{
    for choice in set {
        choice_is_bytes(choice);
    }
}

pub(crate) fn texts_are_bytes(texts: &[Bytes])
    ensures bytes { All ChoiceIsBytes (map Some texts.now) }
{
    for text in texts {
        are_bytes(text.as_slice());
    }
}

/// Sets of choices have a member and rise.
fn set_is_formed(set: &Choices)
    ensures formed { SetIsFormed set.now }
{
    choices_are_bytes(set.members());
}

pub(crate) fn some_replacement(replacements: Replacements) -> bool
    ensures value { result ≡ (replacements.none || replacements.plain || replacements.split) }
{
    replacements.none || replacements.plain || replacements.split
}

fn some_undo(undo: &KeptUndo) -> bool
    ensures value { result ≡ (undo.now.nothing || undo.now.same || is_some undo.now.was) }
{
    undo.nothing() || undo.same() || undo.was().is_some()
}

pub(crate) fn some_changed(changed: Changed) -> bool
    ensures value { result ≡ (changed.no || changed.yes) }
{
    changed.no || changed.yes
}

fn is_formed(state: &KeptState) -> bool
    ensures exact { IsTrue result ↔ StateIsFormed state.now }
{
    set_is_formed(state.patterns());
    set_is_formed(state.names());
    if !zone_has_text(state.marks(), state.kept_zone()) {
        return false;
    }
    if !some_replacement(state.replacements()) {
        return false;
    }
    if !some_changed(state.changed()) {
        return false;
    }
    let undo = state.kept_undo();
    if !some_undo(undo) {
        return false;
    }
    old_has_text(undo.was())
}

/// Whether a version can say what is in a set: version 1 says nothing.
fn is_said(version: Version, set: &Texts) -> bool
    ensures exact { IsTrue result ↔ IsSaidIn version set.now }
{
    let members = set.members();
    texts_are_bytes(members);
    match version {
        Version::One => members.is_empty(),
        Version::Two => true,
        Version::Three => true,
    }
}

/// The same of an earlier buffer, of which nothing is said where undo can't bring it back.
fn old_is_said(version: Version, old: &Option<KeptOld>, set: &Texts) -> bool
    ensures exact { IsTrue result ↔ OldIsSaidIn version old.now set.now }
{
    match old {
        Some(_) => is_said(version, set),
        None => set.members().is_empty(),
    }
}

/// Whether a version can say what is known of single lines: versions 1 and 2 say nothing.
fn are_told(version: Version, marks: &Marks, facts: &LineFacts) -> bool
    ensures exact { IsTrue result ↔ AreToldIn version marks.now facts.now }
{
    match version {
        Version::One => facts.are_none(),
        Version::Two => facts.are_none(),
        Version::Three => facts_are_formed(marks, facts),
    }
}

/// The same of an earlier buffer.
fn old_is_told(version: Version, old: &Option<KeptOld>) -> bool
    ensures exact { IsTrue result ↔ OldIsToldIn version old.now }
{
    match old {
        Some(old) => are_told(version, old.marks(), old.facts()),
        None => true,
    }
}

/// Whether a version follows single lines.
pub(crate) fn does_follow(version: Version) -> bool
    ensures value { result ≡ does_follow version }
{
    match version {
        Version::One => false,
        Version::Two => false,
        Version::Three => true,
    }
}

fn state_has_text(version: Version, state: &KeptState) -> bool
    ensures exact { IsTrue result ↔ StateHasText version state.now }
{
    let matches = state.matches();
    is_formed(state)
        && is_said(version, &matches.has)
        && old_is_said(version, state.kept_undo().was(), &matches.old_has)
        && state.follows() == does_follow(version)
        && are_told(version, state.marks(), state.facts())
        && old_is_told(version, state.kept_undo().was())
}

fn inner_have_text(version: Version, states: &[KeptState]) -> bool
    ensures exact { IsTrue result ↔ All (StateHasText version) states.now }
{
    for state in states {
        if !state_has_text(version, state) {
            return false;
        }
    }
    true
}

fn looped_has_text(version: Version, looped: &Option<Box<Looped>>) -> bool
    ensures exact { IsTrue result ↔ LoopedHasText version (option_map boxed_value looped.now) }
{
    match looped {
        Some(looped) => {
            let invariant = state_has_text(version, &looped.invariant);
            let inner = inner_have_text(version, looped.inner.as_slice());
            invariant && inner
        }
        None => true,
    }
}

fn note_has_text(version: Version, note: &Note) -> bool
    ensures exact { IsTrue result ↔ NoteHasText version (note_value note.now) }
{
    let state = state_has_text(version, &note.state);
    let looped = looped_has_text(version, &note.looped);
    state && looped
}

fn notes_have_text(version: Version, notes: &[Note]) -> bool
    ensures exact { IsTrue result ↔ All (NoteHasText version) (map note_value notes.now) }
{
    for note in notes {
        if !note_has_text(version, note) {
            return false;
        }
    }
    true
}

/// The text of a chain is bytes and spells it.
fn chain_has_text(chain: &LandmarkChain)
    ensures text { ChainHasText chain.now }
{
    are_bytes(chain.text().as_slice());
}

/// Chains of landmarks have their texts.
fn each_chain_has_text(chains: &[LandmarkChain])
    ensures texts { All ChainHasText chains.now }
{
    for chain in chains {
        chain_has_text(chain);
    }
}

/// Whether a version can say which landmarks the start has: versions 1 and 2 say of none.
fn chains_have_text(version: Version, chains: &[LandmarkChain]) -> bool
    ensures exact { IsTrue result ↔ ChainsHaveText version chains.now }
{
    each_chain_has_text(chains);
    match version {
        Version::One => chains.is_empty(),
        Version::Two => chains.is_empty(),
        Version::Three => true,
    }
}

impl Certificate {
    /// Whether the certificate has a text: the fewest lines of its start aren't above the most, no bound on lines is above 10^12, each
    /// zone and each fact of lines speaks only of the letters beside it, facts and the paths that may be written rise, single lines are
    /// followed just if the version does that, and nothing is said of what the version doesn't say, or of an earlier buffer that undo
    /// doesn't have.
    pub fn has_text(&self) -> bool
        ensures exact { IsTrue result ↔ HasText (certificate_value self.now) }
    {
        choice_is_bytes(&self.path);
        texts_are_bytes(self.writes.as_slice());
        let start = LineBounds {
            min: self.min,
            max: self.max,
        };
        if !(start.are_few() && start.in_order()) {
            return false;
        }
        if !is_said(self.version, &self.has) {
            return false;
        }
        if !chains_have_text(self.version, self.landmarks.as_slice()) {
            return false;
        }
        if !notes_have_text(self.version, self.notes.as_slice()) {
            return false;
        }
        if !state_has_text(self.version, &self.last) {
            return false;
        }
        let end = LineBounds {
            min: self.low,
            max: self.high,
        };
        end.are_few() && do_rise(self.writes.as_slice())
    }
}
