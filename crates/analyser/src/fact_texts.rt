//! The patterns of what is known of single lines are bytes, since the types of facts in memory hold nothing else: so what is vouched for has
//! a text.

ghost use Rattle.std.specs.Prelude.{◌≡◌, true, All, IfSome, map, option_map};
ghost use Rattle.ed_rules.specs.facts.Facts.{LineFact, Stretch};
ghost use Rattle.cert_check.specs.Certificates.{boxed_value, note_value};
ghost use Rattle.cert_check.specs.checker.InForm.{HaveBytes};
ghost use Rattle.cert_check.specs.text.FactsText.{AreBytes};
ghost use Rattle.cert_check.specs.text.HasText.{ChainHasText};
ghost use Rattle.analyser.specs.Walking.{OldIsBytes, StateIsBytes, LoopedIsBytes, NoteIsBytes};

use crate::texts::are_bytes;
use cert_check::{Looped, Note};
use ed_rules::{ClearStretch, KeptOld, KeptState, KnownLine, LineFacts};
use landmarks::{LandmarkChain, LandmarkChains};

fn line_is_bytes(fact: &KnownLine)
    ensures bytes { AreBytes fact.now.pattern }
{
    are_bytes(fact.pattern.as_slice());
}

fn lines_are_bytes(lines: &[KnownLine])
    ensures bytes { All (λ (f : LineFact). AreBytes f.pattern) lines.now }
{
    for fact in lines {
        line_is_bytes(fact);
    }
}

fn stretch_is_bytes(stretch: &ClearStretch)
    ensures bytes { AreBytes stretch.now.pattern }
{
    are_bytes(stretch.pattern.as_slice());
}

fn clear_is_bytes(clear: &[ClearStretch])
    ensures bytes { All (λ (s : Stretch). AreBytes s.pattern) clear.now }
{
    for stretch in clear {
        stretch_is_bytes(stretch);
    }
}

fn facts_are_bytes(facts: &LineFacts)
    ensures bytes { HaveBytes facts.now }
{
    lines_are_bytes(facts.lines.as_slice());
    clear_is_bytes(facts.clear.as_slice());
}

fn old_is_bytes(old: &Option<KeptOld>)
    ensures bytes { OldIsBytes old.now }
{
    if let Some(old) = old {
        facts_are_bytes(old.facts());
    }
}

fn state_is_bytes(state: &KeptState)
    ensures bytes { StateIsBytes state.now }
{
    facts_are_bytes(state.facts());
    old_is_bytes(state.kept_undo().was());
}

fn states_are_bytes(states: &[KeptState])
    ensures bytes { All StateIsBytes states.now }
{
    for state in states {
        state_is_bytes(state);
    }
}

fn looped_is_bytes(looped: &Option<Box<Looped>>)
    ensures bytes { LoopedIsBytes (option_map boxed_value looped.now) }
{
    if let Some(looped) = looped {
        state_is_bytes(&looped.invariant);
        states_are_bytes(looped.inner.as_slice());
    }
}

fn note_is_bytes(note: &Note)
    ensures bytes { NoteIsBytes (note_value note.now) }
{
    state_is_bytes(&note.state);
    looped_is_bytes(&note.looped);
}

fn notes_are_bytes(notes: &[Note])
    ensures bytes { All NoteIsBytes (map note_value notes.now) }
{
    for note in notes {
        note_is_bytes(note);
    }
}

/// The patterns of all facts of a certificate that tells of single lines are bytes. Nothing is looked at for another one.
pub(crate) fn told_are_bytes(follows: bool, notes: &[Note], last: &KeptState)
    ensures bytes { follows ≡ true → All NoteIsBytes (map note_value notes.now) × StateIsBytes last.now }
{
    if follows {
        notes_are_bytes(notes);
        state_is_bytes(last);
    }
}

fn chain_has_text(chain: &LandmarkChain)
    ensures text { ChainHasText chain.now }
{
    are_bytes(chain.text().as_slice());
}

fn each_has_text(chains: &[LandmarkChain])
    ensures texts { All ChainHasText chains.now }
{
    for chain in chains {
        chain_has_text(chain);
    }
}

/// The texts of chains are bytes and spell them.
pub(crate) fn chains_have_text(landmarks: &Option<LandmarkChains>)
    ensures texts { IfSome landmarks.now (λ chains. All ChainHasText chains) }
{
    if let Some(chains) = landmarks {
        each_has_text(chains.as_slice());
    }
}
