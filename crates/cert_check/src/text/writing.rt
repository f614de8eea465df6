//! The lines of a certificate's text, as they are written.

ghost use Rattle.std.specs.Prelude.{◌≡◌, ◌++◌, ◌∷◌, [], map, flat_map, option_map, codes, IfOk};
ghost use Rattle.cert_check.specs.Certificates.{boxed_value, looped_value, note_value, certificate_value};
ghost use Rattle.cert_check.specs.text.Text.{lines_text, zone_line, marks_line, choices_line, texts_line, matched_lines, told_lines, chains_line, chains_lines, replacements_line, changed_line, undo_line, old_lines, state_lines, headed_lines, looped_lines, note_lines, version_line, path_line, bounds_line, opening_lines, closing_lines, text_of};
ghost use Rattle.cert_check.specs.text.HasText.{HasText};

use crate::certificate::{Certificate, Looped, Note, Version};
use crate::text::fact_writing::{write_facts, write_old_facts};
use crate::text::kept::KeptText;
use crate::text::words::{
    push_choice, push_limit, push_marks, push_number, push_path, push_possible, push_zone,
};
use crate::text::writer::TextWriter;
use ed_base::Bytes;
use ed_rules::{
    Changed, Choices, KeptOld, KeptState, KeptUndo, LineFacts, Marks, Replacements, Texts,
};
use landmarks::LandmarkChain;
use std::alloc::AllocError;
use zones::KeptZone;

fn push_zone_line<W: TextWriter>(out: &mut W, key: &[u8], zone: &KeptZone)
    ensures appended { W.written out.new ≡ W.written out.old ++ lines_text (zone_line key.now zone.now ∷ []) }
{
    out.extend(key);
    push_zone(out, zone);
    out.push(b'\n');
}

fn push_marks_line<W: TextWriter>(out: &mut W, key: &[u8], marks: &Marks)
    ensures appended { W.written out.new ≡ W.written out.old ++ lines_text (marks_line key.now marks.now ∷ []) }
{
    out.extend(key);
    push_marks(out, marks);
    out.push(b'\n');
}

fn push_choices_line<W: TextWriter>(out: &mut W, key: &[u8], set: &Choices)
    ensures appended { W.written out.new ≡ W.written out.old ++ lines_text (choices_line key.now set.now ∷ []) }
{
    out.extend(key);
    for choice in set.members() {
        push_choice(out, choice);
    }
    out.push(b'\n');
}

fn push_texts_line<W: TextWriter>(out: &mut W, key: &[u8], texts: &[Bytes])
    ensures appended { W.written out.new ≡ W.written out.old ++ lines_text (texts_line key.now texts.now ∷ []) }
{
    out.extend(key);
    for text in texts {
        push_path(out, text);
    }
    out.push(b'\n');
}

/// The patterns that some line matches, where the version has a line of them.
fn push_matched<W: TextWriter>(out: &mut W, version: Version, key: &[u8], set: &Texts)
    ensures appended { W.written out.new ≡ W.written out.old ++ lines_text (matched_lines version key.now set.now) }
{
    match version {
        Version::One => {}
        Version::Two => push_texts_line(out, key, set.members()),
        Version::Three => push_texts_line(out, key, set.members()),
    }
}

/// The texts of chains of landmarks, where the version has a line of them.
fn push_chains<W: TextWriter>(out: &mut W, version: Version, chains: &[LandmarkChain])
    ensures appended { W.written out.new ≡ W.written out.old ++ lines_text (chains_lines version chains.now) }
{
    match version {
        Version::One => (),
        Version::Two => (),
        Version::Three => push_chains_line(out, chains),
    }
}

fn push_chains_line<W: TextWriter>(out: &mut W, chains: &[LandmarkChain])
    ensures appended { W.written out.new ≡ W.written out.old ++ lines_text (chains_line chains.now ∷ []) }
{
    out.extend(b"at");
    for chain in chains {
        push_path(out, chain.text());
    }
    out.push(b'\n');
}

/// What is known of single lines, where the version has lines of that.
fn push_told<W: TextWriter>(out: &mut W, version: Version, facts: &LineFacts)
    ensures appended { W.written out.new ≡ W.written out.old ++ lines_text (told_lines version (codes "lines") (codes "clear") facts.now) }
{
    match version {
        Version::One => (),
        Version::Two => (),
        Version::Three => write_facts(out, facts),
    }
}

/// The same of an earlier buffer.
fn push_old_told<W: TextWriter>(out: &mut W, version: Version, facts: &LineFacts)
    ensures appended { W.written out.new ≡ W.written out.old ++ lines_text (told_lines version (codes "old-lines") (codes "old-clear") facts.now) }
{
    match version {
        Version::One => (),
        Version::Two => (),
        Version::Three => write_old_facts(out, facts),
    }
}

fn push_replacements_line<W: TextWriter>(out: &mut W, replacements: Replacements)
    ensures appended { W.written out.new ≡ W.written out.old ++ lines_text (replacements_line replacements ∷ []) }
{
    out.extend(b"replacements");
    push_possible(out, replacements.none, b"none");
    push_possible(out, replacements.plain, b"plain");
    push_possible(out, replacements.split, b"split");
    out.push(b'\n');
}

fn push_changed_line<W: TextWriter>(out: &mut W, changed: Changed)
    ensures appended { W.written out.new ≡ W.written out.old ++ lines_text (changed_line changed ∷ []) }
{
    out.extend(b"changed");
    push_possible(out, changed.no, b"no");
    push_possible(out, changed.yes, b"yes");
    out.push(b'\n');
}

fn push_undo_line<W: TextWriter>(out: &mut W, undo: &KeptUndo)
    ensures appended { W.written out.new ≡ W.written out.old ++ lines_text (undo_line undo.now ∷ []) }
{
    out.extend(b"undo");
    push_possible(out, undo.nothing(), b"nothing");
    push_possible(out, undo.same(), b"same");
    push_possible(out, undo.was().is_some(), b"was");
    out.push(b'\n');
}

fn push_old<W: TextWriter>(out: &mut W, version: Version, old: &Option<KeptOld>, has: &Texts)
    ensures appended { W.written out.new ≡ W.written out.old ++ lines_text (old_lines version old.now has.now) }
{
    match old {
        Some(old) => {
            push_zone_line(out, b"old-zone", old.zone());
            push_marks_line(out, b"old-marks", old.marks());
            push_matched(out, version, b"old-has", has);
            push_old_told(out, version, old.facts());
        }
        None => {}
    }
}

fn push_state<W: TextWriter>(out: &mut W, version: Version, state: &KeptState)
    ensures appended { W.written out.new ≡ W.written out.old ++ lines_text (state_lines version state.now) }
{
    push_zone_line(out, b"zone", state.kept_zone());
    push_marks_line(out, b"marks", state.marks());
    let matches = state.matches();
    push_matched(out, version, b"has", &matches.has);
    push_told(out, version, state.facts());
    push_choices_line(out, b"patterns", state.patterns());
    push_replacements_line(out, state.replacements());
    push_choices_line(out, b"names", state.names());
    push_changed_line(out, state.changed());
    let undo = state.kept_undo();
    push_undo_line(out, undo);
    push_old(out, version, undo.was(), &matches.old_has);
}

/// A state after a line of one word.
fn push_headed<W: TextWriter>(out: &mut W, version: Version, head: &[u8], state: &KeptState)
    ensures appended { W.written out.new ≡ W.written out.old ++ lines_text (headed_lines version head.now state.now) }
{
    out.extend(head);
    out.push(b'\n');
    push_state(out, version, state);
}

fn push_inner<W: TextWriter>(out: &mut W, version: Version, states: &[KeptState])
    ensures appended { W.written out.new ≡ W.written out.old ++ lines_text (flat_map (headed_lines version (codes "inner")) states.now) }
{
    for state in states {
        push_headed(out, version, b"inner", state);
    }
}

fn push_list<W: TextWriter>(out: &mut W, version: Version, looped: &Looped)
    ensures appended { W.written out.new ≡ W.written out.old ++ lines_text (looped_lines version (Some (looped_value looped.now))) }
{
    push_headed(out, version, b"loop", &looped.invariant);
    push_inner(out, version, looped.inner.as_slice());
    out.extend(b"done\n");
}

fn push_looped<W: TextWriter>(out: &mut W, version: Version, looped: &Option<Box<Looped>>)
    ensures appended { W.written out.new ≡ W.written out.old ++ lines_text (looped_lines version (option_map boxed_value looped.now)) }
{
    match looped {
        Some(looped) => push_list(out, version, looped),
        None => {}
    }
}

fn push_note<W: TextWriter>(out: &mut W, version: Version, note: &Note)
    ensures appended { W.written out.new ≡ W.written out.old ++ lines_text (note_lines version (note_value note.now)) }
{
    push_headed(out, version, b"note", &note.state);
    push_looped(out, version, &note.looped);
}

fn push_notes<W: TextWriter>(out: &mut W, version: Version, notes: &[Note])
    ensures appended { W.written out.new ≡ W.written out.old ++ lines_text (flat_map (note_lines version) (map note_value notes.now)) }
{
    for note in notes {
        push_note(out, version, note);
    }
}

fn push_version_line<W: TextWriter>(out: &mut W, version: Version)
    ensures appended { W.written out.new ≡ W.written out.old ++ lines_text (version_line version ∷ []) }
{
    match version {
        Version::One => out.extend(b"ed-certificate 1\n"),
        Version::Two => out.extend(b"ed-certificate 2\n"),
        Version::Three => out.extend(b"ed-certificate 3\n"),
    }
}

fn push_path_line<W: TextWriter>(out: &mut W, path: &Option<Bytes>)
    ensures appended { W.written out.new ≡ W.written out.old ++ lines_text (path_line path.now ∷ []) }
{
    out.extend(b"path");
    push_choice(out, path);
    out.push(b'\n');
}

fn push_bounds_line<W: TextWriter>(out: &mut W, key: &[u8], low: u64, high: Option<u64>)
    ensures appended { W.written out.new ≡ W.written out.old ++ lines_text (bounds_line key.now low high ∷ []) }
{
    out.extend(key);
    out.push(b' ');
    push_number(out, low);
    out.push(b' ');
    push_limit(out, high);
    out.push(b'\n');
}

fn push_opening<W: TextWriter>(out: &mut W, certificate: &Certificate)
    ensures appended { W.written out.new ≡ W.written out.old ++ lines_text (opening_lines (certificate_value certificate.now)) }
{
    push_version_line(out, certificate.version);
    push_path_line(out, &certificate.path);
    push_bounds_line(out, b"start", certificate.min, certificate.max);
    push_matched(out, certificate.version, b"has", &certificate.has);
    push_chains(out, certificate.version, certificate.landmarks.as_slice());
}

fn push_closing<W: TextWriter>(out: &mut W, certificate: &Certificate)
    ensures appended { W.written out.new ≡ W.written out.old ++ lines_text (closing_lines (certificate_value certificate.now)) }
{
    push_headed(out, certificate.version, b"end", &certificate.last);
    push_bounds_line(out, b"final", certificate.low, certificate.high);
    push_texts_line(out, b"writes", certificate.writes.as_slice());
}

fn push_certificate<W: TextWriter>(out: &mut W, certificate: &Certificate)
    ensures appended { W.written out.new ≡ W.written out.old ++ text_of (certificate_value certificate.now) }
{
    push_opening(out, certificate);
    push_notes(out, certificate.version, certificate.notes.as_slice());
    push_closing(out, certificate);
}

impl Certificate {
    /// Writes the text of a certificate that has one, piece by piece as it is made, in time linear in its length. It takes no memory.
    pub fn write_to<W: TextWriter>(&self, out: &mut W)
        requires text { HasText (certificate_value self.now) }
        ensures appended { W.written out.new ≡ W.written out.old ++ text_of (certificate_value self.now) }
    {
        push_certificate(out, self);
    }

    /// The text of a certificate that has one. It is built in one buffer, in time linear in its length.
    pub fn write(&self) -> Result<Bytes, AllocError>
        requires text { HasText (certificate_value self.now) }
        ensures value { IfOk result (λ bytes. bytes ≡ text_of (certificate_value self.now)) }
    {
        let mut out = KeptText::new(*self.notes.allocator());
        self.write_to(&mut out);
        out.finish()
    }
}
