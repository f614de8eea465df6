//! Facts of lines in a certificate's text, as they are written.

ghost use Rattle.std.specs.Prelude.{◌≡◌, ◌<◌, ◌++◌, ◌∷◌, []};
ghost use Rattle.cert_check.specs.text.Text.{space, lines_text};
ghost use Rattle.cert_check.specs.text.FactsText.{edge_word, answer_word, fact_word, stretch_word, known_line, clear_line, facts_lines, old_facts_lines};

use crate::text::words::{name_byte, push_text};
use crate::text::writer::TextWriter;
use ed_rules::{ClearStretch, KnownLine, LineFacts};
use zones::Name;

/// The name of a stretch's beginning, or of its end.
fn push_edge<W: TextWriter>(out: &mut W, edge: u8)
    requires in_range { edge < 33 }
    ensures appended { W.written out.new ≡ W.written out.old ++ edge_word edge }
{
    if edge == ClearStretch::END {
        out.extend(b"$+");
    } else {
        out.push(name_byte(Name::from_place(usize::from(edge))));
    }
}

/// The sign before a pattern: whether the line matches it.
fn sign_of(matches: bool) -> u8
    ensures value { answer_word matches ≡ result ∷ [] }
{
    if matches { b'+' } else { b'-' }
}

/// What is known of a line, after a space.
fn push_fact<W: TextWriter>(out: &mut W, fact: &KnownLine)
    ensures appended { W.written out.new ≡ W.written out.old ++ space ∷ fact_word fact.now }
{
    out.extend(&[b' ', name_byte(fact.name), sign_of(fact.matches), b'=']);
    push_text(out, fact.pattern.as_slice());
}

/// Between which names no line matches, and what, after a space.
fn push_stretch<W: TextWriter>(out: &mut W, stretch: &ClearStretch)
    ensures appended { W.written out.new ≡ W.written out.old ++ space ∷ stretch_word stretch.now }
{
    out.push(b' ');
    push_edge(out, stretch.after);
    out.push(b'-');
    push_edge(out, stretch.before);
    out.push(b'=');
    push_text(out, stretch.pattern.as_slice());
}

fn push_known<W: TextWriter>(out: &mut W, key: &[u8], facts: &[KnownLine])
    ensures appended { W.written out.new ≡ W.written out.old ++ lines_text (known_line key.now facts.now ∷ []) }
{
    out.extend(key);
    for fact in facts {
        push_fact(out, fact);
    }
    out.push(b'\n');
}

fn push_clear<W: TextWriter>(out: &mut W, key: &[u8], stretches: &[ClearStretch])
    ensures appended { W.written out.new ≡ W.written out.old ++ lines_text (clear_line key.now stretches.now ∷ []) }
{
    out.extend(key);
    for stretch in stretches {
        push_stretch(out, stretch);
    }
    out.push(b'\n');
}

/// The two lines of what is known of a buffer's lines. It takes no memory.
pub fn write_facts<W: TextWriter>(out: &mut W, facts: &LineFacts)
    ensures appended { W.written out.new ≡ W.written out.old ++ lines_text (facts_lines facts.now) }
{
    push_known(out, b"lines", facts.lines.as_slice());
    push_clear(out, b"clear", facts.clear.as_slice());
}

/// The same of the lines of an earlier buffer.
pub fn write_old_facts<W: TextWriter>(out: &mut W, facts: &LineFacts)
    ensures appended { W.written out.new ≡ W.written out.old ++ lines_text (old_facts_lines facts.now) }
{
    push_known(out, b"old-lines", facts.lines.as_slice());
    push_clear(out, b"old-clear", facts.clear.as_slice());
}
