//! Whether facts of lines have lines in a certificate's text.

ghost use Rattle.std.specs.Prelude.{◌≡◌, ◌↔◌, IsTrue, All};
ghost use Rattle.cert_check.specs.text.FactsText.{names_line, begins_stretch, ends_stretch, FactIsFormed, StretchIsFormed, FactsAreFormed};

use crate::text::fact_reading::{facts_rise, stretches_rise};
use crate::text::has_text::{are_bytes, has_name, letters_are_counted};
use ed_rules::{ClearStretch, KnownLine, LineFacts, Marks};
use zones::Name;

/// Whether a fact speaks of a line that the letters allow.
fn fact_is_formed(marks: &Marks, fact: &KnownLine) -> bool
    ensures exact { IsTrue result ↔ FactIsFormed marks.now fact.now }
{
    are_bytes(fact.pattern.as_slice());
    has_name(marks, fact.name) && !(fact.name == Name::ZERO)
}

/// Whether a stretch may begin after a name.
pub(crate) fn begins_stretch(marks: &Marks, after: u8) -> bool
    ensures value { result ≡ begins_stretch marks.now after }
{
    if after >= 32 {
        letters_are_counted(marks);
        return false;
    }
    let name = Name::from_place(usize::from(after));
    has_name(marks, name) && !(name == Name::LAST_LINE)
}

/// Whether a stretch may end before a name, or at the end.
pub(crate) fn ends_stretch(marks: &Marks, before: u8) -> bool
    ensures value { result ≡ ends_stretch marks.now before }
{
    if before == ClearStretch::END {
        return true;
    }
    if before > 32 {
        letters_are_counted(marks);
        return false;
    }
    let name = Name::from_place(usize::from(before));
    has_name(marks, name) && !(name == Name::ZERO || name == Name::LAST_LINE)
}

/// Whether a stretch goes from a name that the letters allow to another.
fn stretch_is_formed(marks: &Marks, stretch: &ClearStretch) -> bool
    ensures exact { IsTrue result ↔ StretchIsFormed marks.now stretch.now }
{
    are_bytes(stretch.pattern.as_slice());
    begins_stretch(marks, stretch.after)
        && ends_stretch(marks, stretch.before)
        && stretch.after != stretch.before
}

fn each_fact_is_formed(marks: &Marks, facts: &[KnownLine]) -> bool
    ensures exact { IsTrue result ↔ All (FactIsFormed marks.now) facts.now }
{
    for fact in facts {
        if !fact_is_formed(marks, fact) {
            return false;
        }
    }
    true
}

fn each_stretch_is_formed(marks: &Marks, stretches: &[ClearStretch]) -> bool
    ensures exact { IsTrue result ↔ All (StretchIsFormed marks.now) stretches.now }
{
    for stretch in stretches {
        if !stretch_is_formed(marks, stretch) {
            return false;
        }
    }
    true
}

/// Whether facts have lines beside these letters.
pub(crate) fn facts_are_formed(marks: &Marks, facts: &LineFacts) -> bool
    ensures exact { IsTrue result ↔ FactsAreFormed marks.now facts.now }
{
    let lines = facts.lines.as_slice();
    let clear = facts.clear.as_slice();
    each_fact_is_formed(marks, lines)
        && facts_rise(lines)
        && each_stretch_is_formed(marks, clear)
        && stretches_rise(clear)
}
