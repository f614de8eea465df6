//! Laws about certificates: contracts of functions that do nothing.

ghost use Rattle.std.specs.List.{filter, list_all};
ghost use Rattle.std.specs.Prelude.{◌≡◌, ℕ, Bool, List, length, All, Contains, IsTrue, ◌↔◌};
ghost use Rattle.zones.specs.Zone.{Numbers};
ghost use Rattle.ed_base.specs.Buffer.{Line};
ghost use Rattle.ed_syntax.specs.Commands as ed;
ghost use Rattle.ed_syntax.specs.meaning.States as editor;
ghost use Rattle.ed_syntax.specs.meaning.Verbs.{is_step};
ghost use Rattle.ed_rules.specs.declared.state.State.{State};
ghost use Rattle.ed_rules.specs.Order.{Covers};
ghost use Rattle.ed_rules.specs.LineBounds.{IsWithin};
ghost use Rattle.cert_check.specs.declared.certificate.Version.TheVariants as versions;
ghost use Rattle.cert_check.specs.declared.checker.verdict.Verdict.TheVariants.{Accepted};
ghost use Rattle.cert_check.specs.Certificates as plain;
ghost use Rattle.cert_check.specs.checker.Covering.{covers};
ghost use Rattle.cert_check.specs.checker.InForm.{in_form, state_in_form, HaveBytes};
ghost use Rattle.cert_check.specs.checker.Valid.{judged};
ghost use Rattle.ed_rules.specs.StandsFor.{StandsFor};
ghost use Rattle.ed_rules.specs.facts.Facts.{LineFact, Stretch, Facts, FactsHold};
ghost use Rattle.cert_check.specs.text.Text.{lines_text};
ghost use Rattle.cert_check.specs.text.FactsText.{FactIsFormed, StretchIsFormed, FactsAreFormed, facts_lines, old_facts_lines};
ghost use Rattle.cert_check.specs.text.HasText.{IsText};
ghost use Rattle.cert_check.specs.text.Faults.{IsVersionFault, IsLineFault, IsSizeFault};
ghost use Rattle.cert_check.specs.checker.MarkedStart.{MarkedStartsSuffice, MarkedStartsStand};
ghost use Rattle.cert_check.specs.checker.Opening.{StartIsSound};
ghost use Rattle.cert_check.specs.checker.Sound.{IsAllowed, GlobalGoesWell, CannotFail, CannotFailInBounds};

use ed_rules::{
    commands_are_sound, facts_go_by_bytes, globals_are_sound,
    needs_are_the_same_whatever_is_watched, weaker_states_stand_for_more,
};
use ed_syntax::{
    commands_are_placed, files_have_lines, lists_add_no_flags, lists_note_changes,
    unnamed_letters_change_nothing,
};
use landmarks::landmarks_are_where_they_are_said;
use zones::known_bounds_are_true;

/// The test of covering says whether one state covers another.
pub fn covering_is_decided()
    ensures exact { (weak strong : State) → IsTrue (covers weak strong) ↔ Covers weak strong }
{}

/// The start of the rules stands for each editor that was opened over a file of as many lines as it allows, some of which match its
/// patterns.
pub fn starts_are_sound()
    ensures sound { StartIsSound }
{
    files_have_lines();
}

/// One global command, by induction on the lines that have its flag: where its checks hold, with those of its list, its run stops well, or
/// goes on with an editor that the state after it stands for.
pub fn checked_globals_go_well()
    ensures sound { GlobalGoesWell }
{
    commands_are_sound();
    globals_are_sound();
    needs_are_the_same_whatever_is_watched();
    lists_add_no_flags();
    lists_note_changes();
    covering_is_decided();
    weaker_states_stand_for_more();
}

/// A script with a valid certificate can't fail; just the commands of lists are listed, as in each script that is read.
pub fn accepted_scripts_cannot_fail()
    ensures sound { (script : ed.Script) (c : plain.Certificate) → IsTrue (list_all is_step script.steps) →
        judged script c ≡ Accepted → CannotFail script c }
{
    starts_are_sound();
    landmarks_are_where_they_are_said();
    marked_starts_stand();
    marked_starts_suffice();
}

/// Where a state stands for each allowed start with marks that the script doesn't name on its lines, and the checks from that state on
/// are accepted, the script can't fail.
pub fn marked_starts_suffice()
    ensures sound { MarkedStartsSuffice }
{
    commands_are_sound();
    globals_are_sound();
    needs_are_the_same_whatever_is_watched();
    checked_globals_go_well();
    commands_are_placed();
    covering_is_decided();
    weaker_states_stand_for_more();
    known_bounds_are_true();
    unnamed_letters_change_nothing();
}

/// A state that stands for a file's lines stands for them with marks on them once it knows of the marks.
pub fn marked_starts_stand()
    ensures sound { MarkedStartsStand }
{
    files_have_lines();
    unnamed_letters_change_nothing();
    facts_go_by_bytes();
}

/// A certificate of version 1 allows exactly the starts whose number of lines lies in its bounds, so it promises what it did before
/// there was another version.
pub fn version_one_is_as_before()
    ensures start { (c : plain.Certificate) (lines : List (List ℕ)) → c.version ≡ versions.One →
        (IsAllowed c lines ↔ IsWithin c.min c.max (length lines)) }
    ensures sound { (script : ed.Script) (c : plain.Certificate) → c.version ≡ versions.One →
        IsTrue (list_all is_step script.steps) → judged script c ≡ Accepted → CannotFailInBounds script c }
{
    accepted_scripts_cannot_fail();
}

/// No bytes are the text of two certificates.
pub fn texts_are_unambiguous()
    ensures one { (bytes : List ℕ) (one other : plain.Certificate) → IsText bytes one → IsText bytes other →
        one ≡ other }
{}

/// Bytes that are the text of a certificate have no fault, no two faults come together, and a line fault names one line. So what
/// bytes are read as is determined, and what was written is read again as the same certificate.
pub fn readings_are_told_apart()
    ensures text { (bytes : List ℕ) (c : plain.Certificate) → IsText bytes c →
        (IsVersionFault bytes → ⊥) × ((number : ℕ) → IsLineFault number bytes → ⊥) × (IsSizeFault bytes → ⊥) }
    ensures version { (bytes : List ℕ) → IsVersionFault bytes →
        ((number : ℕ) → IsLineFault number bytes → ⊥) × (IsSizeFault bytes → ⊥) }
    ensures line { (bytes : List ℕ) (one other : ℕ) → IsLineFault one bytes → IsLineFault other bytes → one ≡ other }
    ensures size { (bytes : List ℕ) (number : ℕ) → IsLineFault number bytes → IsSizeFault bytes → ⊥ }
{}

/// Facts that can be written beside some letters have lines of their own: no others have the same. So do those of an earlier buffer.
pub fn facts_have_one_text()
    ensures one { (marks letters : List Bool) (one other : Facts) → FactsAreFormed marks one → FactsAreFormed letters other →
        lines_text (facts_lines one) ≡ lines_text (facts_lines other) → one ≡ other }
    ensures old { (marks letters : List Bool) (one other : Facts) → FactsAreFormed marks one → FactsAreFormed letters other →
        lines_text (old_facts_lines one) ≡ lines_text (old_facts_lines other) → one ≡ other }
{}

/// Facts in form can be written beside the letters, if their patterns are bytes. What can be written is in form already, so nothing is
/// changed by putting it in form again.
pub fn facts_in_form_can_be_written()
    ensures formed { (marks : List Bool) (facts : Facts) → HaveBytes facts → FactsAreFormed marks (in_form marks facts) }
    ensures already { (marks : List Bool) (facts : Facts) → FactsAreFormed marks facts → in_form marks facts ≡ facts }
    ensures once { (marks : List Bool) (facts : Facts) → in_form marks (in_form marks facts) ≡ in_form marks facts }
{}

/// Some of the facts that can be written beside some letters can be written beside others too, where those allow each of them: so it is with
/// what a join leaves.
pub fn some_of_formed_facts_are_formed()
    ensures some { (marks letters : List Bool) (facts : Facts) (keep : LineFact → Bool) (stay : Stretch → Bool) → FactsAreFormed marks facts →
        All (FactIsFormed letters) (filter keep facts.lines) → All (StretchIsFormed letters) (filter stay facts.clear) →
        FactsAreFormed letters (record { lines = filter keep facts.lines; clear = filter stay facts.clear }) }
{}

/// Facts in form are among those that were given, and they hold where those do. So a state whose facts are put in form stands for each
/// editor that it stood for.
pub fn facts_in_form_hold()
    ensures lines { (marks : List Bool) (facts : Facts) → All (Contains facts.lines) (in_form marks facts).lines }
    ensures clear { (marks : List Bool) (facts : Facts) → All (Contains facts.clear) (in_form marks facts).clear }
    ensures hold { (marks : List Bool) (facts : Facts) (number : Numbers) (lines : List Line) → FactsHold facts number lines →
        FactsHold (in_form marks facts) number lines }
    ensures state { (s : State) (e : editor.State) → StandsFor s e → StandsFor (state_in_form s) e }
{}
