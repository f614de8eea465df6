//! Laws about the answers: contracts of functions that do nothing.

ghost use Rattle.std.specs.Prelude.{◌≡◌, List};
ghost use Rattle.ed_base.specs.declared.fault.Fault.{Fault};
ghost use Rattle.ed_syntax.specs.Commands.{Script};
ghost use Rattle.cert_check.specs.declared.checker.verdict.Place.{Place};
ghost use Rattle.cert_check.specs.Certificates as plain;
ghost use Rattle.analyser.specs.declared.analysis.Start.{Start};
ghost use Rattle.analyser.specs.declared.analysis.Analysis.{Analysis};
ghost use Rattle.analyser.specs.Analysis.{IsCertificate, IsFailure, IsAnswer};
ghost use Rattle.analyser.specs.Exactness.{IsExactAnswer};

use ed_rules::{exact_commands_are_exact, needs_are_the_same_whatever_is_watched};
use ed_syntax::answers_are_asked_for;

/// A script has one answer over a start: its certificate is determined, and so is the first need that fails.
pub fn answers_are_determined()
    // A certificate comes just where no need fails.
    ensures either { (script : Script) (start : Start) (c : plain.Certificate) (place : Place) (why : Fault) (notes : List plain.Note) →
        IsCertificate script start c → IsFailure script start place why notes → ⊥ }
    ensures certificate { (script : Script) (start : Start) (one other : plain.Certificate) →
        IsCertificate script start one → IsCertificate script start other → one ≡ other }
    ensures failure { (script : Script) (start : Start) (place other_place : Place) (why other_why : Fault) (notes other_notes : List plain.Note) →
        IsFailure script start place why notes → IsFailure script start other_place other_why other_notes →
        (place ≡ other_place) × (why ≡ other_why) × (notes ≡ other_notes) }
{}

/// The answer on an exact script foretells each run.
pub fn exact_scripts_are_foretold()
    ensures exact { (script : Script) (start : Start) (answer : Analysis) → IsAnswer script start answer → IsExactAnswer script start answer }
{
    exact_commands_are_exact();
    needs_are_the_same_whatever_is_watched();
    answers_are_asked_for();
}
