//! The checker: whether a certificate shows that a script can't fail.
#![tactic(auto)]

mod certificate;
mod checker;
mod in_form;
mod laws;
mod sight;
mod text;

pub use certificate::{Certificate, Looped, Note, Version};
pub use checker::check;
pub use checker::starting::{know_chains, landmarks_in, letters_left};
pub use checker::verdict::{Place, Verdict};
pub use laws::{
    accepted_scripts_cannot_fail, checked_globals_go_well, covering_is_decided,
    facts_have_one_text, facts_in_form_can_be_written, facts_in_form_hold, marked_starts_stand,
    marked_starts_suffice, readings_are_told_apart, some_of_formed_facts_are_formed,
    starts_are_sound, texts_are_unambiguous, version_one_is_as_before,
};
pub use sight::{Entry, Sight};
pub use text::fact_reading::{clear_in, known_in};
pub use text::fact_writing::{write_facts, write_old_facts};
pub use text::fault::CertFault;
pub use text::reading::wanted;
pub use text::transcript::Transcript;
pub use text::wanted::{LineKind, Wanted};
pub use text::writer::TextWriter;
