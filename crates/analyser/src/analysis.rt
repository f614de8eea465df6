//! What the analyser is given beside a script, and what it answers.

use cert_check::{Certificate, Note, Place};
use ed_base::{Bytes, Fault};
use ed_rules::Texts;
use landmarks::LandmarkChains;

/// The start of the runs that a script is analysed for.
#[derive(Debug, Drop)]
pub struct Start {
    /// The path of the start file; with none the buffer is empty.
    pub path: Option<Bytes>,
    /// The fewest lines that the start may have.
    pub min: u64,
    /// The most lines that the start may have; with none there is no limit.
    pub max: Option<u64>,
    /// The patterns that some line of the start matches, maybe none: then a certificate of version 2 is made, which states them. With
    /// `None` it is one of version 1, which tells nothing of what lines match. A certificate of version 3 states them too.
    pub has: Option<Texts>,
    /// Chains of landmarks that the start has, maybe none: then a certificate of version 3 is made, which states them and tells of single
    /// lines what they match. With `None`, and where the script leaves too few letters for the landmarks, so that they don't count, the
    /// version is as `has` says.
    pub landmarks: Option<LandmarkChains>,
}

/// Whether a script is vouched for.
#[derive(Debug, Drop)]
pub enum Analysis {
    /// The script can't fail, as the certificate shows.
    Vouched(Certificate),
    /// A need fails.
    Cannot {
        /// A counted command's number, which counts from 1, or the number after the last one for the end.
        place: Place,
        /// The fault that may come there.
        why: Fault,
        /// What is known before each command up to that place, its own included; at the end all notes.
        notes: Vec<Note>,
    },
}
