//! The landmarks that a certificate states of its start, each of which has to be where its chain says.
ghost use Rattle.std.specs.Prelude.{◌≡◌, IfOk, IfSome, IsNone, IsSomeAnd};
ghost use Rattle.cert_check.specs.Certificates.{certificate_value};
ghost use Rattle.cert_check.specs.checker.Beginning.{chains_of, landmarks_of};
ghost use Rattle.cert_check.specs.checker.Sound.{HaveLandmarks};
ghost use Rattle.ed_calls.specs.RunOver.{lines_told};

use cert_check::{Certificate, Version};
use ed_syntax::Answer;
use hints::{Missed, missed_chain};
use landmarks::LandmarkChain;
use std::alloc::{AllocError, Global};

/// The first chain of landmarks that a certificate states of its start and that the start doesn't have. A missing file has no lines; of a
/// refused one none are known, and so no chain. Where none is stated no memory is taken.
pub(crate) fn first_missed<'c>(
    alloc: Global,
    certificate: &'c Certificate,
    start: &Answer,
) -> Result<Option<Missed<'c>>, AllocError>
    ensures placed { IfOk result (λ found. IsNone found →
        IfSome (lines_told start.now) (λ lines. HaveLandmarks lines (chains_of (certificate_value certificate.now)))) }
    ensures missed { IfOk result (λ found. IfSome found (λ _.
        IsSomeAnd (lines_told start.now) (λ lines. HaveLandmarks lines (chains_of (certificate_value certificate.now)) → ⊥))) }
{
    match certificate.version {
        Version::One | Version::Two => Ok(None),
        Version::Three => missed_at(alloc, certificate.landmarks.as_slice(), start),
    }
}

/// The first of these chains that a start doesn't have.
fn missed_at<'c>(
    alloc: Global,
    chains: &'c [LandmarkChain],
    start: &Answer,
) -> Result<Option<Missed<'c>>, AllocError>
    ensures placed { IfOk result (λ found. IsNone found →
        IfSome (lines_told start.now) (λ lines. HaveLandmarks lines (landmarks_of chains.now))) }
    ensures missed { IfOk result (λ found. IfSome found (λ _.
        IsSomeAnd (lines_told start.now) (λ lines. HaveLandmarks lines (landmarks_of chains.now) → ⊥))) }
{
    match start {
        Answer::Bytes(bytes) => missed_chain(alloc, chains, bytes.as_slice()),
        Answer::Missing => missed_chain(alloc, chains, b""),
        Answer::Refused | Answer::Done => Ok(None),
    }
}
