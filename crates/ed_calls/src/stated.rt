//! The patterns that a certificate states of its start, each of which some line has to match.
ghost use Rattle.std.specs.Prelude.{◌≡◌, option_map, IfOk};
ghost use Rattle.ed_base.specs.Lines.{lines_of};
ghost use Rattle.cert_check.specs.Certificates.{certificate_value};
ghost use Rattle.cert_check.specs.checker.Sound.{stated};
ghost use Rattle.ed_calls.specs.RunOver.{lines_told};
ghost use Rattle.ed_calls.specs.StartTest.{first_unmatched, unmatched_of};

use cert_check::{Certificate, Version};
use ed_base::Bytes;
use ed_rules::some_line_matches;
use ed_syntax::Answer;
use std::alloc::{AllocError, Global};

/// The first pattern that a certificate states of its start and that no line of a start matches. A missing file has no lines; of a
/// refused one none are known, and so no pattern. Where none is stated no memory is taken.
pub(crate) fn unmatched<'c>(
    alloc: Global,
    certificate: &'c Certificate,
    start: &Answer,
) -> Result<Option<&'c Bytes>, AllocError>
    ensures value { IfOk result (λ found. option_map (λ pattern. pattern.now) found
        ≡ unmatched_of (stated (certificate_value certificate.now)) (lines_told start.now)) }
{
    match certificate.version {
        Version::One => Ok(None),
        Version::Two | Version::Three => unmatched_at(alloc, certificate.has.members(), start),
    }
}

/// The first of these patterns that no line of a start matches.
fn unmatched_at<'p>(
    alloc: Global,
    patterns: &'p [Bytes],
    start: &Answer,
) -> Result<Option<&'p Bytes>, AllocError>
    ensures value { IfOk result (λ found. option_map (λ pattern. pattern.now) found
        ≡ unmatched_of patterns.now (lines_told start.now)) }
{
    match start {
        Answer::Bytes(bytes) => unmatched_over(alloc, patterns, bytes.as_slice()),
        Answer::Missing => unmatched_over(alloc, patterns, b""),
        Answer::Refused | Answer::Done => Ok(None),
    }
}

/// The first of these patterns that no line of a file matches.
fn unmatched_over<'p>(
    alloc: Global,
    patterns: &'p [Bytes],
    file: &[u8],
) -> Result<Option<&'p Bytes>, AllocError>
    ensures value { IfOk result (λ found. option_map (λ pattern. pattern.now) found
        ≡ first_unmatched patterns.now (lines_of file.now)) }
{
    for pattern in patterns {
        let is_matched = some_line_matches(alloc, pattern.as_slice(), file)?;
        if !is_matched {
            return Ok(Some(pattern));
        }
    }
    Ok(None)
}
