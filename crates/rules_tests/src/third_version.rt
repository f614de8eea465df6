//! Texts of certificates of version 3: what is read of single lines, and lines that may not stand.

use crate::versions::{PLAIN, TOLD};
use cert_check::{CertFault, Certificate, LineKind, wanted};
use std::alloc::{AllocError, Global};
use std::test::Fail;

/// How many chains and facts of lines are read, and whether the state at the end follows lines.
fn counts_in(alloc: Global, text: &[u8]) -> Result<(usize, usize, usize, bool), CertFault> {
    let certificate = Certificate::read(alloc, text)?;
    let facts = certificate.last.facts();
    Ok((
        certificate.landmarks.len(),
        facts.lines.len(),
        facts.clear.len(),
        certificate.last.follows(),
    ))
}

#[test]
fn chains_and_facts_are_read(rt: HostRuntime) -> Result<(), Fail> {
    let told = counts_in(rt.alloc(), TOLD)?;
    assert!(rt; told == (2, 2, 2, true));
    let plain = counts_in(rt.alloc(), PLAIN)?;
    assert!(rt; plain == (0, 0, 0, true));
    Ok(())
}

/// A text whose line of this number may not stand there, and the kind of one that may.
#[derive(Drop)]
struct Refused {
    text: &'static [u8],
    line: usize,
    kind: LineKind,
}

#[rattlefmt::skip]
static REFUSED: [Refused; 11] = [
    // The two lines of facts are left out, or stand in version 2.
    Refused { text: b"ed-certificate 3\npath -\nstart 0 any\nhas\nat\nend\nzone\nmarks\nhas\npatterns -\n", line: 10, kind: LineKind::Lines },
    Refused { text: b"ed-certificate 3\npath -\nstart 0 any\nhas\nat\nend\nzone\nmarks\nhas\nlines\npatterns -\n", line: 11, kind: LineKind::Clear },
    Refused { text: b"ed-certificate 2\npath -\nstart 0 any\nhas\nend\nzone\nmarks\nhas\nlines\n", line: 9, kind: LineKind::Patterns },
    // Facts of a letter that isn't sure, of line 0, and in another order.
    Refused { text: b"ed-certificate 3\npath -\nstart 0 any\nhas\nat\nend\nzone\nmarks\nhas\nlines z+=a\n", line: 10, kind: LineKind::Lines },
    Refused { text: b"ed-certificate 3\npath -\nstart 0 any\nhas\nat\nend\nzone\nmarks\nhas\nlines 0+=a\n", line: 10, kind: LineKind::Lines },
    Refused { text: b"ed-certificate 3\npath -\nstart 0 any\nhas\nat\nend\nzone\nmarks\nhas\nlines .+=b .-=a\n", line: 10, kind: LineKind::Lines },
    Refused { text: b"ed-certificate 3\npath -\nstart 0 any\nhas\nat\nend\nzone\nmarks\nhas\nlines .+=a .-=a\n", line: 10, kind: LineKind::Lines },
    // Stretches from a name to itself, and from the last line on.
    Refused { text: b"ed-certificate 3\npath -\nstart 0 any\nhas\nat\nend\nzone\nmarks\nhas\nlines\nclear .-.=a\n", line: 11, kind: LineKind::Clear },
    Refused { text: b"ed-certificate 3\npath -\nstart 0 any\nhas\nat\nend\nzone\nmarks\nhas\nlines\nclear $-$+=a\n", line: 11, kind: LineKind::Clear },
    // Those of an earlier buffer hang on its own letters.
    Refused { text: b"ed-certificate 3\npath -\nstart 0 any\nhas\nat\nend\nzone\nmarks z\nhas\nlines\nclear\npatterns -\nreplacements none\nnames -\nchanged no\nundo was\nold-zone\nold-marks\nold-has\nold-lines z+=a\n", line: 20, kind: LineKind::OldLines },
    Refused { text: b"ed-certificate 3\npath -\nstart 0 any\nhas\nat\nend\nzone\nmarks z\nhas\nlines\nclear\npatterns -\nreplacements none\nnames -\nchanged no\nundo was\nold-zone\nold-marks z\nold-has\nold-lines z+=a\nfinal 0 any\n", line: 21, kind: LineKind::OldClear },
];

/// The number of the line that is refused, and the kind that could stand there.
fn refused_at(alloc: Global, text: &[u8]) -> Result<Option<(usize, LineKind)>, AllocError> {
    match wanted(alloc, text)? {
        Some(wanted) => Ok(Some((wanted.line, wanted.kind))),
        None => Ok(None),
    }
}

fn first_otherwise(alloc: Global, rows: &[Refused]) -> Result<Option<usize>, AllocError> {
    for (index, row) in rows.iter().enumerate() {
        if refused_at(alloc, row.text)? != Some((row.line, row.kind)) {
            return Ok(Some(index));
        }
    }
    Ok(None)
}

#[test]
fn lines_that_may_not_stand_are_told(rt: HostRuntime) -> Result<(), Fail> {
    assert_eq!(rt; first_otherwise(rt.alloc(), &REFUSED)?, None);
    Ok(())
}
