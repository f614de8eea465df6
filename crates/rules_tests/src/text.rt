//! The text of certificates: as a whole and piece by piece, and certificates that have none.

use crate::collecting::Collecting;
use crate::walking::named;
use cert_check::{CertFault, Certificate};
use ed_base::Bytes;
use ed_rules::State;
use std::alloc::{AllocError, Global};
use std::test::Fail;
use zones::Name;

/// The certificate's text for `1d`, `w`, `q` over a file F of 1 to 3 lines.
pub(crate) const DELETED: &[u8] = b"ed-certificate 1
path =F
start 1 3
note
zone 0-.<=-1 0-$<=-1 .-0<=3 .-$<=0 $-0<=3 $-.<=0
marks
patterns -
replacements none
names =F
changed no
undo nothing
note
zone 0-.<=0 0-$<=0 .-0<=1 .-$<=0 $-0<=2 $-.<=2
marks
patterns -
replacements none
names =F
changed yes
undo was
old-zone 0-.<=-1 0-$<=-1 .-0<=3 .-$<=0 $-0<=3 $-.<=0
old-marks
note
zone 0-.<=0 0-$<=0 .-0<=1 .-$<=0 $-0<=2 $-.<=2
marks
patterns -
replacements none
names =F
changed no
undo was
old-zone 0-.<=-1 0-$<=-1 .-0<=3 .-$<=0 $-0<=3 $-.<=0
old-marks
end
zone 0-.<=0 0-$<=0 .-0<=1 .-$<=0 $-0<=2 $-.<=2
marks
patterns -
replacements none
names =F
changed no
undo was
old-zone 0-.<=-1 0-$<=-1 .-0<=3 .-$<=0 $-0<=3 $-.<=0
old-marks
final 0 2
writes =F
";

/// What the text of a certificate is in place of `text`: as a whole, and as it is given piece by piece.
pub(crate) fn text_otherwise(
    certificate: &Certificate,
    text: &[u8],
) -> Result<Option<&'static str>, AllocError> {
    if !certificate.has_text() {
        return Ok(Some("none"));
    }
    let written = certificate.write()?;
    let mut collecting = Collecting::new(*certificate.notes.allocator());
    certificate.write_to(&mut collecting);
    if collecting.finish()?.as_slice() != written.as_slice() {
        return Ok(Some("another one, piece by piece"));
    }
    Ok(bytes_otherwise(written.as_slice(), text))
}

fn bytes_otherwise(written: &[u8], text: &[u8]) -> Option<&'static str> {
    if written == text {
        None
    } else {
        Some("another one")
    }
}

/// What is put into that certificate.
#[derive(Clone, Copy)]
struct Change {
    min: u64,
    high: Option<u64>,
    /// How often the path F is listed.
    writes: usize,
    /// A letter of which the zone at the end says that its line isn't after the last one.
    spoken: Option<u8>,
}

const NO_CHANGE: Change = Change {
    min: 1,
    high: Some(2),
    writes: 1,
    spoken: None,
};

fn change_state(change: &Change, state: &mut State) {
    if let Some(letter) = change.spoken {
        state.zone.put(named(letter), Name::LAST_LINE, Some(0));
    }
}

fn keep_last(state: &State, certificate: &mut Certificate) -> Result<(), AllocError> {
    certificate.last = state.try_keep()?;
    Ok(())
}

fn change_last(change: &Change, certificate: &mut Certificate) -> Result<(), AllocError> {
    let mut last = certificate.last.state()?;
    change_state(change, &mut last);
    keep_last(&last, certificate)
}

fn make(alloc: Global, change: &Change, certificate: &mut Certificate) -> Result<(), AllocError> {
    certificate.min = change.min;
    certificate.high = change.high;
    for _ in 1..change.writes {
        certificate.writes.push(Bytes::from_slice(alloc, b"F")?)?;
    }
    change_last(change, certificate)
}

/// Whether the certificate has a text once it is changed.
fn has_text(alloc: Global, change: &Change) -> Result<Result<bool, AllocError>, CertFault> {
    let mut certificate = Certificate::read(alloc, DELETED)?;
    Ok(made_has_text(alloc, change, &mut certificate))
}

fn made_has_text(
    alloc: Global,
    change: &Change,
    certificate: &mut Certificate,
) -> Result<bool, AllocError> {
    make(alloc, change, certificate)?;
    Ok(certificate.has_text())
}

#[rattlefmt::skip]
static TEXTLESS: [Change; 4] = [
    // More lines at the start than there may be, and more at the end than a text may speak of.
    Change { min: 4, ..NO_CHANGE },
    Change { high: Some(1_000_000_000_001), ..NO_CHANGE },
    // A letter that isn't sure, and a path twice.
    Change { spoken: Some(b'a'), ..NO_CHANGE },
    Change { writes: 2, ..NO_CHANGE },
];

#[test]
fn a_certificate_that_is_no_text_says_so(rt: HostRuntime) -> Result<(), Fail> {
    for change in &TEXTLESS {
        let has_text = has_text(rt.alloc(), change)??;
        assert!(rt; !has_text);
    }
    Ok(())
}
