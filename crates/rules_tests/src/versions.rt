//! Texts of certificates of each version, read and written again.

use crate::text::{DELETED, text_otherwise};
use cert_check::{CertFault, Certificate, Version};
use std::alloc::{AllocError, Global};
use std::test::Fail;

/// The certificate for `/foo/p`, `Q` over a file F of at least one line, some line of which matches `foo`.
const SEARCHED: &[u8] = b"ed-certificate 2
path =F
start 1 any
has =foo
note
zone 0-.<=-1 0-$<=-1 .-$<=0 $-.<=0
marks
has =foo
patterns -
replacements none
names =F
changed no
undo nothing
note
zone 0-.<=-1 0-$<=-1 .-$<=0
marks
has =foo
patterns =foo
replacements none
names =F
changed no
undo nothing
end
zone 0-.<=-1 0-$<=-1 .-$<=0
marks
has =foo
patterns =foo
replacements none
names =F
changed no
undo nothing
final 1 any
writes
";

/// A certificate that tells what some line of an earlier buffer matches, and of the present one nothing.
const REMEMBERED: &[u8] = b"ed-certificate 2
path -
start 0 any
has
end
zone
marks
has
patterns -
replacements none
names -
changed no
undo same was
old-zone
old-marks
old-has =a%20b =foo
final 0 any
writes
";

/// Two chains, facts of a line with a name of its own, and the same of an earlier buffer.
pub(crate) const TOLD: &[u8] = b"ed-certificate 3
path =F
start 1 any
has
at =/a/;%20only%20/b/ =3
end
zone
marks z
has
lines .-=b z+=a
clear 0-z=a z-$+=b
patterns -
replacements none
names =F
changed no
undo nothing was
old-zone
old-marks y
old-has =c
old-lines y+=c
old-clear
final 0 any
writes
";

/// No chain and no fact.
pub(crate) const PLAIN: &[u8] = b"ed-certificate 3
path -
start 0 any
has
at
end
zone
marks
has
lines
clear
patterns -
replacements none
names -
changed no
undo nothing
final 0 any
writes
";

static READ: [&[u8]; 5] = [DELETED, SEARCHED, REMEMBERED, TOLD, PLAIN];

fn written_again_otherwise(
    alloc: Global,
    text: &[u8],
) -> Result<Result<Option<&'static str>, AllocError>, CertFault> {
    let certificate = Certificate::read(alloc, text)?;
    Ok(text_otherwise(&certificate, text))
}

#[test]
fn a_text_is_read_and_written_again(rt: HostRuntime) -> Result<(), Fail> {
    for text in &READ {
        assert_eq!(rt; written_again_otherwise(rt.alloc(), text)??, None);
    }
    Ok(())
}

/// Whether the certificate of a text has one in this version too.
#[derive(Drop)]
struct Retold {
    text: &'static [u8],
    version: Version,
    has_text: bool,
}

#[rattlefmt::skip]
static RETOLD: [Retold; 10] = [
    // Version 1 can't tell of matches.
    Retold { text: SEARCHED, version: Version::One, has_text: false },
    Retold { text: SEARCHED, version: Version::Two, has_text: true },
    Retold { text: REMEMBERED, version: Version::One, has_text: false },
    Retold { text: REMEMBERED, version: Version::Two, has_text: true },
    // Versions 1 and 2 follow no single lines.
    Retold { text: TOLD, version: Version::One, has_text: false },
    Retold { text: TOLD, version: Version::Two, has_text: false },
    Retold { text: TOLD, version: Version::Three, has_text: true },
    Retold { text: PLAIN, version: Version::One, has_text: false },
    Retold { text: PLAIN, version: Version::Two, has_text: false },
    Retold { text: PLAIN, version: Version::Three, has_text: true },
];

fn has_text_in(alloc: Global, text: &[u8], version: Version) -> Result<bool, CertFault> {
    let mut certificate = Certificate::read(alloc, text)?;
    certificate.version = version;
    Ok(certificate.has_text())
}

fn first_otherwise(alloc: Global, rows: &[Retold]) -> Result<Option<usize>, CertFault> {
    for (index, row) in rows.iter().enumerate() {
        if has_text_in(alloc, row.text, row.version)? != row.has_text {
            return Ok(Some(index));
        }
    }
    Ok(None)
}

#[test]
fn what_a_version_cannot_tell_has_no_text_of_it(rt: HostRuntime) -> Result<(), Fail> {
    assert_eq!(rt; first_otherwise(rt.alloc(), &RETOLD)?, None);
    Ok(())
}
