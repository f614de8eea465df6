//! A certificate as it should be, and changed at one place.
use ed_base::Bytes;
use std::alloc::{AllocError, Global};

/// The script that the certificate is for.
pub(crate) const DELETING: &[u8] = b"1d\nw\nq\n";

/// The certificate's text for that script over a file F of 1 to 3 lines.
pub(crate) const DELETED: &str = "ed-certificate 1
path =F
start 1 3
note
zone 0-.<=-1 0-$<=-1 .-0<=3 .-$<=0 $-0<=3 $-.<=0
marks
patterns -
replacements none
names =F
changed no
undo nothing
note
zone 0-.<=0 0-$<=0 .-0<=1 .-$<=0 $-0<=2 $-.<=2
marks
patterns -
replacements none
names =F
changed yes
undo was
old-zone 0-.<=-1 0-$<=-1 .-0<=3 .-$<=0 $-0<=3 $-.<=0
old-marks
note
zone 0-.<=0 0-$<=0 .-0<=1 .-$<=0 $-0<=2 $-.<=2
marks
patterns -
replacements none
names =F
changed no
undo was
old-zone 0-.<=-1 0-$<=-1 .-0<=3 .-$<=0 $-0<=3 $-.<=0
old-marks
end
zone 0-.<=0 0-$<=0 .-0<=1 .-$<=0 $-0<=2 $-.<=2
marks
patterns -
replacements none
names =F
changed no
undo was
old-zone 0-.<=-1 0-$<=-1 .-0<=3 .-$<=0 $-0<=3 $-.<=0
old-marks
final 0 2
writes =F
";

/// A change of that text: the first place where these words stand has others.
#[derive(Clone, Copy)]
pub(crate) struct Change {
    pub old: &'static str,
    pub new: &'static str,
}

/// None.
pub(crate) const AS_IT_IS: Change = Change {
    old: "final 0 2",
    new: "final 0 2",
};

/// The text with this change.
pub(crate) fn changed(alloc: Global, change: Change) -> Result<Bytes, AllocError> {
    let (before, after) = DELETED.split_once(change.old).unwrap_or((DELETED, ""));
    let mut text = Bytes::from_slice(alloc, before.as_bytes())?;
    text.extend_from_slice(change.new.as_bytes())?;
    text.extend_from_slice(after.as_bytes())?;
    Ok(text)
}
