//! Whether a file may have landmarks, as far as that is seen.

use crate::given::Given;
use crate::given_landmarks::chains_in;
use crate::nowhere::no_file_has;
use ed_rules::LineBounds;
use landmarks::LandmarkChains;
use std::alloc::{AllocError, Global};

/// Whether a file of as many lines as are given may have the landmarks that are given and these. A script is vouched for over no file at all
/// whatever it does, which helps nobody.
pub(crate) fn has_room(
    alloc: Global,
    given: &Given,
    added: &LandmarkChains,
) -> Result<bool, AllocError> {
    let all = chains_in(alloc, &given.landmarks)?.followed_by(added.try_copy()?)?;
    let most = match given.max {
        Some(most) if most <= LineBounds::MOST => Some(most),
        _ => None,
    };
    Ok(!no_file_has(alloc, all.as_slice(), most)?)
}
