//! What is given of a start that is to be found.

use ed_base::Bytes;
use ed_rules::Texts;
use landmarks::LandmarkChains;

/// What is given of a start that is to be found for a script. What isn't given is found (`widest_start`, `landmark_start`).
#[derive(Debug, Drop)]
pub struct Given {
    /// The path of the start file; with none the buffer is empty. It is never found.
    pub path: Option<Bytes>,
    /// The fewest lines that the start may have; with none they are found.
    pub min: Option<u64>,
    /// The most lines that the start may have; with none there is no limit.
    pub max: Option<u64>,
    /// The patterns that some line of the start matches, to which others may be added. With `None` a certificate of version 1 is made where
    /// none has to be added, and else one of version 2, as with the set of none.
    pub has: Option<Texts>,
    /// The chains of landmarks that the start has, maybe none, to which `landmark_start` may add others: a certificate of version 3 is made
    /// then. With `None` none are stated unless it finds some.
    pub landmarks: Option<LandmarkChains>,
}
