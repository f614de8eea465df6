//! What became of the writes of a run.
use ed_base::Bytes;

/// What became of the writes that a run has held back.
#[derive(Clone, Copy, Debug, PartialEq, Eq)]
pub enum Outcome {
    /// Each path that was written has its last bytes.
    Put,
    /// The run hadn't ended well, or one of its requests was refused: all drafts were discarded.
    Discarded,
    /// The draft of the path at this place couldn't be made ready: all drafts were discarded.
    Unready(usize),
    /// The draft of the path at this place couldn't be put. The paths before it have their last bytes; its draft and those after it were
    /// discarded.
    Stopped(usize),
}

/// A run that has ended, with its files, and the paths that it has written, each once, in the order of their first writes.
#[derive(Drop)]
pub struct Finished<D: Drop> {
    pub drafts: D,
    pub paths: Vec<Bytes>,
    pub outcome: Outcome,
}
