//! Calls that only clauses see, for a log that keeps no copy of a file.
use ed_base::{Bytes, Pieces};
use ed_syntax::Answer;
use std::snapshot::Snapshot;

/// A call as clauses see it, with its path.
#[derive(Drop)]
pub(crate) enum SeenDeed {
    Read(Snapshot<Bytes>, Snapshot<Answer>),
    ReadDraft(Snapshot<Bytes>, Snapshot<Answer>),
    Draft(Snapshot<Bytes>, Snapshot<Pieces>, Snapshot<Answer>),
    Ready(Snapshot<Bytes>, bool),
    Put(Snapshot<Bytes>, bool),
    Discard(Snapshot<Bytes>),
    Settle(Snapshot<Bytes>),
}
