//! Requests and answers that only clauses see, for a log that keeps no copy of a file.
ghost use Rattle.std.specs.Prelude.{◌≡◌, IfOk};

use ed_base::{Bytes, Pieces};
use ed_syntax::Answer;
use std::alloc::{AllocError, Global};
use std::marker::Model;
use std::snapshot::Snapshot;

/// The bytes of a path as clauses see them. They can't be read, and take no memory, however many there are.
#[derive(Drop)]
pub(crate) struct SeenBytes {
    items: Vec<Snapshot<u8>>,
}

impl Model for SeenBytes {
    ghost use Rattle.std.specs.Prelude.{ℕ, List, map};

    ghost Value = { List ℕ };

    ghost view = { λ b. map (λ s. s.value) b.items.items };
}

impl SeenBytes {
    pub(crate) fn of(alloc: Global, bytes: &[u8]) -> Result<SeenBytes, AllocError>
        ensures value { IfOk result (λ seen. seen ≡ bytes.now) }
    {
        let mut items = Vec::new(alloc);
        'bytes: for byte in bytes {
            items.push(Snapshot::of(byte))?;
        }
        Ok(SeenBytes { items })
    }
}

/// A request as clauses see it.
#[derive(Drop)]
pub(crate) enum SeenRequest {
    Read(SeenBytes),
    Write(SeenBytes, Snapshot<Pieces>),
}

/// An answer as clauses see it.
#[derive(Drop)]
pub(crate) enum SeenAnswer {
    Bytes(Snapshot<Bytes>),
    Missing,
    Refused,
    Done,
}

impl SeenAnswer {
    ghost use Rattle.ed_session.specs.Seen.{answer_seen};

    /// It looks at no byte.
    pub(crate) fn of(answer: &Answer) -> SeenAnswer
        ensures value { answer_seen result ≡ answer.now }
    {
        match answer {
            Answer::Bytes(bytes) => SeenAnswer::Bytes(Snapshot::of(bytes)),
            Answer::Missing => SeenAnswer::Missing,
            Answer::Refused => SeenAnswer::Refused,
            Answer::Done => SeenAnswer::Done,
        }
    }
}
