//! What a run asks of the files outside, and what it is answered.
ghost use Rattle.std.specs.Prelude.{◌≡◌, IfOk};

use ed_base::{Bytes, Pieces};
use std::alloc::AllocError;

/// What a run asks for. Paths are bytes.
#[derive(Debug, PartialEq, Eq, Drop)]
pub enum Request {
    /// The bytes of the file at this path.
    Read(Bytes),
    /// That the file at this path has just these bytes.
    Write(Bytes, Pieces),
}

/// What a request is answered. One that doesn't fit its request counts as `Refused`.
#[derive(Debug, PartialEq, Eq, Drop)]
pub enum Answer {
    /// The bytes that the file has.
    Bytes(Bytes),
    /// There is no such file.
    Missing,
    /// The file can't be read or written.
    Refused,
    /// It was written.
    Done,
}

impl Answer {
    pub fn try_copy(&self) -> Result<Answer, AllocError>
        ensures value { IfOk result (λ copy. copy ≡ self.now) }
    {
        match self {
            Answer::Bytes(bytes) => Ok(Answer::Bytes(bytes.try_copy()?)),
            Answer::Missing => Ok(Answer::Missing),
            Answer::Refused => Ok(Answer::Refused),
            Answer::Done => Ok(Answer::Done),
        }
    }
}
