//! A writer that collects a text piece by piece.

use cert_check::{TextWriter, Transcript};
use ed_base::Bytes;
use std::alloc::{AllocError, Global};

#[derive(Drop)]
pub(crate) struct Collecting {
    bytes: Bytes,
    is_refused: bool,
    given: Transcript,
}

impl Collecting {
    pub(crate) fn new(alloc: Global) -> Collecting {
        Collecting {
            bytes: Bytes::new(alloc),
            is_refused: false,
            given: Transcript::new(),
        }
    }

    /// What was collected, if there was memory for all of it.
    pub(crate) fn finish(self) -> Result<Bytes, AllocError> {
        if self.is_refused {
            return Err(AllocError);
        }
        Ok(self.bytes)
    }
}

impl TextWriter for Collecting {
    ghost written = { λ collecting. collecting.given.bytes };

    fn push(&mut self, byte: u8) {
        self.given.note(&[byte]);
        self.is_refused = self.is_refused || self.bytes.push(byte).is_err();
    }

    fn extend(&mut self, bytes: &[u8]) {
        self.given.note(bytes);
        self.is_refused = self.is_refused || self.bytes.extend_from_slice(bytes).is_err();
    }
}
