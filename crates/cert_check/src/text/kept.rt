//! A text that is kept as it is made.

ghost use Rattle.std.specs.Prelude.{◌≡◌, [], false, IfOk};

use crate::text::transcript::Transcript;
use crate::text::writer::TextWriter;
use ed_base::Bytes;
use std::alloc::{AllocError, Global};

/// A text in one buffer, unless memory for it is refused: from then on it keeps no more.
#[derive(Drop)]
pub(crate) struct KeptText {
    bytes: Bytes,
    is_refused: bool,
    given: Transcript,
    ghost is_whole: { is_refused ≡ false → bytes ≡ given.bytes },
}

impl KeptText {
    /// No text yet. It takes no memory.
    pub(crate) fn new(alloc: Global) -> KeptText
        ensures value { result.given.bytes ≡ [] }
    {
        KeptText {
            bytes: Bytes::new(alloc),
            is_refused: false,
            given: Transcript::new(),
        }
    }

    /// All that it was given.
    pub(crate) fn finish(self) -> Result<Bytes, AllocError>
        ensures value { IfOk result (λ bytes. bytes ≡ self.given.bytes) }
    {
        if self.is_refused {
            return Err(AllocError);
        }
        Ok(self.bytes)
    }
}

impl TextWriter for KeptText {
    ghost written = { λ kept. kept.given.bytes };

    fn push(&mut self, byte: u8) {
        self.given.note(&[byte]);
        self.is_refused = self.is_refused || self.bytes.push(byte).is_err();
    }

    fn extend(&mut self, bytes: &[u8]) {
        self.given.note(bytes);
        self.is_refused = self.is_refused || self.bytes.extend_from_slice(bytes).is_err();
    }
}
