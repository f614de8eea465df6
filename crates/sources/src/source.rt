//! Reading all of a source, up to a limit.
ghost use Rattle.std.specs.Prelude.{◌≡◌, ◌<◌, ◌≤◌, ◌+◌, ◌-◌, ◌^◌, ◌⊎◌, ◌↔◌, ℕ, List, Option, length, Err, IfOk, IsSome, OnOk};
ghost use Rattle.std.specs.Io.{ReadsAtMost};
ghost use Rattle.std.specs.Io.KnownBytes.{ReadConsumes};
ghost use Rattle.sources.specs.Source.{failures_of_read, counted, IsAll, HasMore, TakesAtMost};

use ed_base::Bytes;
use std::alloc::{AllocError, Global};
use std::io;
use std::marker::Model;
use thiserror::Error;

/// Why a source wasn't read.
#[derive(Clone, Copy, Debug, PartialEq, Eq, Error)]
pub enum ReadFault {
    /// It has more bytes than the limit, or a read failed.
    #[error("not read, or too long")]
    Refused,
    /// An allocation was refused.
    #[error("out of memory")]
    Memory,
}

impl From<AllocError> for ReadFault {
    ghost use Rattle.sources.specs.declared.source.ReadFault.TheVariants.{Memory};

    ghost from_gives = { λ _ fault. fault ≡ Memory };

    fn from(_refusal: AllocError) -> ReadFault {
        ReadFault::Memory
    }
}

/// A read that failed.
#[derive(Clone, Copy, Debug, PartialEq, Eq)]
pub struct SourceFault;

/// Where bytes come from.
pub trait Source {
    /// The bytes that it has left, where it tells them.
    ghost remaining: { Self → Option (List ℕ) };

    /// How often it was read.
    ghost reads: { Self → ℕ };

    /// How often a read has failed.
    ghost failures: { Self → ℕ };

    /// Gives the next bytes, and says how many: none only at the end, or where there is no room.
    fn read(&mut self, room: &mut [u8]) -> Result<usize, SourceFault>
        requires count { failures self.old < 2 ^ 64 - 1 }
        ensures within { ReadsAtMost result room.new }
        ensures consumed { ReadConsumes (remaining self.old) (remaining self.new) result room.new }
        ensures counted { reads self.new ≡ counted (reads self.old) }
        ensures rises { failures self.new ≡ failures self.old + failures_of_read result };
}

/// A reader as a source. Its counts begin at 0.
#[derive(Drop)]
pub struct In<R: io::Read + Drop> {
    reader: R,
    reads: u64,
    failures: u64,
    reason: Option<io::Error>,
}

impl<R: io::Read + Drop> Model for In<R> {
    ghost use Rattle.std.specs.Prelude.{◌<◌, ◌↔◌, IsSome};
    ghost use Rattle.sources.specs.Source.{InValue};

    ghost Value = { InValue };

    ghost view = { λ source. record {
      remaining = R.remaining source.reader;
      reads = source.reads;
      failures = source.failures;
    } };

    // A reason is kept from the first failure on.
    ghost invariant = { λ source. IsSome source.reason ↔ (0 < source.failures) };
}

impl<R: io::Read + Drop> In<R> {
    /// A source over this reader, which hasn't been read yet. It takes no memory.
    pub fn new(reader: R) -> Self
        ensures value { result ≡ record { remaining = R.remaining reader; reads = 0; failures = 0 } }
    {
        In {
            reader,
            reads: 0,
            failures: 0,
            reason: None,
        }
    }

    /// Why the read failed that failed last; none where none has failed.
    pub fn reason(&self) -> Option<io::Error>
        ensures exact { IsSome result ↔ (0 < self.now.failures) }
    {
        self.reason
    }
}

impl<R: io::Read + Drop> Source for In<R> {
    ghost remaining = { λ source. source.remaining };

    ghost reads = { λ source. source.reads };

    ghost failures = { λ source. source.failures };

    fn read(&mut self, room: &mut [u8]) -> Result<usize, SourceFault> {
        self.reads = self.reads.saturating_add(1);
        match self.reader.read(room) {
            Ok(n) => Ok(n),
            Err(reason) => {
                self.failures += 1;
                self.reason = Some(reason);
                Err(SourceFault)
            }
        }
    }
}

/// How many bytes one read asks for at most.
const PIECE: usize = 65536;

/// All bytes of a source, of which there may be at most `limit`. After an `Err` those that were taken are gone.
pub fn read_all<S: Source>(alloc: Global, source: &mut S, limit: usize) -> Result<Bytes, ReadFault>
    requires count { S.failures source.old < 2 ^ 64 - 1 }
    ensures value { IfOk result (λ bytes. IsAll (S.remaining source.old) (S.remaining source.new) limit bytes) }
    ensures taken { TakesAtMost (limit + 1) (S.remaining source.old) (S.remaining source.new) }
    ensures reads { S.reads source.new ≤ S.reads source.old + (limit + 1) }

    // A refusal has a reason: a read failed, or there was more than the limit.
    ensures only_if_refused { result ≡ Err ReadFault.Refused →
        (S.failures source.old < S.failures source.new) ⊎ HasMore (S.remaining source.old) (S.remaining source.new) limit }
{
    let mut room = vec![in alloc; 0; PIECE]?;
    read_pieces(alloc, source, room.as_mut_slice(), limit)
}

/// Reads piece by piece, each through `room`.
fn read_pieces<S: Source>(
    alloc: Global,
    source: &mut S,
    room: &mut [u8],
    limit: usize,
) -> Result<Bytes, ReadFault>
    requires count { S.failures source.old < 2 ^ 64 - 1 }
    requires room { 0 < length room.old }
    ensures value { IfOk result (λ bytes. IsAll (S.remaining source.old) (S.remaining source.new) limit bytes) }
    ensures taken { TakesAtMost (limit + 1) (S.remaining source.old) (S.remaining source.new) }
    ensures reads { S.reads source.new ≤ S.reads source.old + (limit + 1) }
    ensures only_if_refused { result ≡ Err ReadFault.Refused →
        (S.failures source.old < S.failures source.new) ⊎ HasMore (S.remaining source.old) (S.remaining source.new) limit }
{
    let mut bytes = Bytes::new(alloc);
    'reads: loop {
        let wanted = (limit - bytes.len()).min(room.len() - 1) + 1;
        match source.read(&mut room[..wanted]) {
            Ok(n) => {
                if n == 0 {
                    return Ok(bytes);
                }
                bytes.extend_from_slice(&room[..n])?;
                if bytes.len() > limit {
                    return Err(ReadFault::Refused);
                }
            }
            Err(_) => return Err(ReadFault::Refused),
        }
    }
}
