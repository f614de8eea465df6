//! Where a run's output goes.
ghost use Rattle.std.specs.Prelude.{◌≡◌, ◌<◌, ◌≤◌, ◌+◌, ◌-◌, ◌^◌, false, IsTrue, length, IfOk};
ghost use Rattle.std.specs.Io.KnownBytes.{WriteAppends};
ghost use Rattle.ed_session.specs.Sinks.{SinkState, change, failures_of_write, Took, TookFront, NeverFailed, Failed};

use crate::chunks::{Chunks, ROOM};
use ed_base::Pieces;
use std::alloc::Global;
use std::io;
use std::marker::Model;

/// A write that took nothing.
#[derive(Clone, Copy, Debug, PartialEq, Eq)]
pub struct SinkFault;

/// What takes bytes, and counts how often it failed to.
pub trait Sink {
    /// The bytes that it took, where it tells them, and how often it has failed, which is below 2^64.
    ghost state: { Self → SinkState };

    /// Takes the first bytes of a piece, and says how many; at an `Err` it takes none.
    fn write(&mut self, piece: &[u8]) -> Result<usize, SinkFault>
        requires piece { 0 < length piece.now }
        requires count { (state self.old).failures < 2 ^ 64 - 1 }

        ensures within { IfOk result (λ n. n ≤ length piece.now) }
        ensures appended { WriteAppends (state self.old).taken (state self.new).taken result piece.now }

        // The count rises just where nothing is taken: at an `Err` and at 0.
        ensures rises { (state self.new).failures ≡ (state self.old).failures + failures_of_write result };
}

/// A writer as a sink.
#[derive(Drop)]
pub struct Out<W: io::Write + Drop> {
    writer: W,
    failures: u64,
}

impl<W: io::Write + Drop> Model for Out<W> {
    ghost use Rattle.ed_session.specs.Sinks.{SinkState};

    ghost Value = { SinkState };

    ghost view = { λ o. record { taken = W.contents o.writer; failures = o.failures } };
}

impl<W: io::Write + Drop> Out<W> {
    /// A sink over this writer, which hasn't failed yet. It takes no memory.
    pub fn new(writer: W) -> Self
        ensures value { result ≡ record { taken = W.contents writer; failures = 0 } }
    {
        Out {
            writer,
            failures: 0,
        }
    }
}

impl<W: io::Write + Drop> Sink for Out<W> {
    ghost state = { λ o. o };

    fn write(&mut self, piece: &[u8]) -> Result<usize, SinkFault> {
        match self.writer.write(piece) {
            Ok(0) => {
                self.failures += 1;
                Ok(0)
            }
            Ok(n) => Ok(n),
            Err(_) => {
                self.failures += 1;
                Err(SinkFault)
            }
        }
    }
}

/// Gives all bytes to a sink, and says whether it took them all.
pub fn give<W: Sink>(sink: &mut W, bytes: &[u8]) -> bool
    requires count { (W.state sink.old).failures < 2 ^ 64 - 1 }

    ensures all { IsTrue result → Took (change (W.state sink.old) (W.state sink.new)) bytes.now
        × NeverFailed (change (W.state sink.old) (W.state sink.new)) }
    ensures part { result ≡ false → TookFront (change (W.state sink.old) (W.state sink.new)) bytes.now
        × Failed (change (W.state sink.old) (W.state sink.new)) }
{
    let mut done = 0;
    'pieces: while done < bytes.len() {
        match sink.write(&bytes[done..]) {
            Ok(n) => {
                if n == 0 {
                    return false;
                }
                done += n;
            }
            Err(_) => return false,
        }
    }
    true
}

/// Gives all bytes in pieces to a sink, short ones gathered, and says whether it took them all.
pub fn give_pieces<W: Sink>(sink: &mut W, alloc: Global, bytes: &Pieces) -> bool
    requires count { (W.state sink.old).failures < 2 ^ 64 - 1 }

    ensures all { IsTrue result → Took (change (W.state sink.old) (W.state sink.new)) bytes.now
        × NeverFailed (change (W.state sink.old) (W.state sink.new)) }
    ensures part { result ≡ false → TookFront (change (W.state sink.old) (W.state sink.new)) bytes.now
        × Failed (change (W.state sink.old) (W.state sink.new)) }
{
    // Without memory to gather them in, each piece goes by itself.
    let room = Vec::with_capacity(alloc, bytes.len().min(ROOM)).unwrap_or(Vec::new(alloc));
    let mut chunks = Chunks::new(bytes, room);
    'chunks: while let Some(chunk) = chunks.next_chunk() {
        if !give(sink, chunk) {
            return false;
        }
    }
    true
}
