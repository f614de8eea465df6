//! A sink with a room that is set aside at the start.
ghost use Rattle.std.specs.Prelude.{◌≡◌, ◌<◌, ◌≤◌, ◌+◌, ◌-◌, ◌^◌, Some, length, IfOk};
ghost use Rattle.std.specs.Io.KnownBytes.{WriteAppends};
ghost use Rattle.ed_session.specs.Sinks.{failures_of_write};
ghost use Rattle.ed_session.specs.MemSinks.{empty_sink, takes, write_answer, written};

use crate::{Sink, SinkFault};
use std::alloc::{AllocError, Global};
use std::marker::Model;

/// Keeps what it takes, in a room of its own: a write takes no memory.
#[derive(Drop)]
pub struct MemSink {
    taken: Vec<u8>,
    room: usize,
    piece: usize,
    refused: u64,
    writes: u64,
    failures: u64,
}

impl Model for MemSink {
    ghost use Rattle.std.specs.Prelude.{◌≤◌, vec_capacity, vec_len};
    ghost use Rattle.ed_session.specs.MemSinks.{MemSinkValue};

    ghost Value = { MemSinkValue };

    ghost view = { λ s. record {
      taken = s.taken.items;
      room = s.room;
      piece = s.piece;
      refused = s.refused;
      writes = s.writes;
      failures = s.failures;
    } };

    ghost invariant = { λ s. (vec_len s.taken ≤ s.room) × (s.room ≤ vec_capacity s.taken) };
}

impl MemSink {
    /// A sink that takes `room` bytes in all, at most `piece` of them at once.
    pub fn new(alloc: Global, room: usize, piece: usize) -> Result<Self, AllocError>
        ensures value { IfOk result (λ s. s ≡ empty_sink room piece) }
    {
        Ok(MemSink {
            taken: Vec::with_capacity(alloc, room)?,
            room,
            piece,
            refused: 0,
            writes: 0,
            failures: 0,
        })
    }

    /// Its `k`-th write will fail, counted from 1 and from its making; with 0 none. An earlier such wish is forgotten.
    pub fn refuse(&mut self, k: u64)
        ensures value { self.new ≡ record self.old { refused = k } }
    {
        self.refused = k;
    }

    /// What it took.
    pub fn taken(&self) -> &[u8]
        ensures value { result.now ≡ self.now.taken }
    {
        self.taken.as_slice()
    }
}

impl Sink for MemSink {
    ghost use Rattle.std.specs.Prelude.{Some};

    ghost state = { λ s. record { taken = Some s.taken; failures = s.failures } };

    fn write(&mut self, piece: &[u8]) -> Result<usize, SinkFault>
        requires piece { 0 < length piece.now }
        requires count { self.old.failures < 2 ^ 64 - 1 }

        ensures within { IfOk result (λ n. n ≤ length piece.now) }
        ensures appended { WriteAppends (Some self.old.taken) (Some self.new.taken) result piece.now }
        ensures rises { self.new.failures ≡ self.old.failures + failures_of_write result }

        // Beside what any sink ensures: the bytes that it takes, and the sink after the write.
        ensures exact { result ≡ write_answer (takes self.old piece.now) }
        ensures value { self.new ≡ written self.old piece.now }
    {
        self.writes = self.writes.saturating_add(1);
        let left = self.room - self.taken.len();
        let count = if self.writes == self.refused {
            0
        } else {
            piece.len().min(self.piece.min(left))
        };
        if count == 0 {
            self.failures += 1;
            return Err(SinkFault);
        }
        match self.taken.extend_from_slice(&piece[..count]) {
            Ok(()) => Ok(count),
            Err(_) => unreachable!(),
        }
    }
}
