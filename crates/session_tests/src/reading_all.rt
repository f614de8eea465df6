//! All bytes of a source, up to a limit. That want of memory is told as such, `tests/refused/run` tries with long scripts and
//! certificates.
use crate::asserting::same;
use ed_base::Bytes;
use sources::{In, ReadFault, Source, SourceFault, read_all};
use std::alloc::Global;
use std::io;
use std::io::{ErrorKind, Read};
use std::process::Abort;

/// A source in memory, and how many of its bytes were taken.
#[derive(Drop)]
struct Counted<'a> {
    source: In<&'a [u8]>,
    taken: usize,
}

impl Source for Counted<'_> {
    ghost remaining = { λ c. c.source.remaining };

    ghost reads = { λ c. c.source.reads };

    ghost failures = { λ c. c.source.failures };

    fn read(&mut self, room: &mut [u8]) -> Result<usize, SourceFault> {
        let read = self.source.read(room);
        if let Ok(count) = &read {
            self.taken = self.taken.saturating_add(*count);
        }
        read
    }
}

struct Row {
    bytes: &'static [u8],
    limit: usize,
    read: Result<&'static [u8], ReadFault>,
    taken: usize,
}

#[rattlefmt::skip]
static ROWS: [Row; 7] = [
    Row { bytes: b"abc", limit: 3, read: Ok(b"abc"), taken: 3 },
    Row { bytes: b"abcd", limit: 3, read: Err(ReadFault::Refused), taken: 4 },
    Row { bytes: b"abcdefgh", limit: 3, read: Err(ReadFault::Refused), taken: 4 },
    Row { bytes: b"", limit: 3, read: Ok(b""), taken: 0 },
    Row { bytes: b"", limit: 0, read: Ok(b""), taken: 0 },
    Row { bytes: b"a", limit: 0, read: Err(ReadFault::Refused), taken: 1 },
    Row { bytes: b"a\n\0\xff", limit: 1000, read: Ok(b"a\n\0\xff"), taken: 4 },
];

fn check(rt: &impl Abort, alloc: Global, row: &Row) {
    let mut source = Counted {
        source: In::new(row.bytes),
        taken: 0,
    };
    let expected = match row.read {
        Ok(bytes) => Ok(Bytes::from_slice(alloc, bytes).expect(rt, "memory")),
        Err(fault) => Err(fault),
    };
    let read = read_all(alloc, &mut source, row.limit);
    same(rt, read, expected, row.bytes);
    same(rt, source.taken, row.taken, row.bytes);
}

#[test]
fn a_source_is_read_up_to_the_limit_and_one_byte_beyond(rt: HostRuntime) {
    for row in &ROWS {
        check(&rt, rt.alloc(), row);
    }
}

/// Whether what is read of a row's source is what the row says, or there is no memory for it.
fn is_read_as_it_may(alloc: Global, row: &Row) -> bool {
    let mut source = In::new(row.bytes);
    match (&read_all(alloc, &mut source, row.limit), row.read) {
        (Err(ReadFault::Memory), _) => true,
        (Ok(bytes), Ok(expected)) => bytes.as_slice() == expected,
        (Err(fault), Err(expected)) => *fault == expected,
        _ => false,
    }
}

/// To be run with each allocation refused in turn (`rt try --test --fail-alloc N`): the answer is want of memory or the right one.
#[test]
fn a_source_for_which_there_is_no_memory_is_refused_for_no_other_reason(rt: HostRuntime) {
    for row in &ROWS {
        assert!(rt; is_read_as_it_may(rt.alloc(), row), "{:?}", row.bytes);
    }
}

/// A reader that fails.
#[derive(Drop)]
struct Failing;

impl Read for Failing {
    fn read(&mut self, _room: &mut [u8]) -> io::Result<usize> {
        Err(io::Error::new(ErrorKind::BrokenPipe, "broken"))
    }
}

#[test]
fn a_read_that_fails_is_refused_with_its_reason(rt: HostRuntime) {
    let mut source = In::new(Failing);
    assert!(rt; source.reason().is_none());
    let read = read_all(rt.alloc(), &mut source, 3);
    same(&rt, read, Err(ReadFault::Refused), b"");
    let is_its_own = match source.reason() {
        Some(error) => error.kind() == ErrorKind::BrokenPipe,
        None => false,
    };
    assert!(rt; is_its_own);
}
