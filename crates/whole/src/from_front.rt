//! An open file that is read or written from its front on, whatever the place where its descriptor stands.

use std::fs::File;
use std::io;
use std::io::{Read, Write};
use std::os::unix::fs::FileExt;

/// How many bytes of two files are compared at a time.
const PIECE: usize = 1 << 13;

/// An open file, and the place in it from which it is read or written next.
#[derive(Drop)]
pub(crate) struct FromFront<'a> {
    file: &'a File,
    place: u64,
}

impl<'a> FromFront<'a> {
    pub(crate) fn of(file: &'a File) -> Self {
        FromFront { file, place: 0 }
    }
}

impl<'a> Read for FromFront<'a> {
    fn read(&mut self, room: &mut [u8]) -> io::Result<usize> {
        let count = self.file.read_at(room, self.place)?;
        self.place = self.place.wrapping_add(count as u64);
        Ok(count)
    }
}

impl<'a> Write for FromFront<'a> {
    fn write(&mut self, bytes: &[u8]) -> io::Result<usize> {
        let count = self.file.write_at(bytes, self.place)?;
        self.place = self.place.wrapping_add(count as u64);
        Ok(count)
    }

    fn flush(&mut self) -> io::Result<()> {
        Ok(())
    }
}

/// Whether two files of one size have the same bytes.
pub(crate) fn are_same(one: &File, other: &File) -> io::Result<bool> {
    let mut these = [0u8; PIECE];
    let mut those = [0u8; PIECE];
    let mut place: u64 = 0;
    for _ in 0..u64::MAX {
        let count = one.read_at(&mut these, place)?;
        if count == 0 {
            break;
        }
        other.read_exact_at(&mut those[..count], place)?;
        if &these[..count] != &those[..count] {
            return Ok(false);
        }
        place = place.wrapping_add(count as u64);
    }
    Ok(true)
}
