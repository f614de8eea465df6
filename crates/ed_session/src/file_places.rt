//! A file that is written at places of it, cut and synced.
ghost use Rattle.std.specs.Prelude.{◌≡◌, None, true, false, IsTrue, OnOk, OnErr};
ghost use Rattle.ed_session.specs.Overwrites.{FileState, Wrote, WroteFront, WasCut};

use std::fs::File;
use std::io;
use std::marker::Model;
use std::os::unix::fs::FileExt;

/// A file that is written at places of it.
pub(crate) trait FilePlaces {
    /// What it holds, where that is known, and whether it was refused to be cut.
    ghost state: { Self → FileState };

    /// Writes these bytes over those from a place on, which is within the file or its end; at an `Err` perhaps only a front of them.
    fn write_at(&mut self, bytes: &[u8], place: usize) -> io::Result<()>
        ensures written { OnOk result (Wrote (state self.old) (state self.new) place bytes.now) }
        ensures front { OnErr result (WroteFront (state self.old) (state self.new) place bytes.now) };

    /// Whether it has these bytes already from a place on: then it's as if they had been written. False where that can't be read.
    fn has_at(&mut self, bytes: &[u8], place: usize) -> bool
        ensures same { IsTrue result → Wrote (state self.old) (state self.old) place bytes.now }
        ensures unchanged { state self.new ≡ state self.old };

    /// Cuts off what lies beyond a place; at an `Err` nothing.
    fn cut(&mut self, size: usize) -> io::Result<()>
        ensures cut { OnOk result (WasCut (state self.old) (state self.new) size) }
        ensures uncut { OnErr result (state self.new ≡ record (state self.old) { uncut = true }) };

    /// Sees to it that what was written is on the disk to stay.
    fn sync(&mut self) -> io::Result<()>
        ensures unchanged { state self.new ≡ state self.old };
}

/// A file of the system's, of which no clause knows what it holds.
#[derive(Drop)]
pub(crate) struct OpenedFile {
    file: File,
    uncut: bool,
}

impl Model for OpenedFile {
    ghost use Rattle.std.specs.Prelude.{None};
    ghost use Rattle.ed_session.specs.Overwrites.{FileState};

    ghost Value = { FileState };

    ghost view = { λ f. record { held = None; uncut = f.uncut } };
}

impl OpenedFile {
    /// A file that was opened to be written, and wasn't cut yet.
    pub(crate) fn new(file: File) -> Self
        ensures state { result ≡ record { held = None; uncut = false } }
    {
        OpenedFile { file, uncut: false }
    }
}

impl FilePlaces for OpenedFile {
    ghost state = { λ f. f };

    fn write_at(&mut self, bytes: &[u8], place: usize) -> io::Result<()> {
        self.file.write_all_at(bytes, place as u64)
    }

    fn has_at(&mut self, bytes: &[u8], place: usize) -> bool {
        has_bytes(&self.file, bytes, place as u64)
    }

    fn cut(&mut self, size: usize) -> io::Result<()> {
        let result = self.file.set_len(size as u64);
        self.uncut = self.uncut || result.is_err();
        result
    }

    fn sync(&mut self) -> io::Result<()> {
        self.file.sync_all()
    }
}

/// How many bytes are compared at a time.
const PIECE: usize = 1 << 13;

/// Whether a file has these bytes from a place on; false where that can't be read.
fn has_bytes(file: &File, bytes: &[u8], place: u64) -> bool {
    let mut room = [0u8; PIECE];
    let mut place = place;
    for piece in bytes.chunks(PIECE) {
        let count = piece.len().min(PIECE);
        if file.read_exact_at(&mut room[..count], place).is_err() || &room[..count] != piece {
            return false;
        }
        place = place.wrapping_add(count as u64);
    }
    true
}
