//! What the program reads before it does a job: the bytes of a script, and of a certificate.
ghost use Rattle.std.specs.Prelude.{◌≡◌, ◌<◌, ◌≤◌, ◌+◌, ◌-◌, ◌^◌, ◌⊎◌, [], Ok, Err, IfOk, IsTrue, IsFalse};
ghost use Rattle.ed_main.specs.Program.{most_bytes, wants_input, wants_script};
ghost use Rattle.ed_main.specs.Several.{status_of_unread};
ghost use Rattle.sources.specs.Source.{HasMore, IsAll};

use crate::job::Job;
use ed_base::{Bytes, Fault};
use ed_calls::{show_input, show_unread};
use sources::{In, ReadFault, Source, read_all};
use std::fs::File;
use std::io;
use std::rt::Files;

/// How many bytes of a script, and of a certificate, are read at most.
const LIMIT: usize = 1 << 30;

/// The bytes of a job's script: all of the file that is named for it, or else of standard input. A job without a script has none. What is
/// wrong with that file is shown.
pub fn script_from<R, S>(rt: &R, input: &mut S, job: &Job) -> Result<Bytes, ReadFault>
where
    R: Files<File = File> + Eprint + AllocGlobal,
    S: Source,
    requires count { S.failures input.old < 2 ^ 64 - 1 }
    ensures script { IsTrue (wants_input job.now) →
        IfOk result (λ script. IsAll (S.remaining input.old) (S.remaining input.new) most_bytes script) }
    ensures reads { S.reads input.new ≤ S.reads input.old + (most_bytes + 1) }

    // Where standard input is refused, that has a reason: a read failed, or there was more than is read at most.
    ensures only_if_refused { IsTrue (wants_input job.now) → result ≡ Err ReadFault.Refused →
        (S.failures input.old < S.failures input.new) ⊎ HasMore (S.remaining input.old) (S.remaining input.new) most_bytes }

    // Where it isn't wanted, it is left as it was; and where no script is wanted, nothing can fail.
    ensures unchanged { IsFalse (wants_input job.now) → input.new ≡ input.old }
    ensures unasked { IsFalse (wants_script job.now) → result ≡ Ok [] }
{
    if job.wants_input() {
        return read_all(rt.alloc(), input, LIMIT);
    }
    match job.script() {
        Some(path) => bytes_at(rt, path),
        None => Ok(Bytes::new(rt.alloc())),
    }
}

/// The status of a script that wasn't read. That standard input wasn't, and why, is shown here.
pub fn refuse_script<R>(rt: &R, job: &Job, fault: ReadFault, reason: Option<io::Error>) -> u8
where
    R: Eprint + AllocGlobal,
    ensures status { result ≤ 4 }
    ensures value { result ≡ status_of_unread fault }
{
    if fault == ReadFault::Refused && job.wants_input() && !job.is_quiet() {
        show_input(rt.alloc(), rt, reason);
    }
    status_of_read(fault)
}

/// The status of input that wasn't read.
pub fn status_of_read(fault: ReadFault) -> u8
    ensures status { result ≤ 4 }
    ensures value { result ≡ status_of_unread fault }
{
    match fault {
        ReadFault::Refused => Fault::File.status(),
        ReadFault::Memory => Fault::Memory.status(),
    }
}

/// The bytes of the file at this path. What is wrong with it is shown.
pub fn bytes_at<R>(rt: &R, path: &Bytes) -> Result<Bytes, ReadFault>
where
    R: Files<File = File> + Eprint + AllocGlobal,
{
    match read_at(rt, path) {
        Ok(bytes) => Ok(bytes),
        Err(unread) => {
            unread.show(rt, path);
            Err(unread.fault)
        }
    }
}

/// Why the bytes of a file weren't read.
#[derive(Drop)]
pub struct Unread {
    pub fault: ReadFault,
    // The system's reason, where the file was refused and there is one.
    reason: Option<io::Error>,
}

impl Unread {
    fn without_memory() -> Unread {
        Unread {
            fault: ReadFault::Memory,
            reason: None,
        }
    }

    /// Shows that the file at this path was refused, where it was.
    pub fn show<R: Eprint + AllocGlobal>(&self, rt: &R, path: &Bytes) {
        if self.fault == ReadFault::Refused {
            show_unread(rt.alloc(), rt, path.as_slice(), self.reason);
        }
    }
}

/// The bytes of the file at this path.
pub fn read_at<R>(rt: &R, path: &Bytes) -> Result<Bytes, Unread>
where
    R: Files<File = File> + AllocGlobal,
{
    let reason = match file_at(rt, path.as_slice()) {
        Ok(file) => {
            let mut input = In::new(file);
            match read_all(rt.alloc(), &mut input, LIMIT) {
                Ok(bytes) => return Ok(bytes),
                Err(ReadFault::Refused) => input.reason(),
                Err(ReadFault::Memory) => return Err(Unread::without_memory()),
            }
        }
        Err(error) if error.kind() == io::ErrorKind::OutOfMemory => {
            return Err(Unread::without_memory());
        }
        Err(error) => Some(error),
    };
    Err(Unread {
        fault: ReadFault::Refused,
        reason,
    })
}

/// The file at this path, or why there is none.
fn file_at<R: Files<File = File>>(rt: &R, path: &[u8]) -> Result<File, io::Error> {
    match str::from_utf8(path) {
        Ok(path) => File::open(rt, path),
        Err(_) => Err(io::Error::new(io::ErrorKind::InvalidInput, "a name that isn't UTF-8")),
    }
}
