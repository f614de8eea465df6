//! What a rehearsal would have changed in each file, as `diff -u` writes it, in colours on a terminal.
ghost use Rattle.std.specs.Prelude.{◌≡◌, ◌<◌, ◌-◌, ◌^◌, IfOk, OnOk};
ghost use Rattle.rehearsal.specs.Held.{writes_of};
ghost use Rattle.rehearsal.specs.Rehearsals.{written};
ghost use Rattle.ed_session.specs.MemFiles.{log_of};
ghost use Rattle.ed_session.specs.Sinks.{change};
ghost use Rattle.ed_main.specs.Diffs.{GoesOn, IsChange, IsFound, ShowsFile, ShowsFiles, first_paths};

use crate::screen::Screen;
use ed_base::{Bytes, Fault};
use ed_calls::{show_memory, show_output};
use ed_session::{DiskFiles, Out, Outside, Sink, give};
use ed_syntax::Answer;
use rehearsal::{HeldWrite, Rehearsal};
use std::alloc::{AllocError, Global};
use std::collections::HashSet;
use std::fs::File;
use std::rt::Files;
use std::{fs, io};
use unified_diff::write_unified;

/// What stands for a file that isn't there.
const NO_FILE: &[u8] = b"/dev/null";

/// Writes on standard output what each file has and what it would have, in the order in which they would have been written first. Says
/// whether all of it was written, and else shows why it wasn't: standard output was refused, or memory ran out.
pub fn show_diffs<R, O>(rt: &R, rehearsal: &mut Rehearsal<O>) -> bool
where
    R: Files<File = File> + Print + Eprint + AllocGlobal + Screen,
    O: Outside + Drop,
{
    let mut real = DiskFiles::new(rt.alloc(), rt);
    let mut output = Out::new(io::writer(rt));
    match write_diffs(rt, rt.is_screen(), rehearsal, &mut real, &mut output) {
        Ok(()) => true,
        Err(fault) => {
            show_output(rt, fault.status());
            show_memory(rt, fault.status());
            false
        }
    }
}

/// Writes the diffs, by what the real files answer, up to the first one that can't be written.
fn write_diffs<R, O, P, W>(
    rt: &R,
    colours: bool,
    rehearsal: &mut Rehearsal<O>,
    real: &mut P,
    sink: &mut W,
) -> Result<(), Fault>
where
    R: Files<File = File> + AllocGlobal,
    O: Outside + Drop,
    P: Outside,
    W: Sink,
    requires count { (W.state sink.old).failures < 2 ^ 64 - 1 }
    ensures shown { OnOk result (ShowsFiles colours (written (log_of rehearsal.old.files)) (P.log real.new)
        (first_paths (writes_of (log_of rehearsal.old.files))) (change (W.state sink.old) (W.state sink.new))) }
{
    let written = written_paths(rt.alloc(), rehearsal.writes())?;
    let paths = written.as_slice();
    for path in paths {
        let diff = diff_at(rt, colours, rehearsal, real, path.as_slice())?;
        if !give(sink, diff.as_slice()) {
            return Err(Fault::Output);
        }
    }
    Ok(())
}

/// The paths of these writes, each once, in the order of the first writes to them.
fn written_paths(alloc: Global, writes: &[HeldWrite]) -> Result<Vec<Bytes>, AllocError>
    ensures value { IfOk result (λ paths. paths.items ≡ first_paths writes.now) }
{
    let mut seen = HashSet::new(alloc);
    let mut paths = Vec::new(alloc);
    for write in writes {
        if seen.insert(write.path.as_slice())? {
            paths.push(write.path.try_copy()?)?;
        }
    }
    Ok(paths)
}

/// The diff of the file at a path that is written in a rehearsal, by what the real files answer.
fn diff_at<R, O, P>(
    rt: &R,
    colours: bool,
    rehearsal: &mut Rehearsal<O>,
    real: &mut P,
    path: &[u8],
) -> Result<Bytes, AllocError>
where
    R: Files<File = File> + AllocGlobal,
    O: Outside + Drop,
    P: Outside,
    ensures shown { IfOk result (λ diff. ShowsFile colours (written (log_of rehearsal.old.files)) (P.log real.new) path.now diff) }
    ensures goes_on { OnOk result (GoesOn (P.log real.old) (P.log real.new)) }
    ensures kept { OnOk result (written (log_of rehearsal.new.files) ≡ written (log_of rehearsal.old.files)) }
{
    let told = rehearsal.read(path)?;
    let found = found_at(rt, real, path)?;
    match told {
        Answer::Bytes(told) => diff_of(rt.alloc(), colours, path, &found, told.as_slice()),
        // What was written has bytes.
        Answer::Missing | Answer::Refused | Answer::Done => Ok(Bytes::new(rt.alloc())),
    }
}

/// The diff of the file at a path, by what a read of it was answered and what it is to have; nothing, where it can't be read.
fn diff_of(
    alloc: Global,
    colours: bool,
    path: &[u8],
    found: &Answer,
    told: &[u8],
) -> Result<Bytes, AllocError>
    ensures exact { IfOk result (λ diff. IsChange colours path.now found.now told.now diff) }
{
    match found {
        Answer::Bytes(old) => write_unified(alloc, colours, path, path, old.as_slice(), told),
        Answer::Missing => write_unified(alloc, colours, NO_FILE, path, &[], told),
        Answer::Refused | Answer::Done => Ok(Bytes::new(alloc)),
    }
}

/// What a read of a path is answered. What may have no end, or wait, isn't read, and refused.
fn found_at<R, P>(rt: &R, real: &mut P, path: &[u8]) -> Result<Answer, AllocError>
where
    R: Files<File = File>,
    P: Outside,
    ensures found { IfOk result (λ found. IsFound path.now (P.log real.new) found) }
    ensures goes_on { OnOk result (GoesOn (P.log real.old) (P.log real.new)) }
{
    if ends(rt, path) {
        real.read(path)
    } else {
        Ok(Answer::Refused)
    }
}

/// Whether a read of a path comes to an end by itself: a plain file is there, or nothing. What the system says, no clause knows.
fn ends<R: Files<File = File>>(rt: &R, path: &[u8]) -> bool {
    let Ok(name) = str::from_utf8(path) else {
        return false;
    };
    match fs::metadata(rt, name) {
        Ok(found) => found.is_file(),
        Err(_) => true,
    }
}
