//! What was refused, as a person reads it: a file, standard input, standard output, memory. No clause speaks of these lines.
ghost use Rattle.std.specs.Prelude.{◌≡◌};

use crate::stderr::file_name::quoted_name;
use crate::stderr::shown::shown_lines;
use ed_base::{Bytes, Fault, Pieces};
use ed_session::{DiskFiles, Outside};
use ed_syntax::Answer;
use rehearsal::Rehearsal;
use std::alloc::{AllocError, Global};
use std::fs::File;
use std::rt::Files;
use std::{io, mem};
use whole::{DiskDrafts, Whole};

/// What is wrong with a file that was asked for.
#[derive(Clone, Copy, Debug, PartialEq, Eq)]
pub enum Wrong {
    /// It isn't there.
    Missing,
    /// It can't be read.
    Unread,
    /// It can't be written.
    Unwritten,
    /// It is a script for whose judgement there was no memory.
    Unjudged,
    /// It has more lines than a start may have.
    TooLong,
}

impl Wrong {
    fn text(self) -> &'static str {
        match self {
            Wrong::Missing => "no such file",
            Wrong::Unread => "can't be read",
            Wrong::Unwritten => "can't be written",
            Wrong::Unjudged => "out of memory",
            Wrong::TooLong => "more than 10^12 lines",
        }
    }
}

/// Files that know why their last call was refused.
pub trait Explains {
    /// The system's reason, or none where the call wasn't refused.
    fn reason(&self) -> Option<io::Error>;
}

impl<R: Files<File = File> + Drop> Explains for DiskFiles<R> {
    fn reason(&self) -> Option<io::Error> {
        DiskFiles::reason(self)
    }
}

// Of a rehearsal's calls only its reads are refused, and by the real files.
impl<O: Outside + Explains + Drop> Explains for Rehearsal<O> {
    fn reason(&self) -> Option<io::Error> {
        self.real().reason()
    }
}

impl<R: Files<File = File> + Copy + Drop> Explains for Whole<DiskDrafts<R>> {
    fn reason(&self) -> Option<io::Error> {
        self.drafts().reason()
    }
}

/// A request that a file refused.
#[derive(Drop)]
struct Refusal {
    /// None where there was no memory for it.
    path: Option<Bytes>,
    wrong: Wrong,
    reason: Option<io::Error>,
}

impl Refusal {
    fn new(alloc: Global, path: &[u8], wrong: Wrong, reason: Option<io::Error>) -> Self {
        Refusal {
            path: Bytes::from_slice(alloc, path).ok(),
            wrong,
            reason,
        }
    }
}

/// An outside that remembers which file has refused last, to tell of it when the run is over.
#[derive(Drop)]
pub struct Watched<O: Outside + Explains + Drop> {
    alloc: Global,
    files: O,
    // Whether the next read is that of the start, which may miss its file.
    starts: bool,
    // The file of the start, where it is missing.
    missing: Option<Bytes>,
    refusal: Option<Refusal>,
}

impl<O: Outside + Explains + Drop> Watched<O> {
    /// A watch over these files, whose first read is a run's start if `starts` is true.
    pub fn new(alloc: Global, files: O, starts: bool) -> Self
        ensures log { O.log result.files ≡ O.log files }
        ensures count { O.failures result.files ≡ O.failures files }
    {
        Watched {
            alloc,
            files,
            starts,
            missing: None,
            refusal: None,
        }
    }

    /// The files that are watched.
    pub fn files(&self) -> &O
        ensures value { result.now ≡ self.now.files }
    {
        &self.files
    }

    /// Whether the file of the start was to be read, and wasn't.
    pub fn has_no_start(&self) -> bool {
        self.starts
    }

    /// The files, watched no more.
    pub fn into_files(self) -> O
        ensures value { result ≡ self.files }
    {
        self.files
    }

    /// Remembers that the call that came last was refused, or found no file.
    fn refuse(&mut self, path: &[u8], wrong: Wrong)
        ensures unchanged { self.new.files ≡ self.old.files }
    {
        let reason = self.files.reason();
        self.refusal = Some(Refusal::new(self.alloc, path, wrong, reason));
    }

    /// Remembers that the file of the start isn't there.
    fn miss(&mut self, path: &[u8])
        ensures unchanged { self.new.files ≡ self.old.files }
    {
        self.missing = Bytes::from_slice(self.alloc, path).ok();
    }

    /// Shows in one line each that the file of the start isn't there, and what was refused where a run over these files ended with this
    /// status: a file, else standard output.
    pub fn show_refusal(&self, rt: &impl Eprint, status: u8) {
        if let Some(path) = &self.missing {
            show_missing(self.alloc, rt, path.as_slice());
        }
        match &self.refusal {
            Some(refusal) if status == Fault::File.status() => {
                if let Some(path) = &refusal.path {
                    let (path, wrong) = (path.as_slice(), refusal.wrong);
                    show_file(self.alloc, rt, path, wrong, refusal.reason);
                }
            }
            _ => show_output(rt, status),
        }
    }
}

impl<O: Outside + Explains + Drop> Outside for Watched<O> {
    ghost log = { λ w. O.log w.files };

    ghost failures = { λ w. O.failures w.files };

    ghost few_failures = { λ w. O.few_failures w.files };

    fn read(&mut self, path: &[u8]) -> Result<Answer, AllocError> {
        let starts = mem::replace(&mut self.starts, false);
        let answer = self.files.read(path)?;
        match &answer {
            Answer::Refused => self.refuse(path, Wrong::Unread),
            Answer::Missing if starts => self.miss(path),
            Answer::Missing => self.refuse(path, Wrong::Missing),
            _ => {}
        }
        Ok(answer)
    }

    fn write(&mut self, path: &[u8], bytes: &Pieces) -> Result<Answer, AllocError> {
        let answer = self.files.write(path, bytes)?;
        if matches!(answer, Answer::Refused) {
            self.refuse(path, Wrong::Unwritten);
        }
        Ok(answer)
    }
}

/// Shows in one line what is wrong with the file at a path, with the system's reason where there is one. Bytes that would end the line,
/// or aren't text, are escaped. Where there is no memory for the line, it is left out.
fn show_file(
    alloc: Global,
    rt: &impl Eprint,
    path: &[u8],
    wrong: Wrong,
    reason: Option<io::Error>,
) {
    if let Ok(line) = file_text(alloc, path, wrong, reason) {
        let _ = rt.eprint(line);
    }
}

fn file_text(
    alloc: Global,
    path: &[u8],
    wrong: Wrong,
    reason: Option<io::Error>,
) -> Result<String, AllocError> {
    let name = quoted_name(alloc, path)?;
    let reason = reason_text(alloc, reason)?;
    let (name, wrong, reason) = (name.as_str(), wrong.text(), reason.as_str());
    let line = format!(in alloc; "error: {name}: {wrong}{reason}")?;
    shown_lines(alloc, line.as_str())
}

/// Shows in one line that the file of the start isn't there.
pub fn show_missing(alloc: Global, rt: &impl Eprint, path: &[u8]) {
    if let Ok(line) = missing_text(alloc, path) {
        let _ = rt.eprint(line);
    }
}

fn missing_text(alloc: Global, path: &[u8]) -> Result<String, AllocError> {
    let name = quoted_name(alloc, path)?;
    let name = name.as_str();
    let line = format!(in alloc; "note: {name} isn't there; the buffer is empty")?;
    shown_lines(alloc, line.as_str())
}

/// Shows in one line that the file at a path isn't there or wasn't read, with the system's reason where there is one.
pub fn show_unread(alloc: Global, rt: &impl Eprint, path: &[u8], reason: Option<io::Error>) {
    if let Some(error) = reason {
        if error.kind() == io::ErrorKind::NotFound {
            show_absent(alloc, rt, path);
            return;
        }
    }
    show_file(alloc, rt, path, Wrong::Unread, reason);
}

/// Shows in one line that the file at a path isn't there.
pub fn show_absent(alloc: Global, rt: &impl Eprint, path: &[u8]) {
    show_file(alloc, rt, path, Wrong::Missing, None);
}

/// Shows in one line that the file at a path has more lines than a start may have.
pub fn show_too_long(alloc: Global, rt: &impl Eprint, path: &[u8]) {
    show_file(alloc, rt, path, Wrong::TooLong, None);
}

/// Shows in one line that there was no memory to judge the script at a path.
pub fn show_unjudged(alloc: Global, rt: &impl Eprint, path: &[u8]) {
    show_file(alloc, rt, path, Wrong::Unjudged, None);
}

/// Shows in one line that the file at a path wasn't written, with the system's reason where there is one.
pub fn show_unwritten(alloc: Global, rt: &impl Eprint, path: &[u8], reason: Option<io::Error>) {
    show_file(alloc, rt, path, Wrong::Unwritten, reason);
}

/// Shows in one line that standard input wasn't read, with the system's reason where there is one.
pub fn show_input(alloc: Global, rt: &impl Eprint, reason: Option<io::Error>) {
    let reason = reason_text(alloc, reason).unwrap_or(String::new(alloc));
    let _ = eprintln!(rt; "error: standard input: can't be read{reason}");
}

/// The system's words for an error after a colon, without its number.
fn reason_text(alloc: Global, reason: Option<io::Error>) -> Result<String, AllocError> {
    match reason {
        Some(error) => {
            let text = format!(in alloc; "{error}")?;
            let words = without_number(text.as_str());
            Ok(format!(in alloc; ": {words}")?)
        }
        None => Ok(String::new(alloc)),
    }
}

/// A text of the system without the number of the error in brackets.
fn without_number(text: &str) -> &str {
    match text.split_once(" (os error ") {
        Some((words, _)) => words,
        None => text,
    }
}

/// Shows in one line that standard output was refused, if what was to be told ended with the status of that.
pub fn show_output(rt: &impl Eprint, status: u8) {
    if status == Fault::Output.status() {
        let _ = eprintln!(rt; "error: standard output: can't be written");
    }
}

/// Shows in one line that memory ran out, if what was done ended with the status of that.
pub fn show_memory(rt: &impl Eprint, status: u8) {
    if status == Fault::Memory.status() {
        let _ = rt.eprint("error: out of memory\n");
    }
}
