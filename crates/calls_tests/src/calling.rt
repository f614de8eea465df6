//! Makes the program's calls over files and an output in memory, which refuse what a test asks them to.
ghost use Rattle.std.specs.Prelude.{◌≡◌, IfOk};

use ed_base::Bytes;
use ed_calls::{Aside, edit, fit, run};
use ed_session::{MemFiles, MemSink};
use ed_syntax::Options;
use std::alloc::{AllocError, Global};

/// How many bytes an output takes in all, and at once.
const ROOM: usize = 4096;

const PIECE: usize = 64;

/// What a call is given: the files `F` and `G`, where they are there, the one that it begins with, whether it is silent, its prompt, and
/// which of its calls for a file and which write of its output is refused (0: none).
#[derive(Clone, Copy)]
pub(crate) struct Case {
    pub f: Option<&'static [u8]>,
    pub g: Option<&'static [u8]>,
    pub start: Option<&'static [u8]>,
    pub silent: bool,
    pub prompt: Option<&'static [u8]>,
    pub refused_call: u64,
    pub refused_write: u64,
}

/// A silent call on the file `F`, which has three lines, of which nothing is refused.
pub(crate) const ON_F: Case = Case {
    f: Some(b"a\nb\nc\n"),
    g: None,
    start: Some(b"F"),
    silent: true,
    prompt: None,
    refused_call: 0,
    refused_write: 0,
};

/// What the file `F` has at first.
pub(crate) const ABC: Option<&[u8]> = Some(b"a\nb\nc\n");

/// What is told where a start isn't one that a certificate allows.
pub(crate) const OUTSIDE: &[u8] = b"start outside the certificate\n";

pub(crate) fn bytes_of(alloc: Global, bytes: Option<&[u8]>) -> Result<Option<Bytes>, AllocError> {
    match bytes {
        Some(bytes) => Bytes::from_slice(alloc, bytes).map(Some),
        None => Ok(None),
    }
}

/// A file that isn't there isn't added.
fn add(
    alloc: Global,
    files: &mut MemFiles,
    path: &[u8],
    bytes: Option<&[u8]>,
) -> Result<(), AllocError> {
    match bytes_of(alloc, bytes)? {
        Some(bytes) => files.add(path, bytes),
        None => Ok(()),
    }
}

/// The files of a case.
pub(crate) fn files_of(alloc: Global, case: &Case) -> Result<MemFiles, AllocError> {
    let mut files = MemFiles::new(alloc);
    files.refuse(case.refused_call);
    add(alloc, &mut files, b"F", case.f)?;
    add(alloc, &mut files, b"G", case.g)?;
    Ok(files)
}

/// An output, whose write of this number is refused.
pub(crate) fn output(alloc: Global, refused_write: u64) -> Result<MemSink, AllocError>
    ensures count { IfOk result (λ sink. sink.failures ≡ 0) }
{
    let mut sink = MemSink::new(alloc, ROOM, PIECE)?;
    sink.refuse(refused_write);
    Ok(sink)
}

pub(crate) fn options_of(alloc: Global, case: &Case) -> Result<Options, AllocError> {
    let prompt = bytes_of(alloc, case.prompt)?;
    let path = bytes_of(alloc, case.start)?;
    Ok(Options {
        silent: case.silent,
        prompt,
        path,
    })
}

/// What a call came to: its status, and what its output took.
#[derive(Drop)]
pub(crate) struct Came {
    pub status: u8,
    pub sink: MemSink,
}

/// What `edit` comes to over these files.
pub(crate) fn edited(
    alloc: Global,
    files: &mut MemFiles,
    case: &Case,
    script: &[u8],
) -> Result<Came, AllocError> {
    let options = options_of(alloc, case)?;
    let mut sink = output(alloc, case.refused_write)?;
    let mut aside = Aside::new(alloc, script, b"");
    let status = edit(alloc, script, options, files, &mut sink, &mut aside);
    Ok(Came { status, sink })
}

/// What `run` comes to over these files.
pub(crate) fn ran(
    alloc: Global,
    files: &mut MemFiles,
    case: &Case,
    script: &[u8],
    certificate: &[u8],
) -> Result<Came, AllocError> {
    let options = options_of(alloc, case)?;
    let mut sink = output(alloc, case.refused_write)?;
    let mut aside = Aside::new(alloc, script, b"CERT");
    let status = run(
        alloc,
        script,
        certificate,
        options,
        files,
        &mut sink,
        &mut aside,
    );
    Ok(Came { status, sink })
}

/// What `fit` comes to over these files.
pub(crate) fn fitted(
    alloc: Global,
    files: &mut MemFiles,
    case: &Case,
    certificate: &[u8],
) -> Result<Came, AllocError> {
    let start = bytes_of(alloc, case.start)?;
    let mut sink = output(alloc, case.refused_write)?;
    let mut aside = Aside::new(alloc, b"", b"CERT");
    let status = fit(alloc, certificate, &start, files, &mut sink, &mut aside);
    Ok(Came { status, sink })
}
