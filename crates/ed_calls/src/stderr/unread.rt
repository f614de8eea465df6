//! Why a file holds no certificate, as a person reads it.

use crate::stderr::file_name::{is_named_as_script, quoted_name, quoted_word};
use cert_check::{CertFault, wanted};
use ed_syntax::read_script;
use hints::Said;
use std::alloc::{AllocError, Global};

/// What `vouch` writes begins so where it can't vouch.
const CANNOT: &[u8] = b"cannot: ";

/// Why the bytes of the file of this name are the text of no certificate; nothing where a size or the memory is the reason.
pub fn unread(
    alloc: Global,
    path: &[u8],
    bytes: &[u8],
    fault: CertFault,
) -> Result<Option<Said>, AllocError> {
    match fault {
        CertFault::Version if bytes.starts_with(CANNOT) => answer_text(alloc, path),
        CertFault::Version => script_text(alloc, path, bytes),
        CertFault::Line(_) => wanted_text(alloc, path, bytes),
        _ => Ok(None),
    }
}

/// The file of this name holds what `vouch` wrote instead of a certificate.
fn answer_text(alloc: Global, path: &[u8]) -> Result<Option<Said>, AllocError> {
    let name = quoted_name(alloc, path)?;
    let name = name.as_str();
    let text = format!(in alloc; "{name} holds the answer of a vouch that could not")?;
    Ok(Some(Said::Hint(text)))
}

/// The file of this name is a script, by its name or by how it begins.
fn script_text(alloc: Global, path: &[u8], bytes: &[u8]) -> Result<Option<Said>, AllocError> {
    if !is_named_as_script(path) && !begins_as_script(alloc, bytes)? {
        return Ok(None);
    }
    let name = quoted_name(alloc, path)?;
    let word = quoted_word(alloc, path)?;
    let (name, word) = (name.as_str(), word.as_str());
    Ok(Some(Said::Error(format!(in alloc;
        "{name} isn't a certificate; to judge a script: edv vouch FILE <{word}"
    )?)))
}

/// Whether the first line of a file is a command, and not empty.
fn begins_as_script(alloc: Global, bytes: &[u8]) -> Result<bool, AllocError> {
    let mut lines = bytes.split(|byte| *byte == b'\n');
    match lines.next() {
        Some(line) if !line.is_empty() => Ok(read_script(alloc, line)?.fault.is_none()),
        _ => Ok(false),
    }
}

/// A line may not stand where it stands.
fn wanted_text(alloc: Global, path: &[u8], bytes: &[u8]) -> Result<Option<Said>, AllocError> {
    match wanted(alloc, bytes)? {
        Some(wanted) => {
            let name = quoted_name(alloc, path)?;
            let name = name.as_str();
            let line = wanted.line;
            let kind = str::from_utf8(wanted.kind.name()).unwrap_or("");
            let text = format!(in alloc; "{name}: line {line}: wanted: {kind}")?;
            Ok(Some(Said::Error(text)))
        }
        None => Ok(None),
    }
}
