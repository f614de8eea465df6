//! The counts of bytes that are read and written (XCU ed, "Options").
ghost use Rattle.std.specs.Prelude.{◌≡◌, ◌++◌, IfOk};
ghost use Rattle.ed_session.specs.Insides.{counted, length_counted};

use ed_base::{Bytes, Pieces, push_number};
use ed_syntax::Answer;
use std::alloc::{AllocError, Global};

/// How many bytes were written or read, if some were, by the answer to a request that writes so many or reads.
pub(crate) fn length_counted(writes: Option<usize>, answer: &Answer) -> Option<usize>
    ensures value { result ≡ length_counted writes answer.now }
{
    match (writes, answer) {
        (Some(length), _) => Some(length),
        (None, Answer::Bytes(bytes)) => Some(bytes.len()),
        (None, _) => None,
    }
}

/// Some output, and after it the count of so many bytes, unless the run is silent.
pub(crate) fn with_count(
    alloc: Global,
    mut output: Pieces,
    silent: bool,
    length: Option<usize>,
) -> Result<Pieces, AllocError>
    ensures value { IfOk result (λ written. written ≡ output ++ counted silent length) }
{
    if let (false, Some(length)) = (silent, length) {
        let mut count = Bytes::new(alloc);
        push_number(&mut count, length as u64)?;
        count.push(b'\n')?;
        output.extend_from_slice(count.as_slice())?;
    }
    Ok(output)
}
