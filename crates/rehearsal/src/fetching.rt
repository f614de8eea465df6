//! What a rehearsal asks of the real files: the bytes of a file that it doesn't hold yet.
ghost use Rattle.std.specs.Prelude.{◌≡◌, ◌≢◌, None, IfOk};
ghost use Rattle.ed_syntax.specs.declared.request.Answer.TheVariants as answer;
ghost use Rattle.ed_session.specs.KeptAnswers.{found};
ghost use Rattle.ed_session.specs.MemFiles.{file_at, files_of, log_of, refused_call, refusals};
ghost use Rattle.rehearsal.specs.Rehearsals.{ReadsAtMost, Shown, written};
ghost use Rattle.rehearsal.specs.Insides.{Holds, refused_or, call_if};

use ed_session::{MemFiles, Outside};
use ed_syntax::Answer;
use std::alloc::AllocError;

/// Asks the real files for a file that isn't held, and holds what they have. Says whether they refuse it.
pub(crate) fn fetch<O: Outside>(
    real: &mut O,
    files: &mut MemFiles,
    path: &[u8],
) -> Result<bool, AllocError>
    requires holds { Holds (O.log real.old) (files_of files.old) (written (log_of files.old)) }
    ensures no_write { ReadsAtMost path.now (O.log real.old) (O.log real.new) }

    // What is held is still that of the writes and of the real files, also if there was no memory.
    ensures holds { Holds (O.log real.new) (files_of files.new) (written (log_of files.new)) }

    // The file that is held now is what a read is to show, unless it was refused.
    ensures shown { IfOk result (λ refused. Shown (O.log real.new) (written (log_of files.new)) path.now
        (refused_or refused (found (file_at path.now (files_of files.new))))) }

    // A file that is held is not asked for again.
    ensures asked_once { file_at path.now (files_of files.old) ≢ None → O.log real.new ≡ O.log real.old }

    // Only the files that are held change.
    ensures same_log { log_of files.new ≡ log_of files.old }
    ensures same_refused { refused_call files.new ≡ refused_call files.old }
    ensures same_refusals { refusals files.new ≡ refusals files.old }
{
    if files.file(path).is_some() {
        return Ok(false);
    }
    match real.read(path)? {
        Answer::Bytes(bytes) => {
            files.add(path, bytes)?;
            Ok(false)
        }
        Answer::Missing | Answer::Done => Ok(false), // No read is answered `Done`.
        Answer::Refused => Ok(true),
    }
}

/// The number of this call if it is to be refused, or 0.
pub(crate) fn call_refused(refused: bool, call: u64) -> u64
    ensures value { result ≡ call_if refused call }
{
    if refused { call } else { 0 }
}
