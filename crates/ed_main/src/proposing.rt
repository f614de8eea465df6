//! The file that a start is proposed from, which is read before a job is done.
ghost use Rattle.std.specs.Prelude.{◌≡◌, ◌≤◌, IfOk, IfErr};
ghost use Rattle.ed_main.specs.Chains.{AreLandmarked};
ghost use Rattle.ed_main.specs.Several.{status_of_unread};
ghost use Rattle.ed_main.specs.Starts.{AreStarts, HasBytes};
ghost use Rattle.ed_main.specs.Wanted.{AreFound, IsNoStart, IsProposed, IsUnfit, IsWanted, fault_of};

use crate::chains::Chains;
use crate::inputs::status_of_read;
use crate::wanted::Wanted;
use ed_base::{Bytes, count_lines};
use ed_calls::{Starts, show_absent, show_too_long, show_unread};
use ed_rules::LineBounds;
use ed_session::Outside;
use ed_syntax::Answer;
use hints::Like;
use sources::ReadFault;
use std::alloc::AllocError;
use std::io;

/// Why no start is proposed from a file.
#[derive(Clone, Copy)]
pub enum Unfit {
    /// It isn't there.
    Absent,
    /// It can't be read.
    Unread,
    /// It has more lines than a start may have.
    TooLong,
    /// There was no memory to read it.
    Memory,
}

impl Unfit {
    /// The fault that it is.
    fn fault(self) -> ReadFault
        ensures value { result ≡ fault_of self }
    {
        match self {
            Unfit::Absent | Unfit::Unread | Unfit::TooLong => ReadFault::Refused,
            Unfit::Memory => ReadFault::Memory,
        }
    }
}

/// The path of a file from which no start is proposed, and why.
#[derive(Drop)]
pub struct NoStart {
    like: Bytes,
    unfit: Unfit,
}

impl NoStart {
    /// Shows what is wrong with the file, unless nothing is to be told, and gives the status. The reason is the system's for a file that
    /// can't be read, where there is one.
    pub fn refuse<R>(&self, rt: &R, reason: Option<io::Error>, is_quiet: bool) -> u8
    where
        R: Eprint + AllocGlobal,
        ensures status { result ≤ 4 }
        ensures value { result ≡ status_of_unread (fault_of self.now.unfit) }
    {
        if !is_quiet {
            self.show(rt, reason);
        }
        status_of_read(self.unfit.fault())
    }

    fn show<R: Eprint + AllocGlobal>(&self, rt: &R, reason: Option<io::Error>) {
        let path = self.like.as_slice();
        match self.unfit {
            Unfit::Absent => show_absent(rt.alloc(), rt, path),
            Unfit::Unread => show_unread(rt.alloc(), rt, path, reason),
            Unfit::TooLong => show_too_long(rt.alloc(), rt, path),
            Unfit::Memory => {}
        }
    }
}

/// The start that is asked for. Where it is proposed from a file, that is read from `files` once, as one is that is edited.
pub fn starts_from<O: Outside>(files: &mut O, wanted: Wanted) -> Result<Starts, NoStart>
    requires given { IsWanted wanted }
    ensures given { IfOk result AreStarts }
    ensures found { IfOk result (AreFound wanted (O.log files.old) (O.log files.new)) }
    ensures only_if_unfit { IfErr result (IsNoStart wanted (O.log files.old) (O.log files.new)) }
{
    match wanted {
        Wanted::Stated(starts, at) => Ok(landmarked(starts, at)),
        Wanted::Like {
            path,
            patterns,
            like,
        } => match starts_like(files, path, patterns, &like) {
            Ok(starts) => Ok(starts),
            Err(unfit) => Err(NoStart { like, unfit }),
        },
    }
}

/// The start with these landmarks, where there are any.
fn landmarked(starts: Starts, at: Chains) -> Starts
    requires given { AreStarts starts }
    ensures landmarked { AreLandmarked starts at result }
    ensures given { AreStarts result }
{
    if at.are_none() {
        starts
    } else {
        starts.with_landmarks(at.into_landmarks())
    }
}

/// The start for the file at `path` that is proposed from the one at `like`, which is read once.
fn starts_like<O: Outside>(
    files: &mut O,
    path: Option<Bytes>,
    patterns: bool,
    like: &Bytes,
) -> Result<Starts, Unfit>
    requires path { HasBytes path }
    ensures given { IfOk result AreStarts }
    ensures proposed { IfOk result (IsProposed path patterns like.now (O.log files.old) (O.log files.new)) }
    ensures only_if_unfit { IfErr result (λ unfit. IsUnfit unfit like.now (O.log files.old) (O.log files.new)) }
{
    match files.read(like.as_slice()) {
        Ok(Answer::Bytes(file)) => {
            if count_lines(file.as_slice()) as u64 <= LineBounds::MOST {
                Ok(Starts::Like(Like {
                    path,
                    patterns,
                    file,
                }))
            } else {
                Err(Unfit::TooLong)
            }
        }
        Ok(Answer::Missing) => Err(Unfit::Absent),
        Ok(Answer::Refused | Answer::Done) => Err(Unfit::Unread),
        Err(AllocError) => Err(Unfit::Memory),
    }
}
