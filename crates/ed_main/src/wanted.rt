//! The start that a script is to be judged over, as it is asked for.
ghost use Rattle.std.specs.Prelude.{◌≡◌};
ghost use Rattle.ed_main.specs.Wanted.{wanted_path};

use crate::chains::Chains;
use ed_base::Bytes;
use ed_calls::Starts;

/// The start that a script is to be judged over.
#[derive(Debug, Drop)]
pub enum Wanted {
    /// This one, or the widest one of what is given of it, with these landmarks, where there are any.
    Stated(Starts, Chains),
    /// One for the file at `path` that is proposed from the file at `like`, and tells of patterns if `patterns` is true.
    Like {
        path: Option<Bytes>,
        patterns: bool,
        like: Bytes,
    },
}

impl Wanted {
    /// The path of the start file; with none the buffer is empty.
    pub fn path(&self) -> &Option<Bytes>
        ensures value { result.now ≡ wanted_path self.now }
    {
        match self {
            Wanted::Stated(starts, _) => starts.path(),
            Wanted::Like { path, .. } => path,
        }
    }
}
