//! What the program is to do.
ghost use Rattle.std.specs.Prelude.{◌≡◌};
ghost use Rattle.std.specs.Option.{option_copied};
ghost use Rattle.ed_main.specs.Meant.{judged_file};
ghost use Rattle.ed_main.specs.Program.{script_named, wants_input};

use crate::paths::Paths;
use crate::wanted::Wanted;
use crate::writing::Writing;
use ed_base::Bytes;
use ed_calls::Detail;
use ed_syntax::Options;

/// What the program is to do. A script comes from the file at the path `script`, or without one from standard input.
#[derive(Debug, Drop)]
pub enum Job {
    /// To run a script on a file, or to rehearse that; where `judged` has a start, only if the script is vouched for over it and the file fits.
    Edit {
        options: Options,
        script: Option<Bytes>,
        writing: Writing,
        judged: Option<Wanted>,
    },
    /// To make a script's certificate for a start that is given or found, or to show its first refusal, or all of them.
    Vouch {
        wanted: Wanted,
        script: Option<Bytes>,
        all: bool,
    },
    /// To judge the scripts in the files at these paths, or where there is none the one on standard input, without their certificates, and to tell
    /// a person so much of those that aren't vouched for.
    Judge {
        wanted: Wanted,
        scripts: Paths,
        detail: Detail,
    },
    /// To explain a script over a start that is given or found.
    Explain {
        wanted: Wanted,
        script: Option<Bytes>,
    },
    /// To explain a script by the certificate at a path.
    ExplainBy {
        certificate: Bytes,
        script: Option<Bytes>,
    },
    /// To check the certificate at a path for a script.
    Check {
        certificate: Bytes,
        script: Option<Bytes>,
    },
    /// To run a script on a file if the certificate at this path allows it, or to rehearse that.
    Run {
        certificate: Bytes,
        options: Options,
        script: Option<Bytes>,
        writing: Writing,
    },
    /// To tell whether the file at a path is one that the certificate at another path allows.
    Fits {
        certificate: Bytes,
        path: Option<Bytes>,
    },
}

impl Job {
    /// The path of the file that the script is read from, where one is named for it alone.
    pub fn script(&self) -> Option<&Bytes>
        ensures value { option_copied result ≡ script_named self.now }
    {
        match self {
            Job::Edit { script, .. }
            | Job::Vouch { script, .. }
            | Job::Explain { script, .. }
            | Job::ExplainBy { script, .. }
            | Job::Check { script, .. }
            | Job::Run { script, .. } => script.as_ref(),
            Job::Judge { .. } | Job::Fits { .. } => None,
        }
    }

    /// Whether a person is told nothing, whatever comes of it.
    pub fn is_quiet(&self) -> bool {
        matches!(
            self,
            Job::Judge {
                detail: Detail::Nothing,
                ..
            }
        )
    }

    /// The path of the file for which a script is judged that is read from standard input.
    pub fn judged_file(&self) -> Option<&Bytes>
        ensures value { option_copied result ≡ judged_file self.now }
    {
        match self {
            Job::Edit {
                options,
                script: None,
                judged: Some(_),
                ..
            } => options.path.as_ref(),
            Job::Vouch {
                wanted,
                script: None,
                ..
            } => wanted.path().as_ref(),
            Job::Judge {
                wanted,
                scripts,
                ..
            } if scripts.are_none() => wanted.path().as_ref(),
            _ => None,
        }
    }

    /// Whether the script is read from standard input.
    pub fn wants_input(&self) -> bool
        ensures value { result ≡ wants_input self.now }
    {
        match self {
            Job::Edit { script, .. }
            | Job::Vouch { script, .. }
            | Job::Explain { script, .. }
            | Job::ExplainBy { script, .. }
            | Job::Check { script, .. }
            | Job::Run { script, .. } => script.is_none(),
            Job::Judge { scripts, .. } => scripts.are_none(),
            Job::Fits { .. } => false,
        }
    }
}
