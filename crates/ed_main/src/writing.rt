//! When the writes of a run are made.
ghost use Rattle.std.specs.Prelude.{◌≡◌};
ghost use Rattle.ed_main.specs.Words.{writing_of};

use crate::suffix::Suffix;

/// When the writes of a run are made. Where they spare files, one that has the bytes already that it is given is left alone.
#[derive(Debug, Drop)]
pub enum Writing {
    /// Each when it is asked for.
    AtOnce {
        spares: bool,
    },
    /// When the run has ended, each path once: files are replaced whole, and spared. Where there is a suffix, the old ones are kept under
    /// their names with it.
    AtTheEnd {
        suffix: Option<Suffix>,
    },
    /// Never: the run is rehearsed, by what files allow that are to be replaced whole, and kept under their names with this suffix if there
    /// is one, or that are to be written in place. What would change may be shown.
    Never {
        whole: bool,
        spares: bool,
        shows: bool,
        suffix: Option<Suffix>,
    },
}

impl Writing {
    /// When they are made where a run may be asked to be rehearsed, its files to be replaced whole, or to be spared, and what would change to be
    /// shown, and a suffix may be given for the old ones. One that is rehearsed writes none.
    pub fn of(
        rehearsed: bool,
        whole: bool,
        spares: bool,
        shows: bool,
        suffix: Option<Suffix>,
    ) -> Writing
        ensures value { result ≡ writing_of rehearsed whole spares shows suffix }
    {
        match (rehearsed, whole) {
            (true, _) => Writing::Never {
                whole,
                spares,
                shows,
                suffix,
            },
            (false, true) => Writing::AtTheEnd { suffix },
            (false, false) => Writing::AtOnce { spares },
        }
    }
}
