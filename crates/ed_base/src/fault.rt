//! The faults that end a run, with their texts and exit statuses.
ghost use Rattle.std.specs.Prelude.{◌≡◌};
ghost use Rattle.ed_base.specs.Fault.{status_of, text_of};
ghost use Rattle.ed_base.specs.declared.fault.Fault.TheVariants.{Memory};

use std::alloc::{AllocError, AllocFailed};

/// Why a run stopped. The standard leaves the texts and the statuses above 0 to the program.
#[derive(Clone, Copy, Debug, PartialEq, Eq)]
pub enum Fault {
    /// The script's next lines spell no command.
    Syntax,
    /// A line that isn't in the buffer, line 0 where none may be named, or a second address before the first.
    Address,
    /// A letter that marks no line.
    Mark,
    /// An empty pattern while none is remembered.
    Pattern,
    /// A search or a substitution that finds no line.
    NoMatch,
    /// Lines moved into themselves.
    Destination,
    /// No path given while none is remembered.
    Name,
    /// The buffer would be lost with changes that weren't written.
    Unsaved,
    /// Undo where nothing is kept that it could bring back.
    Undo,
    /// The replacement `%` while none is remembered.
    Replacement,
    /// A file that couldn't be read or written.
    File,
    /// A writer that didn't take the output.
    Output,
    /// An allocation that was refused. It may come in place of any other fault.
    Memory,
}

impl Fault {
    /// What help mode writes of it, without a newline.
    pub fn text(self) -> &'static str
        ensures value { result.now ≡ text_of self }
    {
        match self {
            Fault::Syntax => "invalid command",
            Fault::Address => "invalid address",
            Fault::Mark => "mark not set",
            Fault::Pattern => "no previous pattern",
            Fault::NoMatch => "no match",
            Fault::Destination => "invalid destination",
            Fault::Name => "no current file name",
            Fault::Unsaved => "buffer modified",
            Fault::Undo => "nothing to undo",
            Fault::Replacement => "invalid replacement",
            Fault::File => "file refused",
            Fault::Output => "output refused",
            Fault::Memory => "out of memory",
        }
    }

    /// The exit status of a run that it ends: 1 for the script's own faults, 2 and 3 for its surroundings'.
    pub fn status(self) -> u8
        ensures value { result ≡ status_of self }
    {
        match self {
            Fault::Memory => 2,
            Fault::File | Fault::Output => 3,
            _ => 1,
        }
    }
}

impl From<AllocError> for Fault {
    ghost from_gives = { λ _ fault. fault ≡ Memory };

    fn from(_refusal: AllocError) -> Fault {
        Fault::Memory
    }
}

impl<T: Drop> From<AllocFailed<T>> for Fault {
    ghost from_gives = { λ _ fault. fault ≡ Memory };

    fn from(_refusal: AllocFailed<T>) -> Fault {
        Fault::Memory
    }
}
