//! Why a text spells no chain of landmarks.

ghost use Rattle.std.specs.Prelude.{◌≡◌};
ghost use Rattle.landmarks.specs.declared.chain_fault.Stop.TheVariants.{Memory};

use bre_parse::fault::BreFault;
use ed_base::Bytes;
use std::alloc::{AllocError, AllocFailed};

/// Why no line can be a landmark, as far as its words show that.
#[derive(Debug, PartialEq, Eq, Drop)]
pub enum Never {
    /// It would match this pattern and not match it.
    Both(Bytes),
    /// It would not match this pattern, which each line matches.
    Always(Bytes),
    /// It is further down than right below the landmark before it, and the lines between would not match this pattern, which each line matches.
    RightBelow(Bytes),
}

/// What is wrong at a place of the text.
#[derive(Debug, PartialEq, Eq, Drop)]
pub enum ChainWrong {
    /// A newline stands here: a chain is one line.
    Newline,
    /// A pattern begins here that doesn't end with its delimiter.
    Unclosed,
    /// An empty pattern begins here.
    Empty,
    /// A pattern begins here that is none, for this reason.
    Pattern(BreFault),
    /// A number from 1 to 999999999 should stand here.
    Number,
    /// A pattern between slashes should stand here.
    Key,
    /// The landmark should end here, or `gap`, `tail` or `&` should go on with it.
    End,
    /// A landmark begins here that no line can be.
    Never(Never),
}

/// The first fault of a text, from the left, or want of memory.
#[derive(Debug, PartialEq, Eq, Drop)]
pub enum ChainFault {
    /// What is wrong from a place on, which is counted in bytes from 0 and lies within the text or at its end.
    Wrong(usize, ChainWrong),
    /// An allocation was refused. The text may be right or wrong.
    Memory,
}

/// Why a reader of a part stopped: what is wrong, with how many bytes are left there, or want of memory.
#[derive(Debug, PartialEq, Eq, Drop)]
pub enum Stop {
    Wrong(ChainWrong, usize),
    Memory,
}

impl From<AllocError> for Stop {
    ghost from_gives = { λ _ stop. stop ≡ Memory };

    fn from(_error: AllocError) -> Stop {
        Stop::Memory
    }
}

impl<T: Drop> From<AllocFailed<T>> for Stop {
    ghost from_gives = { λ _ stop. stop ≡ Memory };

    fn from(_error: AllocFailed<T>) -> Stop {
        Stop::Memory
    }
}
