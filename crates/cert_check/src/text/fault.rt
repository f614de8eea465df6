//! Why bytes are no certificate.
ghost use Rattle.std.specs.Prelude.{◌≡◌};
ghost use Rattle.cert_check.specs.declared.text.fault.CertFault.TheVariants.{Memory};
ghost use Rattle.cert_check.specs.declared.text.fault.Unread.TheVariants as unread;
ghost use Rattle.cert_check.specs.text.Pieces.{fault_of};

use crate::text::wanted::Wanted;
use std::alloc::{AllocError, AllocFailed};
use thiserror::Error;

/// Why bytes are not the text of a certificate.
#[derive(Debug, Drop, Error, Clone, Copy, PartialEq, Eq)]
pub enum CertFault {
    /// The first line is that of no version.
    #[error("certificate: version")]
    Version,
    /// The line of this number, counted from 1, may not stand after the lines above it.
    #[error("certificate: line {0}")]
    Line(usize),
    /// The bytes end where a whole line is wanted, or go on after the last line.
    #[error("certificate: size")]
    Size,
    /// An allocation that was refused. It may come in place of any other fault.
    #[error("out of memory")]
    Memory,
}

impl From<AllocError> for CertFault {
    ghost from_gives = { λ _ fault. fault ≡ Memory };

    fn from(_refusal: AllocError) -> CertFault {
        CertFault::Memory
    }
}

impl<T: Drop> From<AllocFailed<T>> for CertFault {
    ghost from_gives = { λ _ fault. fault ≡ Memory };

    fn from(_refusal: AllocFailed<T>) -> CertFault {
        CertFault::Memory
    }
}

/// The same, with what is wanted in place of a line.
#[derive(Debug, Drop, Clone, Copy, PartialEq, Eq)]
pub(crate) enum Unread {
    Version,
    Line(Wanted),
    Size,
    Memory,
}

impl From<Unread> for CertFault {
    ghost from_gives = { λ unread fault. fault ≡ fault_of unread };

    fn from(unread: Unread) -> CertFault {
        match unread {
            Unread::Version => CertFault::Version,
            Unread::Line(wanted) => CertFault::Line(wanted.line),
            Unread::Size => CertFault::Size,
            Unread::Memory => CertFault::Memory,
        }
    }
}

impl From<AllocError> for Unread {
    ghost from_gives = { λ _ fault. fault ≡ unread.Memory };

    fn from(_refusal: AllocError) -> Unread {
        Unread::Memory
    }
}

impl<T: Drop> From<AllocFailed<T>> for Unread {
    ghost from_gives = { λ _ fault. fault ≡ unread.Memory };

    fn from(_refusal: AllocFailed<T>) -> Unread {
        Unread::Memory
    }
}
