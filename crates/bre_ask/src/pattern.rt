//! Reads a pattern.

use bre_parse::Bre;
use bre_parse::fault::BreFault;
use std::alloc::{AllocError, Global};

/// The pattern, if the bytes are one.
pub(crate) fn read(alloc: Global, bytes: &[u8]) -> Result<Option<Bre>, AllocError> {
    match Bre::read(alloc, bytes) {
        Ok(pattern) => Ok(Some(pattern)),
        Err(BreFault::Memory) => Err(AllocError),
        Err(_) => Ok(None),
    }
}
