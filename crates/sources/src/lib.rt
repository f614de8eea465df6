//! Sources of bytes, and reading all of one up to a limit.
#![tactic(auto)]

mod source;

pub use source::{In, ReadFault, Source, SourceFault, read_all};
