//! What people write in a script of `ed` and hardly mean, by its text alone.
#![tactic(auto)]

mod backward;
mod cutting;
mod diffs;
mod emptied;
mod finding;
mod parts;
mod patterns;
mod ranges;
mod remarking;
mod shown;
mod slip;
mod unwritten;

pub use remarking::remarks;
pub use slip::{Remarked, Slip};
