//! Unified diffs of two files.
#![tactic(auto)]

mod change;
mod changing;
mod cutting;
mod hunks;
mod naming;
mod same;
mod search;
mod sign;
mod unified;
mod writing;

pub use sign::Sign;
pub use unified::write_unified;
