//! A rehearsal: a run over the files that are there, in which nothing is written.
#![tactic(auto)]

mod fetching;
mod held_write;
mod rehearsal;
#[cfg(test)]
mod tests;

pub use held_write::HeldWrite;
pub use rehearsal::Rehearsal;
