//! An editor over any store of lines: one command at a time.
#![tactic(auto)]

mod editor;
mod substitution;

pub use editor::{Begun, Editor, Reply};
pub use substitution::substitute;
