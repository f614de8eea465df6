//! Tests of the public calls of the editor's crates below sessions.
#![tactic(auto)]

#[cfg(test)]
mod applying;
#[cfg(test)]
mod asserting;
#[cfg(test)]
mod blocks;
#[cfg(test)]
mod bytes;
#[cfg(test)]
mod commands;
#[cfg(test)]
mod editors;
#[cfg(test)]
mod expected;
#[cfg(test)]
mod failing;
#[cfg(test)]
mod pieces;
#[cfg(test)]
mod places;
#[cfg(test)]
mod scripts;
#[cfg(test)]
mod stores;
#[cfg(test)]
mod substitutions;
#[cfg(test)]
mod uncut;
#[cfg(test)]
mod undoing;
#[cfg(test)]
mod written;
