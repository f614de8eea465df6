//! Tests of writes that are held back until a run has ended.
#![tactic(auto)]

#[cfg(test)]
mod asserting;
#[cfg(test)]
mod disk;
#[cfg(test)]
mod keeping;
#[cfg(test)]
mod memory;
