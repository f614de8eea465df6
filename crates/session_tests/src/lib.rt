//! Tests of runs: sessions that are driven.
#![tactic(auto)]

#[cfg(test)]
mod asserting;
#[cfg(test)]
mod disk;
#[cfg(test)]
mod driving;
#[cfg(test)]
mod files;
#[cfg(test)]
mod globals;
#[cfg(test)]
mod listing;
#[cfg(test)]
mod reading_all;
#[cfg(test)]
mod refusals;
#[cfg(test)]
mod refused_in_turn;
#[cfg(test)]
mod replacing;
#[cfg(test)]
mod runs;
#[cfg(test)]
mod searches;
#[cfg(test)]
mod stepping;
