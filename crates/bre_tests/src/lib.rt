//! Tests of the public calls of `bre_parse` and `bre_match`.
#![tactic(auto)]

#[cfg(test)]
mod matching;
#[cfg(test)]
mod passing;
#[cfg(test)]
mod reading;
#[cfg(test)]
mod replacing;
#[cfg(test)]
mod resuming;
#[cfg(test)]
mod searching;
#[cfg(test)]
mod starting;
#[cfg(test)]
mod witnesses;
