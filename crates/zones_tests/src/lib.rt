//! Tests of the public calls of `zones`.
#![tactic(auto)]

#[cfg(test)]
mod kept_zones;
#[cfg(test)]
mod rows;
#[cfg(test)]
mod steps;
