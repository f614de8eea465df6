//! Tests of the public calls of `landmarks`.
#![tactic(auto)]

#[cfg(test)]
mod chains;
#[cfg(test)]
mod placing;
#[cfg(test)]
mod refused;
#[cfg(test)]
mod sets;
#[cfg(test)]
mod spelling;
#[cfg(test)]
mod starting;
#[cfg(test)]
mod written;
#[cfg(test)]
mod wrong;
