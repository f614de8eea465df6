//! Tests of the program's calls, over files and an output in memory.
#![tactic(auto)]

#[cfg(test)]
mod again;
#[cfg(test)]
mod asserting;
#[cfg(test)]
mod calling;
#[cfg(test)]
mod certificates;
#[cfg(test)]
mod checking;
#[cfg(test)]
mod edits;
#[cfg(test)]
mod explaining;
#[cfg(test)]
mod fitting;
#[cfg(test)]
mod found;
#[cfg(test)]
mod judging;
#[cfg(test)]
mod landmarked;
#[cfg(test)]
mod like;
#[cfg(test)]
mod runs;
#[cfg(test)]
mod told;
#[cfg(test)]
mod vouching;
