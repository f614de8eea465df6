//! Landmarks: lines of a file that a start condition names, and where they are.
#![tactic(auto)]

mod chain;
mod chain_fault;
mod key_text;
mod landmark;
mod landmark_chain;
mod landmark_chains;
mod laws;
mod looking;
mod misplaced;
mod never;
mod parts;
mod places;
mod quoting;
mod sameness;
mod starting;
mod which;
mod words;
mod writing;

pub use chain::read_chain;
pub use chain_fault::{ChainFault, ChainWrong, Never};
pub use landmark::Landmark;
pub use landmark_chain::LandmarkChain;
pub use landmark_chains::LandmarkChains;
pub use laws::{
    chains_are_spelled_once, landmarks_are_where_they_are_said, landmarks_have_one_place,
};
pub use misplaced::{Misfit, Misplaced};
pub use places::{Placing, find_places};
pub use starting::know_landmarks;
pub use which::Which;
pub use writing::write_chain;
