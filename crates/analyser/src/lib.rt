//! The analyser: makes the certificate that a script can't fail, or tells the first need that fails.
#![tactic(auto)]

mod analysing;
mod analysis;
mod bounds;
mod fact_texts;
mod judging;
mod laws;
mod passing;
mod paths;
mod rounds;
mod texts;
mod walk;
mod wanting;

pub use analysing::analyse;
pub use analysis::{Analysis, Start};
pub use judging::{Failure, first_failure};
pub use laws::{answers_are_determined, exact_scripts_are_foretold};
pub use wanting::wants;
