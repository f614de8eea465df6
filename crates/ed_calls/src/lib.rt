//! The program's calls: a script is run, vouched for, judged, explained, checked, or run by its certificate, over any files and any output; a
//! start is tested.
#![tactic(auto)]

mod checking;
mod editing;
mod explaining;
mod fitting;
mod gathered;
mod held_writes;
mod judgement;
mod judging;
mod known;
mod landmarked;
mod laws;
mod names;
mod placed;
mod places;
mod running;
mod starts;
mod stated;
mod stderr;
mod told;
mod vouched;
mod vouching;

pub use checking::check_text;
pub use editing::edit;
pub use explaining::{explain_certificate, explain_script};
pub use fitting::fit;
pub use held_writes::show_held;
pub use judgement::{Detail, judge_text};
pub use known::{Change, Known};
pub use landmarked::{TooFewLetters, too_few_letters};
pub use laws::accepted_runs_end_well;
pub use running::{Ran, run, run_checked};
pub use starts::Starts;
pub use stderr::aside::Aside;
pub use stderr::command_line::quoted;
pub use stderr::file_name::{is_named_as_script, quoted_word};
pub use stderr::pattern::wrong_in_pattern;
pub use stderr::refusals::{
    Explains, Watched, show_absent, show_input, show_memory, show_missing, show_output,
    show_too_long, show_unjudged, show_unread, show_unwritten,
};
pub use stderr::shown::shown_lines;
pub use stderr::unput::show_unput;
pub use vouched::edit_vouched;
pub use vouching::vouch_text;
