//! Scripts of `ed`: their commands, what they mean, and what they ask of the outside.
#![tactic(auto)]

mod addresses;
mod command;
mod comparing;
mod ends;
mod flags;
mod front;
mod globals;
mod heading;
mod laws;
mod list_spans;
mod naming;
mod offsets;
mod options;
mod paths;
mod pattern;
mod quoting;
mod reading;
mod replacement;
mod request;
mod script;
mod script_lines;
mod single;
mod spans;
mod spelling;
mod substitution;
mod text_places;
mod tokens;
mod verbs;

pub use command::{Address, Addresses, Base, Command, Form, Sense, Verb};
pub use ends::{addresses_end, pattern_end};
pub use front::{address, number, pattern_at};
pub use laws::{
    answers_are_asked_for, commands_are_placed, commands_keep_lines, commands_keep_marks,
    cut_runs_write_a_front, files_have_lines, flags_change_no_line, listed_commands_leave_undo,
    lists_add_no_flags, lists_note_changes, runs_end_for_a_cause, spelled_scripts_are_readable,
    unnamed_letters_change_nothing,
};
pub use list_spans::list_places;
pub use options::{Ending, Options};
pub use pattern::Pattern;
pub use quoting::Parsed;
pub use reading::read_script;
pub use replacement::{MatchNumber, Part, Replacement, Which};
pub use request::{Answer, Request};
pub use script::Script;
pub use spans::{Span, places};
pub use spelling::scripts_are_read_as_spelled;
pub use text_places::{TextPlace, text_place};
pub use tokens::after_blanks;
pub use verbs::{Alteration, DefaultAddresses, Ends, Takes, Taking};
