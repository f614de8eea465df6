//! The rules of the verifier: what is known of an editor's state before and after each command.
#![tactic(auto)]

mod addresses;
mod change;
mod choices;
mod fact_laws;
mod facts_after;
mod files;
mod following;
mod globals;
mod kept;
mod kept_undo;
mod known_matches;
mod laws;
mod line_bounds;
mod line_facts;
mod lines;
mod marks;
mod matched;
mod matching;
mod moves;
mod order;
mod pieces;
mod rules;
mod state;
mod substituted_marks;
mod substitution;
mod undoing;
mod watch;

pub use choices::Choices;
pub use ed_base::Texts;
pub use fact_laws::{
    assigned_facts_are_true, carried_facts_are_true, edited_facts_are_true,
    facts_are_left_by_commands, facts_go_by_bytes, joined_facts_are_covered,
    only_lines_are_taken_once, rewritten_lines_are_as_told, searches_find_the_first,
    searches_find_what_facts_say, substituted_facts_are_true, weaker_facts_hold_more,
    what_facts_say_is_true,
};
pub use globals::{body_entry, loop_end, loop_start, once_entry};
pub use kept::KeptState;
pub use kept_undo::{KeptOld, KeptUndo};
pub use known_matches::Matches;
pub use laws::{
    commands_are_sound, exact_commands_are_exact, globals_are_sound, joined_states_are_covered,
    matches_stay_formed, needs_are_the_same_whatever_is_watched, searches_are_as_before,
    states_stay_formed, substitutions_are_as_before, weaker_states_stand_for_more,
};
pub use line_bounds::LineBounds;
pub use line_facts::{
    ClearStretch, KnownLine, LineFacts, assign, edge_of, is_witnessed, move_by, search_backward,
    search_forward,
};
pub use marks::Marks;
pub use matched::some_line_matches;
pub use rules::{after, needs, outcome_into};
pub use state::{Changed, Old, Replacements, State, Undo};
pub use watch::Watch;
