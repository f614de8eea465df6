//! Bounds on the differences of 32 named whole numbers, by steps that are exact and sound.
#![tactic(auto)]

mod entry;
mod kept_entry;
mod kept_zone;
mod known_entries;
mod laws;
mod name;
mod number;
mod reach;
mod table;
mod two_tables;
mod wide;
mod zone;

pub use kept_entry::KeptEntry;
pub use kept_zone::KeptZone;
pub use known_entries::BOUNDS_OF_THREE_NAMES;
pub use laws::{
    bounds_are_formulas, covering_is_an_order, covering_is_weaker, differences_obey_sums,
    fixed_names_stay_fixed, isolated_names_stay_isolated, known_bounds_are_the_zone,
    known_bounds_are_true, known_differences_stay_known, numbers_are_updated,
    offsets_may_be_clamped, room_falls, steps_are_formulas, steps_are_sound,
    steps_keep_diagonals_low, steps_keep_to_the_clip,
};
pub use name::Name;
pub use number::{LIMIT, clamped};
pub use zone::Zone;
