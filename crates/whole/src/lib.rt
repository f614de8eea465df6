//! Files that a run replaces whole: its writes are held back in drafts until it has ended, and then each path is replaced once.
#![tactic(auto)]

mod backup;
mod beside;
mod deed_log;
mod disk;
mod disk_drafts;
mod draft_names;
mod drafting;
mod ending;
mod file_identity;
mod from_front;
mod looking;
mod made_drafts;
mod mem_drafts;
mod outcome;
mod plain_files;
mod planned;
mod seen_deed;
mod taken;
mod whole;
mod written;

pub use disk_drafts::DiskDrafts;
pub use drafting::Drafting;
pub use looking::Lookahead;
pub use mem_drafts::{MemDrafts, Stage};
pub use outcome::{Finished, Outcome};
pub use whole::Whole;
