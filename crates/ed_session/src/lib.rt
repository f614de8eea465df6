//! Runs of scripts: an editor over any store of lines, sessions, and the loop that drives one to its end.
#![tactic(auto)]

mod agenda;
mod chunks;
mod counts;
mod disk_files;
mod driving;
mod file_places;
mod file_stamp;
mod folders;
mod found_files;
mod giving;
mod kept;
mod mem_files;
mod mem_sink;
mod modes;
mod outside;
mod overwriting;
mod phase;
mod reports;
mod seen;
mod session;
mod sink;

pub use disk_files::DiskFiles;
pub use driving::drive;
pub use file_stamp::FileStamp;
pub use folders::{folder_of, sync_folder};
pub use mem_files::MemFiles;
pub use mem_sink::MemSink;
pub use outside::Outside;
pub use session::{Ask, Session};
pub use sink::{Out, Sink, SinkFault, give, give_pieces};
