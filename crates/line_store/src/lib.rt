//! Lines, and stores of them.
#![tactic(auto)]

mod bare_lines;
mod block;
mod blocks;
mod chunk;
mod chunk_room;
mod chunk_starts;
mod chunks;
mod cut_lines;
mod extent;
mod flag_counts;
mod gap;
mod kept;
mod line;
mod marks;
mod run;
mod shared;
mod store;
mod swaps;

pub use bare_lines::BareLines;
pub use block::Block;
pub use chunks::{ChunkLines, ChunkStore};
pub use gap::{GapLines, GapStore};
pub use kept::{PlainStore, Store};
pub use line::Line;
pub use marks::Marks;
pub use shared::{BareLine, FileLines};
pub use store::{LineStore, UncutLines};
