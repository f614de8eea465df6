//! Lines of bytes, faults, and numbers as digits.
#![tactic(auto)]

mod bytes;
mod fault;
mod letter;
mod lines;
mod member;
mod newlines;
mod numbers;
mod part;
mod pieces;
mod sorted;
mod text;
mod walk;

pub use bytes::Bytes;
pub use fault::Fault;
pub use letter::{Letter, letters_are_counted, marking_keeps_letters};
pub use lines::{
    bytes_hold_their_lines, count_lines, join_lines, lines_are_cut_at_newlines, next_line,
    split_lines, written_lines_are_read_back,
};
pub use member::Member;
pub use numbers::push_number;
pub use pieces::Pieces;
pub use sorted::{Sorted, Texts, do_rise};
pub use text::Text;
pub use walk::Walk;
