//! An answer as a log of files in memory keeps it.

/// An answer of files in memory, whose bytes stand in the file that was read and aren't kept twice.
#[derive(Clone, Copy, Drop)]
pub(crate) enum KeptAnswer {
    /// The bytes of the file at this place, counted from the oldest file, which is at 1.
    File(usize),
    Missing,
    Refused,
    Done,
}
