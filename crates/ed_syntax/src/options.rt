//! How a run is started, and how it ends without a fault.

use ed_base::Bytes;

/// How a run is started (XCU ed, "Options", "Operands").
#[derive(Debug, PartialEq, Eq, Drop)]
pub struct Options {
    /// Suppresses the counts of bytes, as `-s` does.
    pub silent: bool,
    /// Prompting is on, with this prompt, as by `-p`. With none it is off.
    pub prompt: Option<Bytes>,
    /// The path of the file that is edited.
    pub path: Option<Bytes>,
}

/// How a run ended without a fault.
#[derive(Clone, Copy, Debug, PartialEq, Eq)]
pub struct Ending {
    /// The number of lines in the buffer.
    pub lines: usize,
}
