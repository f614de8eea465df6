//! What a certificate says of a script.

use ed_base::Bytes;
use ed_rules::{KeptState, Texts};
use landmarks::LandmarkChain;

/// What is known of a global command's list: at its start for each line, and before each of its commands.
#[derive(Debug, Drop)]
pub struct Looped {
    /// What is known at every turn: before the list is run for the first line, and after each run of it.
    pub invariant: KeptState,
    /// What is known before each command of the list, in their order.
    pub inner: Vec<KeptState>,
}

/// What is known of the editor before a command, and, where that is a global command, of its list.
#[derive(Debug, Drop)]
pub struct Note {
    pub state: KeptState,
    /// It stands elsewhere in memory, since most commands have none and a script has as many notes as commands.
    pub looped: Option<Box<Looped>>,
}

/// The version of a certificate: what it tells of lines beside their number.
#[derive(Clone, Copy, PartialEq, Eq, Debug)]
pub enum Version {
    /// It tells nothing.
    One,
    /// It tells of patterns that some line matches.
    Two,
    /// It tells of them, names lines of the start, and tells of single lines what they match.
    Three,
}

/// What a certificate says: the file that a run starts with, how long it may be and what some of its lines match, what is known before
/// each counted command and at the end, how many lines are left then, and which files may be written.
#[derive(Debug, Drop)]
pub struct Certificate {
    pub version: Version,
    /// The path of the start file; with none the buffer is empty.
    pub path: Option<Bytes>,
    /// The fewest lines that the start may have.
    pub min: u64,
    /// The most lines that the start may have; with none there is no limit.
    pub max: Option<u64>,
    /// The patterns that some line of the start matches; in version 1 they don't count.
    pub has: Texts,
    /// Chains of landmarks that the start has; in versions 1 and 2 they don't count.
    pub landmarks: Vec<LandmarkChain>,
    /// One for each counted command, in their order.
    pub notes: Vec<Note>,
    /// What is known at the end.
    pub last: KeptState,
    /// The fewest lines at the end.
    pub low: u64,
    /// The most lines at the end; with none there is no limit.
    pub high: Option<u64>,
    /// The paths that the script may write.
    pub writes: Vec<Bytes>,
}
