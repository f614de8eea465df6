//! Whether standard output is shown to a person.

use std::io::IsTerminal;

/// What knows where its standard output goes.
pub trait Screen {
    /// Whether it goes to a terminal.
    fn is_screen(&self) -> bool;
}

impl Screen for HostRuntime {
    fn is_screen(&self) -> bool {
        self.stdout().is_terminal()
    }
}
