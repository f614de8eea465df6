//! What is added to a file's name for that of its backup.
ghost use Rattle.std.specs.Prelude.{◌≡◌, string_bytes, IfOk};

use std::alloc::{AllocError, Global};
use std::marker::Model;

/// What is added to a file's name for that of its backup.
#[derive(Debug, Drop)]
pub struct Suffix {
    text: String,
}

impl Model for Suffix {
    ghost use Rattle.std.specs.Prelude.{ℕ, List, string_bytes};

    ghost Value = { List ℕ };

    ghost view = { λ suffix. string_bytes suffix.text };
}

impl Suffix {
    pub fn of(alloc: Global, text: &str) -> Result<Suffix, AllocError>
        ensures value { IfOk result (λ suffix. suffix ≡ text.now) }
    {
        Ok(Suffix {
            text: String::from_str(alloc, text)?,
        })
    }

    /// The suffix as a text. It takes no memory.
    pub fn into_text(self) -> String
        ensures value { string_bytes result ≡ self }
    {
        self.text
    }
}
