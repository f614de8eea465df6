//! Paths in their order, as words give them.
ghost use Rattle.std.specs.Prelude.{◌≡◌, ◌++◌, ◌∷◌, [], OnOk};
ghost use Rattle.ed_main.specs.Several.{names_none};

use ed_base::Bytes;
use std::alloc::{AllocError, Global};
use std::marker::Model;

/// Paths in their order, of which some may be equal.
#[derive(Debug, Drop)]
pub struct Paths {
    members: Vec<Bytes>,
}

impl Model for Paths {
    ghost use Rattle.std.specs.Prelude.{ℕ, List};

    ghost Value = { List (List ℕ) };

    ghost view = { λ paths. paths.members.items };
}

impl Paths {
    /// No path so far.
    pub fn none(alloc: Global) -> Paths
        ensures value { result ≡ [] }
    {
        Paths {
            members: Vec::new(alloc),
        }
    }

    /// Puts a path after the others.
    pub fn add(&mut self, path: &str) -> Result<(), AllocError>
        ensures value { OnOk result (self.new ≡ self.old ++ path.now ∷ []) }
    {
        let alloc = *self.members.allocator();
        let path = Bytes::from_slice(alloc, path.as_bytes())?;
        self.members.push(path)?;
        Ok(())
    }

    pub fn as_slice(&self) -> &[Bytes]
        ensures value { result.now ≡ self.now }
    {
        self.members.as_slice()
    }

    /// Whether there is no path.
    pub fn are_none(&self) -> bool
        ensures value { result ≡ names_none self.now }
    {
        self.members.is_empty()
    }
}
