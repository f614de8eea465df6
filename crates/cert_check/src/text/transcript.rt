//! Bytes that only clauses read.

ghost use Rattle.std.specs.Prelude.{◌≡◌, ◌++◌, [], ℕ, List};
ghost use Rattle.std.specs.Borrow.{ftrue};

use std::marker::{Model, PhantomData};

/// The bytes that were noted, for clauses alone: it takes no memory and no time. With one, a writer that may lose bytes still says in
/// its contract which text it was given.
#[derive(Drop)]
pub struct Transcript {
    marker: PhantomData<u8>,
    pub ghost bytes: { List ℕ },
}

impl Model for Transcript {
    ghost also_owns = { λ _. ftrue };
}

impl Transcript {
    /// That nothing was noted yet.
    pub fn new() -> Transcript
        ensures value { result.bytes ≡ [] }
    {
        Transcript {
            marker: PhantomData,
        }
    }

    /// Notes these bytes.
    pub fn note(&mut self, _bytes: &[u8])
        ensures appended { self.new.bytes ≡ self.old.bytes ++ _bytes.now }
    {}
}
