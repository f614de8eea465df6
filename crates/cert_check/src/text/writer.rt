//! What takes a certificate's text, piece by piece.

ghost use Rattle.std.specs.Prelude.{◌≡◌, ◌++◌, ◌∷◌, [], ℕ, List};

/// What takes a text as it is made. Neither call fails: a writer that can't take some bytes notes that, and whoever made it asks at the
/// end.
pub trait TextWriter {
    /// The bytes that it was given so far.
    ghost written: { Self → List ℕ };

    /// Takes one byte.
    fn push(&mut self, byte: u8)
        ensures appended { written self.new ≡ written self.old ++ byte ∷ [] };

    /// Takes these bytes.
    fn extend(&mut self, bytes: &[u8])
        ensures appended { written self.new ≡ written self.old ++ bytes.now };
}
