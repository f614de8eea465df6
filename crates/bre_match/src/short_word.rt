//! A word of a few bytes, which takes no memory, and by which places are passed over.

ghost use Rattle.std.specs.Prelude.{◌≤◌};

// A longer word tells hardly more, and this one takes no memory.
const LONGEST: usize = 16;

/// A word of a few bytes. It takes no memory.
#[derive(Clone, Copy)]
pub struct Word {
    bytes: [u8; 16],
    size: usize,
    ghost fits: { size ≤ 16 },
}

impl Word {
    ghost use Rattle.std.specs.Prelude.{◌≡◌, ◌<◌, ◌∷◌, [], ◌++◌, nat_eq};
    ghost use Rattle.bre_match.specs.Passing.{word_bytes};

    pub(crate) fn empty() -> Self
        ensures value { word_bytes result ≡ [] }
    {
        Word {
            bytes: [0; 16],
            size: 0,
        }
    }

    pub(crate) fn as_slice(&self) -> &[u8]
        ensures value { result.now ≡ word_bytes self.now }
    {
        &self.bytes[..self.size]
    }

    /// Whether no byte more fits.
    pub(crate) fn is_full(&self) -> bool
        ensures value { result ≡ nat_eq self.now.size 16 }
    {
        self.size == LONGEST
    }

    pub(crate) fn push(&mut self, byte: u8)
        requires room { self.old.size < 16 }
        ensures pushed { word_bytes self.new ≡ word_bytes self.old ++ byte ∷ [] }
    {
        self.bytes[self.size] = byte;
        self.size += 1;
    }

    /// How much of a text it passes over, by a guess: a longer word more than a shorter one, and one byte the more the rarer it is.
    pub(crate) fn worth(&self) -> usize {
        if self.size == 1 {
            return rarity(self.bytes[0]);
        }
        self.size * 5
    }
}

/// How rare a byte is in texts, by a guess, from 1 to 6.
fn rarity(byte: u8) -> usize {
    match byte {
        b' ' => 1,
        b'e' | b't' | b'a' | b'o' | b'i' | b'n' | b's' | b'r' => 2,
        b'h' | b'l' | b'd' | b'c' | b'u' | b'm' | b'f' | b'p' | b'g' => 3,
        b'y' | b'b' | b'v' | b'w' => 4,
        b'k' | b'x' | b'j' | b'q' | b'z' => 5,
        _ => 6,
    }
}
