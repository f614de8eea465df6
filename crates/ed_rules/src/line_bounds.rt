//! Bounds on a number of lines.

ghost use Rattle.std.specs.Prelude.{◌≡◌, ◌&&◌, IsTrue, ◌↔◌};
ghost use Rattle.ed_rules.specs.LineBounds.{is_few, is_limit, is_within, IsAtMost, IsWithin};

/// Bounds on a number of lines: at least `min` and, where there is one, at most `max`.
#[derive(Clone, Copy, PartialEq, Eq, Debug)]
pub struct LineBounds {
    pub min: u64,
    pub max: Option<u64>,
}

impl LineBounds {
    /// The most lines that a certificate tells of.
    pub const MOST: u64 = 1_000_000_000_000;

    /// Whether a file of so many lines is within them.
    pub fn has(self, lines: u64) -> bool
        ensures exact { IsTrue result ↔ IsWithin self.min self.max lines }
    {
        self.min <= lines && is_within(lines, self.max)
    }

    /// Whether some number of lines is within them.
    pub fn in_order(self) -> bool
        ensures value { result ≡ is_within self.min self.max }
    {
        is_within(self.min, self.max)
    }

    /// Whether a certificate may tell of them.
    pub fn are_few(self) -> bool
        ensures value { result ≡ (is_few self.min && is_limit self.max) }
    {
        self.min <= LineBounds::MOST
            && match self.max {
                Some(max) => max <= LineBounds::MOST,
                None => true,
            }
    }
}

fn is_within(lines: u64, max: Option<u64>) -> bool
    ensures value { result ≡ is_within lines max }
    ensures exact { IsTrue result ↔ IsAtMost lines max }
{
    match max {
        Some(max) => lines <= max,
        None => true,
    }
}
