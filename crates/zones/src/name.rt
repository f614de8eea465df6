//! The names whose numbers a zone compares.

ghost use Rattle.std.specs.Prelude.{◌≡◌, ◌<◌, IfSome, IfNone, [], ◌∷◌};
ghost use Rattle.zones.specs.Name.{zero, current_line, last_line, first_address, second_address, target_address, mark};

use ed_base::Letter;
use std::marker::Model;

/// What a number of an editor's state is called: zero, the current line, the last line, the three
/// addresses of one command, or the line that a letter marks.
///
/// Contracts see a name's place among all names, from 0 to 31.
#[derive(Clone, Copy, PartialEq, Eq, Debug)]
pub struct Name {
    place: u8,
}

impl Model for Name {
    ghost use Rattle.std.specs.Prelude.{ℕ, ◌<◌};

    ghost Value = { ℕ };

    ghost view = { λ name. name.place };

    ghost invariant = { λ name. name.place < 32 };

    ghost inverse = { λ place. record { place = place } };
}

impl Name {
    /// The number 0.
    pub const ZERO: Name = Name { place: 0 };
    /// The current line.
    pub const CURRENT_LINE: Name = Name { place: 1 };
    /// The last line.
    pub const LAST_LINE: Name = Name { place: 2 };
    /// A command's first address.
    pub const FIRST_ADDRESS: Name = Name { place: 3 };
    /// A command's second address.
    pub const SECOND_ADDRESS: Name = Name { place: 4 };
    /// The address that a command moves or copies lines to.
    pub const TARGET_ADDRESS: Name = Name { place: 5 };

    /// How many names there are.
    pub const COUNT: usize = 32;

    /// The names that aren't marks, in their order.
    pub fn unmarked() -> [Name; 6]
        ensures value { result ≡ zero ∷ current_line ∷ last_line ∷ first_address ∷ second_address ∷
            target_address ∷ [] }
    {
        [
            Name::ZERO,
            Name::CURRENT_LINE,
            Name::LAST_LINE,
            Name::FIRST_ADDRESS,
            Name::SECOND_ADDRESS,
            Name::TARGET_ADDRESS,
        ]
    }

    /// The line that a letter marks.
    pub fn of(letter: Letter) -> Self
        ensures value { result ≡ mark letter }
    {
        Name {
            place: 6 + letter.place() as u8,
        }
    }

    /// The letter that marks the line; `None` for a name that isn't a mark.
    pub fn letter(self) -> Option<Letter>
        ensures value { IfSome result (λ letter. mark letter ≡ self) }
        ensures unmarked { IfNone result (self < 6) }
    {
        if self.place < 6 {
            None
        } else {
            Some(Letter::at(usize::from(self.place - 6)))
        }
    }

    /// The name's place among all names, from 0: the constants above in their order, then the marks
    /// from `a` to `z`.
    pub fn place(self) -> usize
        ensures value { result ≡ self }
        ensures in_range { result < 32 }
    {
        usize::from(self.place)
    }

    /// The name at this place. All names in their order are those at the places from 0 up to
    /// [`Name::COUNT`].
    pub fn from_place(place: usize) -> Self
        requires in_range { place < 32 }
        ensures value { result ≡ place }
    {
        Name { place: place as u8 }
    }
}
