//! Characters that nobody can see.

ghost use Rattle.std.specs.Prelude.{◌≡◌};
ghost use Rattle.hints.specs.Sought.{is_hidden};

/// The first and the last of each range of characters that nobody can see, or tell from another one, or that turn the order of those about
/// them: blanks that aren't the space, marks of direction, and what else formats a text. Control characters aren't among them.
pub(crate) const HIDDEN: [(char, char); 21] = [
    ('\u{a0}', '\u{a0}'),
    ('\u{ad}', '\u{ad}'),
    ('\u{34f}', '\u{34f}'),
    ('\u{600}', '\u{605}'),
    ('\u{61c}', '\u{61c}'),
    ('\u{6dd}', '\u{6dd}'),
    ('\u{70f}', '\u{70f}'),
    ('\u{115f}', '\u{1160}'),
    ('\u{1680}', '\u{1680}'),
    ('\u{17b4}', '\u{17b5}'),
    ('\u{180b}', '\u{180f}'),
    ('\u{2000}', '\u{200f}'),
    ('\u{2028}', '\u{202f}'),
    ('\u{205f}', '\u{206f}'),
    ('\u{3000}', '\u{3000}'),
    ('\u{3164}', '\u{3164}'),
    ('\u{fe00}', '\u{fe0f}'),
    ('\u{feff}', '\u{feff}'),
    ('\u{ffa0}', '\u{ffa0}'),
    ('\u{fff0}', '\u{fffb}'),
    ('\u{e0000}', '\u{e0fff}'),
];

/// Whether a character is one of those.
#[tactic(auto, unfolding(crate::specs::Sought::is_hidden))]
pub fn is_hidden(character: char) -> bool
    ensures value { result ≡ is_hidden character }
{
    HIDDEN
        .iter()
        .any(|range| range.0 <= character && character <= range.1)
}
