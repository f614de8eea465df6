//! The lines of a zone and of its letters, as they are read.

ghost use Rattle.std.specs.Prelude.{◌≡◌, ◌≢◌, ◌<◌, ◌≤◌, ◌+◌, ◌*◌, ◌++◌, ◌∷◌, ℕ, ℤ, List, Bool, [], Some, MatchOption, IfSome, IfOk, All, length, map};
ghost use Rattle.zones.specs.KnownBounds.{PlacedBound};
ghost use Rattle.zones.specs.Zone.{Bounds};
ghost use Rattle.zones.specs.Written.{Rise};
ghost use Rattle.ed_rules.specs.Formed.{ZoneIsFormed};
ghost use Rattle.cert_check.specs.text.Text.{Word, space, spaced, name_word, letter_a, sure_letters, letters_words, bounds_words, zone_line, marks_line};
ghost use Rattle.cert_check.specs.text.SaidZones.{IsSaidZone};
ghost use Rattle.cert_check.specs.text.Reading.{ReadsAs, all_marks, IsFirstWord, IsNamed, IsSigned, said_word, IsSaid, spoken_word, IsSpoken};

use crate::text::has_text::zone_has_text;
use crate::text::said_zones::SaidZones;
use crate::text::words::name_byte;
use crate::text::words_in::{after_key, signed_in, word_len};
use ed_base::Letter;
use ed_rules::Marks;
use std::alloc::{AllocError, Global};
use zones::{BOUNDS_OF_THREE_NAMES, KeptEntry, KeptZone, Name};

/// The letters of a word.
fn letters_in(word: &[u8]) -> Option<Marks>
    ensures exact { MatchOption result
        ((marks : List Bool) → length marks ≡ 26 → sure_letters letter_a marks ≢ word.now)
        (λ marks. (sure_letters letter_a marks ≡ word.now) × (length marks ≡ 26)) }
{
    let mut marks = Marks::none();
    let mut left = word;
    for place in 0..Letter::COUNT {
        let letter = Letter::at(place);
        let Some(later) = after_key(&[letter.byte()], left) else {
            continue;
        };
        marks.add(letter);
        left = later;
    }
    if !left.is_empty() {
        return None;
    }
    Some(marks)
}

/// The word of letters after a space; without letters there is none.
fn letters_word_in(text: &[u8]) -> Option<&[u8]>
    ensures exact { MatchOption result ((letters : List ℕ) → spaced (letters_words letters) ≢ text.now)
        (λ letters. spaced (letters_words letters.now) ≡ text.now) }
{
    if text.is_empty() {
        return Some(text);
    }
    let Some(letters) = after_key(b" ", text) else {
        return None;
    };
    if letters.is_empty() {
        return None;
    }
    Some(letters)
}

/// The letters that are sure beside a zone, each that the zone speaks of among them.
pub(crate) fn marks_in(key: &[u8], line: &[u8], zone: &KeptZone) -> Option<Marks>
    ensures exact { ReadsAs (marks_line key.now) (λ marks. ZoneIsFormed marks zone.now) line.now result }
{
    let Some(left) = after_key(key, line) else {
        return None;
    };
    let Some(letters) = letters_word_in(left) else {
        return None;
    };
    let Some(marks) = letters_in(letters) else {
        return None;
    };
    if !zone_has_text(&marks, zone) {
        return None;
    }
    Some(marks)
}

/// What is said of x - y after a space in front, and what is left after it.
fn bound_in(x: Name, y: Name, text: &[u8]) -> Option<(i64, &[u8])>
    requires row { IsNamed x }
    requires column { IsNamed y }
    ensures exact { MatchOption result
        ((number : ℤ) (words : List Word) → IsSigned number → (space ∷ said_word x y number) ++ spaced words ≢ text.now)
        (λ (number, left). IsSaid x y number left.now text.now) }
{
    let key = [b' ', name_byte(x), b'-', name_byte(y), b'<', b'='];
    let Some(rest) = after_key(&key, text) else {
        return None;
    };
    let (number, left) = rest.split_at(word_len(rest));
    let Some(number) = signed_in(number) else {
        return None;
    };
    Some((number, left))
}

/// The name that a byte stands for.
pub(crate) fn name_said(byte: u8) -> Option<Name>
    ensures named { IfSome result IsNamed }
    ensures byte { IfSome result (λ place. name_word place ≡ byte ∷ []) }
    ensures exact { (place : ℕ) → place < 32 → IsNamed place → name_word place ≡ byte ∷ [] → result ≡ Some place }
{
    match byte {
        b'0' => Some(Name::ZERO),
        b'.' => Some(Name::CURRENT_LINE),
        b'$' => Some(Name::LAST_LINE),
        _ => match Letter::new(byte) {
            Some(letter) => Some(Name::of(letter)),
            None => None,
        },
    }
}

/// The two names of which a text speaks first.
fn names_said(text: &[u8]) -> Option<(Name, Name)>
    ensures named { IfSome result (λ (x, y). IsNamed x × IsNamed y) }
    ensures exact { (x y : ℕ) → x < 32 → y < 32 → IsNamed x → IsNamed y → (number : ℤ) (words : List Word) →
        (space ∷ said_word x y number) ++ spaced words ≡ text.now → result ≡ Some (x, y) }
{
    let [_, x, _, y, ..] = text else {
        return None;
    };
    match (name_said(*x), name_said(*y)) {
        (Some(x), Some(y)) => Some((x, y)),
        _ => None,
    }
}

/// The bound that a text says first, after a space in front, and what is left after it.
fn first_bound(text: &[u8]) -> Option<(KeptEntry, &[u8])>
    ensures exact { MatchOption result
        ((b : PlacedBound) (words : List Word) → IsSpoken b → (space ∷ spoken_word b) ++ spaced words ≢ text.now)
        (λ (entry, left). IsSpoken entry × IsFirstWord text.now (spoken_word entry) left.now) }
{
    let Some(names) = names_said(text) else {
        return None;
    };
    let (x, y) = names;
    let Some((number, left)) = bound_in(x, y, text) else {
        return None;
    };
    let entry = KeptEntry::new(x, y, Some(number));
    // No zone keeps a number that is clipped.
    if entry.bound() == Some(number) {
        return Some((entry, left));
    }
    None
}

/// The bounds that a text says, one after another in rising places. No more are taken up than a zone can have.
fn bounds_said(alloc: Global, text: &[u8]) -> Result<Option<Vec<KeptEntry>>, AllocError>
    ensures exact { IfOk result (λ bounds. MatchOption bounds
        ((others : List PlacedBound) → All IsSpoken others → Rise 0 others → spaced (map spoken_word others) ≢ text.now)
        (λ bounds. All IsSpoken bounds.items × (spaced (map spoken_word bounds.items) ≡ text.now))) }
{
    let mut bounds = Vec::with_capacity(alloc, BOUNDS_OF_THREE_NAMES)?;
    let mut left = text;
    let mut from = 0;
    'words: while !left.is_empty() {
        let Some(first) = first_bound(left) else {
            return Ok(None);
        };
        let (bound, later) = first;
        let place = Name::COUNT * bound.x().place() + bound.y().place();
        if place < from {
            return Ok(None);
        }
        from = place + 1;
        bounds.push(bound)?;
        left = later;
    }
    Ok(Some(bounds))
}

/// The zone that words say, whatever letters it speaks of.
fn zone_said(alloc: Global, words: &[u8]) -> Result<Option<KeptZone>, AllocError>
    ensures exact { IfOk result (λ zone. MatchOption zone
        ((other : Bounds) → ZoneIsFormed all_marks other → spaced (bounds_words 0 other) ≢ words.now)
        (IsSaidZone words.now)) }
{
    let Some(bounds) = bounds_said(alloc, words)? else {
        return Ok(None);
    };
    let Some(zone) = KeptZone::from_entries(bounds) else {
        return Ok(None);
    };
    Ok(Some(zone))
}

/// The zone of a line, whatever letters it speaks of. Where its words say a zone that is kept, that one is copied.
pub(crate) fn zone_in<'a>(
    alloc: Global,
    key: &[u8],
    line: &'a [u8],
    kept: &mut SaidZones<'a>,
) -> Result<Option<KeptZone>, AllocError>
    ensures exact { IfOk result (λ zone. ReadsAs (zone_line key.now) (ZoneIsFormed all_marks) line.now zone) }
{
    let Some(words) = after_key(key, line) else {
        return Ok(None);
    };
    if let Some(zone) = kept.zone_of(words)? {
        return Ok(Some(zone));
    }
    let Some(zone) = zone_said(alloc, words)? else {
        return Ok(None);
    };
    kept.keep(words, &zone)?;
    Ok(Some(zone))
}
