//! The bytes that a pattern needs, by which a text without a match is told soon.

ghost use Rattle.std.specs.Prelude.{◌≡◌, ℕ, ◌<◌, ◌≤◌, ◌∷◌, [], None, false, IfSome, IsTrue, drop, length};
ghost use Rattle.std.specs.List.{list_any};
ghost use Rattle.bre_parse.specs.Tree.{in_set, tree_of, sequence_of};
ghost use Rattle.bre_parse.specs.Match.{longest_from, match_from};
ghost use Rattle.bre_match.specs.Starts.{one_byte_of};
ghost use Rattle.bre_match.specs.Needs.{after_first, after_item, lacks_needed};

use crate::start::one_byte_of;
use bre_parse::tree::{ByteSet, Node};
use memchr::memchr;

/// The ends of a set that is spelled as one range.
pub(crate) fn only_range(set: &ByteSet) -> Option<(u8, u8)>
    ensures sound { IfSome result (λ range. (set.now.negated ≡ false) × (set.now.ranges.items ≡ range ∷ [])) }
{
    if !set.negated && set.ranges.len() == 1 {
        Some(set.ranges[0])
    } else {
        None
    }
}

/// The place after the first such byte.
fn after_byte(byte: u8, text: &[u8], from: usize) -> Option<usize>
    ensures value { result ≡ after_first false ((byte, byte) ∷ []) from (drop from text.now) }
{
    if from >= text.len() {
        return None;
    }
    match memchr(byte, &text[from..]) {
        Some(passed) => Some(from + passed + 1),
        None => None,
    }
}

// How many bytes are looked at together: enough for the compiler to compare them at once, and few beside a line's.
const BLOCK: usize = 16;

/// Whether a byte is in a range. It goes on after one that is, so that nothing hangs on the byte before.
fn has_in_range(low: u8, high: u8, bytes: &[u8]) -> bool
    ensures value { result ≡ list_any (in_set false ((low, high) ∷ [])) bytes.now }
{
    let mut found = false;
    for byte in bytes {
        if low <= *byte && *byte <= high {
            found = true;
        }
    }
    found
}

/// The first place from one on that isn't passed over by whole blocks without a byte in a range.
fn after_blocks(low: u8, high: u8, text: &[u8], from: usize) -> usize
    ensures value { after_first false ((low, high) ∷ []) result (drop result text.now) ≡ after_first false ((low, high) ∷ []) from (drop from text.now) }
{
    let mut at = from;
    'skipped: while BLOCK <= text.len().saturating_sub(at) {
        if has_in_range(low, high, &text[at..at + BLOCK]) {
            return at;
        }
        at += BLOCK;
    }
    at
}

/// The place after the first byte in a range.
fn after_range(low: u8, high: u8, text: &[u8], from: usize) -> Option<usize>
    ensures value { result ≡ after_first false ((low, high) ∷ []) from (drop from text.now) }
{
    let start = after_blocks(low, high, text, from);
    for at in start..text.len() {
        if low <= text[at] && text[at] <= high {
            return Some(at + 1);
        }
    }
    None
}

/// The place after the first byte of any set.
fn after_member(set: &ByteSet, text: &[u8], from: usize) -> Option<usize>
    ensures value { result ≡ after_first set.now.negated set.now.ranges.items from (drop from text.now) }
{
    for at in from..text.len() {
        if set.contains(text[at]) {
            return Some(at + 1);
        }
    }
    None
}

/// The place after the first byte of a set, from a place on.
fn after_first(set: &ByteSet, text: &[u8], from: usize) -> Option<usize>
    ensures value { result ≡ after_first set.now.negated set.now.ranges.items from (drop from text.now) }
{
    match only_range(set) {
        Some((low, high)) => if low == high {
            after_byte(low, text, from)
        } else {
            after_range(low, high, text, from)
        },
        None => after_member(set, text, from),
    }
}

/// Where what comes after an item is looked for.
fn after_item(item: &Node, text: &[u8], from: usize) -> Option<usize>
    ensures value { result ≡ after_item (one_byte_of (tree_of item.now)) text.now from }
{
    match one_byte_of(item) {
        Some(set) => after_first(set, text, from),
        None => Some(from),
    }
}

/// Whether the bytes that the items need, one of each set among them, don't stand in their order from a place on.
pub(crate) fn lacks_needed(items: &[Node], text: &[u8], from: usize) -> bool
    ensures exact { result ≡ lacks_needed (sequence_of items.now) text.now from }
    ensures sound { from ≤ length text.now → IsTrue result → match_from (sequence_of items.now) text.now from ≡ None }
{
    let mut at = from;
    for item in items {
        match after_item(item, text, at) {
            Some(after) => at = after,
            None => return true,
        }
    }
    false
}

/// Whether bytes are needed, and all of them are bytes of ranges, or single ones, so that a text is told sooner by them than by a state
/// at each place.
pub(crate) fn needs_ranges(items: &[Node]) -> bool {
    let mut needs = false;
    for item in items {
        if let Some(set) = one_byte_of(item) {
            if only_range(set).is_none() {
                return false;
            }
            needs = true;
        }
    }
    needs
}

/// Whether the first item is one byte of a range, or a single byte, which is looked for sooner than a state at each place.
pub(crate) fn begins_with_range(items: &[Node]) -> bool {
    if items.is_empty() {
        return false;
    }
    match one_byte_of(&items[0]) {
        None => false,
        Some(set) => only_range(set).is_some(),
    }
}

/// The first start from a place on that doesn't lack the first item's byte, as far as that is told.
pub(crate) fn first_start(items: &[Node], text: &[u8], from: usize) -> usize
    requires place { from ≤ length text.now }
    ensures after { from ≤ result }
    ensures within { result ≤ length text.now }
    ensures sound { (start : ℕ) → from ≤ start → start < result → longest_from (sequence_of items.now) text.now start ≡ None }
{
    if items.is_empty() {
        return from;
    }
    match one_byte_of(&items[0]) {
        None => from,
        Some(set) => match after_first(set, text, from) {
            None => text.len(),
            Some(after) => after.saturating_sub(1).min(text.len()).max(from),
        },
    }
}
