//! Which ways of a run can lead on, as far as the next items tell it, so that the others aren't taken up.

ghost use Rattle.std.specs.Prelude.{◌≡◌, ℕ, ◌+◌, ◌≤◌, ◌≢◌, List, [], false, flat_map, length, slice_get, IfSome, Some};
ghost use Rattle.bre_parse.specs.Always.{is_text_end};
ghost use Rattle.bre_parse.specs.Tree.{tree_of, sequence_of};
ghost use Rattle.bre_parse.specs.Ways.{Way, ways, from_way, has_byte_in};
ghost use Rattle.bre_match.specs.Runs.{groups_at, ways_of};
ghost use Rattle.bre_match.specs.Narrowing.{kept_of, weight, span_in, item_bytes, bytes_to_end};

use crate::run::{Run, bytes_of, has_byte_in};
use crate::start::one_byte_of;
use bre_parse::tree::{ByteSet, Node};

#[tactic(auto, using(crate::proofs::PartKinds::end_laws))]
fn is_text_end(part: &Node) -> bool
    ensures value { result ≡ is_text_end (tree_of part.now) }
{
    match part {
        Node::TextEnd => true,
        Node::Sequence(_) => false,
        _ => false,
    }
}

/// The span of a group in all ways of a run.
fn span_in(run: &Run, group: usize) -> Option<(usize, usize)>
    ensures value { result ≡ span_in run.now.closes run.now.groups group }
{
    if let Some((closed, _)) = run.closes {
        if closed == group {
            return None;
        }
    }
    if group < 9 { run.groups[group] } else { None }
}

/// How many bytes an item takes, where this is told.
#[tactic(auto, using(crate::proofs::PartKinds::bytes_laws))]
fn item_bytes(part: &Node, text: &[u8], run: &Run) -> Option<usize>
    ensures value { result ≡ item_bytes run.now.closes run.now.groups text.now (tree_of part.now) }
{
    match part {
        Node::Set(_) => Some(1),
        Node::TextStart => Some(0),
        Node::BackReference(group) => match span_in(run, *group) {
            Some(span) => Some(bytes_of(text, span).len()),
            None => None,
        },
        Node::Sequence(_) => None,
        _ => None,
    }
}

/// How many bytes the items before the first `$` take, where this is told.
fn bytes_to_end(items: &[Node], text: &[u8], run: &Run) -> Option<usize>
    ensures sound { IfSome result (λ bytes. bytes_to_end run.now.closes run.now.groups text.now (sequence_of items.now) 0 ≡ Some bytes) }
{
    let mut bytes: usize = 0;
    for item in items {
        if is_text_end(item) {
            return Some(bytes);
        }
        let Some(more) = item_bytes(item, text, run) else {
            return None;
        };
        let Some(sum) = bytes.checked_add(more) else {
            return None;
        };
        bytes = sum;
    }
    None
}

/// Of a run's ways the one that ends so many bytes before the end of the text.
fn only_end(run: &Run, size: usize, bytes: usize) -> Option<(usize, usize)>
    requires room { run.now.shorter ≤ run.now.end }
    ensures value { (f : Way → List Way) → ((end : ℕ) → end + bytes ≢ size → f (end, groups_at run.now end) ≡ []) → flat_map f (kept_of result (groups_at run.now)) ≡ flat_map f (ways_of run.now) }
    ensures fewer { (f : Way → ℕ) → weight f (kept_of result (groups_at run.now)) ≤ weight f (ways_of run.now) }
{
    if size < bytes {
        return None;
    }
    let end = size - bytes;
    if run.end < end || end < run.end - run.shorter {
        return None;
    }
    Some((end, 0))
}

/// Of a run's ways all but those at its head after which no byte of the set stands. The last one always stays.
fn ends_before(run: &Run, set: &ByteSet, text: &[u8]) -> (usize, usize)
    ensures value { (f : Way → List Way) → ((end : ℕ) → has_byte_in set.now.negated set.now.ranges.items (slice_get text.now end) ≡ false → f (end, groups_at run.now end) ≡ []) → flat_map f (kept_of (Some result) (groups_at run.now)) ≡ flat_map f (ways_of run.now) }
    ensures fewer { (f : Way → ℕ) → weight f (kept_of (Some result) (groups_at run.now)) ≤ weight f (ways_of run.now) }
{
    let mut end = run.end;
    let mut shorter = run.shorter;
    while shorter > 0 && !has_byte_in(text, end, set) {
        end = end.saturating_sub(1);
        shorter -= 1;
    }
    (end, shorter)
}

/// The last end of those ways of a run that can lead on through these items, and how many more there are. After bytes,
/// anchors and back-references to known groups `$` leaves one end.
pub(crate) fn narrowed(items: &[Node], text: &[u8], run: &Run) -> Option<(usize, usize)>
    ensures value { flat_map (from_way (ways (sequence_of items.now) text.now)) (kept_of result (groups_at run.now)) ≡ flat_map (from_way (ways (sequence_of items.now) text.now)) (ways_of run.now) }
    ensures fewer { (f : Way → ℕ) → weight f (kept_of result (groups_at run.now)) ≤ weight f (ways_of run.now) }
{
    let all = Some((run.end, run.shorter));
    if run.shorter == 0 || run.end < run.shorter || items.is_empty() {
        return all;
    }
    if let Some(bytes) = bytes_to_end(items, text, run) {
        return only_end(run, text.len(), bytes);
    }
    match one_byte_of(&items[0]) {
        Some(set) => Some(ends_before(run, set, text)),
        None => all,
    }
}
