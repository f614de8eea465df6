//! Where a part ends if what follows it is to reach a given place: for each place of a piece of a text the greatest end from
//! which it goes on to the piece's end. Places and ends are told by their distance from that end.

ghost use Rattle.std.specs.Prelude.{◌≡◌, ℕ, ◌-◌, ◌≤◌, List, [], Option, None, IfOk, true, length, get_or};
ghost use Rattle.bre_parse.specs.Tree.{tree_of};
ghost use Rattle.bre_parse.specs.WellFormed.{repeats_in_order};
ghost use Rattle.bre_match.specs.Parts.{part_of, Star};
ghost use Rattle.bre_match.specs.Ends.{leads_on, entered, out_of, LastEnds};

use crate::backwards::{Edges, piece_of, turned};
use crate::column::{Asked, Passed, step};
use bre_parse::tree::Node;
use std::alloc::{AllocError, Global};
use std::mem;

/// For each place of a piece, by its distance from the piece's end, how far from it a part ends, if it leads on.
pub(crate) type Table = Vec<Option<usize>>;

/// What a table has at a distance, if it goes so far.
pub(crate) fn at(table: &[Option<usize>], distance: usize) -> Option<usize>
    ensures value { result ≡ get_or table.now distance None }
{
    if distance < table.len() {
        table[distance]
    } else {
        None
    }
}

/// Whether the rest goes on from a distance: its table says so, or it may be nothing and this is the piece's end.
fn leads_on(stops: bool, table: &[Option<usize>], distance: usize) -> bool
    ensures value { result ≡ leads_on stops table.now distance }
{
    (stops && distance == 0) || at(table, distance).is_some()
}

/// The place with itself as weight, where the rest goes on from there.
fn entry_at(stops: bool, next: &[Option<usize>], place: usize) -> Option<usize>
    ensures value { result ≡ entered (leads_on stops next.now) place }
{
    if leads_on(stops, next, place) {
        Some(place)
    } else {
        None
    }
}

/// At each place of a piece the least place from which the part leads there, of those from which the rest goes on.
fn nearest(
    alloc: Global,
    back: &Node,
    piece: &[u8],
    next: &[Option<usize>],
    stops: bool,
) -> Result<Table, AllocError>
    ensures value { IfOk result (λ all. (place : ℕ) → place ≤ length piece.now → get_or all.items place None ≡ out_of (part_of (tree_of back.now)) piece.now 0 (entered (leads_on stops next.now)) place) }
{
    let mut all = Vec::new(alloc);
    let mut marks = Vec::new(alloc);
    let mut after = Vec::new(alloc);
    let mut place = 0;
    while place <= piece.len() {
        after.clear();
        let entry = entry_at(stops, next, place);
        let before = Passed {
            weight: entry,
            at: 0,
        };
        let passed = step(&mut after, Asked::Marks, back, &marks, piece, place, before)?;
        all.push(passed.weight)?;
        mem::swap(&mut marks, &mut after);
        place += 1;
    }
    Ok(all)
}

/// The table of a part in a piece of a text. `next` is the table of the rest, and `stops` says that the rest may be
/// nothing.
pub(crate) fn ends_of(
    alloc: Global,
    part: &Node,
    text: &[u8],
    low: usize,
    high: usize,
    next: &[Option<usize>],
    stops: bool,
) -> Result<Table, AllocError>
    requires order { low ≤ high }
    requires within { high ≤ length text.now }
    ensures value { IfOk result (λ table. repeats_in_order (tree_of part.now) ≡ true → LastEnds (part_of (tree_of part.now)) (λ place. leads_on stops next.now (high - place) ≡ true) text.now low high table.items) }
{
    let starts = low == 0;
    let ends = high == text.len();
    let back = turned(alloc, part, Edges { starts, ends })?;
    let piece = piece_of(alloc, text, low, high)?;
    let table = nearest(alloc, &back, &piece, next, stops)?;
    Ok(table)
}

/// The table of any number of turns of a part that end with the piece.
pub(crate) fn ends_of_turns(
    alloc: Global,
    content: &Node,
    text: &[u8],
    low: usize,
    high: usize,
) -> Result<Table, AllocError>
    requires order { low ≤ high }
    requires within { high ≤ length text.now }
    ensures value { IfOk result (λ table. repeats_in_order (tree_of content.now) ≡ true → LastEnds (Star (part_of (tree_of content.now))) (λ place. leads_on true [] (high - place) ≡ true) text.now low high table.items) }
{
    let starts = low == 0;
    let ends = high == text.len();
    let turn = turned(alloc, content, Edges { starts, ends })?;
    let back = Node::Repeat(0, None, Box::new(alloc, turn)?);
    let piece = piece_of(alloc, text, low, high)?;
    let table = nearest(alloc, &back, &piece, &[], true)?;
    Ok(table)
}
