//! The groups of a match whose start and end are known, read off from the outside in: the first way to an end takes each
//! item, and each turn, to the greatest of its ends from which the rest goes on to that end.

ghost use Rattle.std.specs.Prelude.{◌≡◌, ℕ, ◌+◌, ◌-◌, ◌≤◌, ◌<◌, List, Option, Some, None, IfOk, OnOk, IsTrue, IsFalse, ◌↔◌, true, false, length, slice_get, slice_set, get_or, nat_eq, nat_le, ◌&&◌};
ghost use Rattle.bre_parse.specs.Tree.{tree_of, sequence_of, Repeat};
ghost use Rattle.bre_parse.specs.Groups.{cleared, number_of_groups};
ghost use Rattle.bre_parse.specs.WellFormed.{repeats_in_order};
ghost use Rattle.bre_parse.specs.Ways.{ways};
ghost use Rattle.bre_parse.specs.Laws.{first_to};
ghost use Rattle.bre_match.specs.Parts.{part_of};
ghost use Rattle.bre_match.specs.Tables.{IsRow, IsTurns, LeadsThere, TurnTable, told_turns};

use crate::table::{Table, at, ends_of, ends_of_turns};
use bre_parse::tree::{Groups, Node};
use std::alloc::{AllocError, Global};

/// Whether no group stands in a part.
#[tactic(auto, using(crate::proofs::ColumnRows::refer_laws))]
#[cycle(groupless)]
fn is_groupless(part: &Node) -> bool
    ensures none { IsTrue result → number_of_groups (tree_of part.now) ≡ 0 }
{
    match part {
        Node::Sequence(items) => all_groupless(items),
        Node::Group(_, _) => false,
        Node::Repeat(_, _, content) => is_groupless(content),
        _ => true,
    }
}

#[tactic(auto, using(crate::proofs::ColumnRows::refer_laws))]
#[cycle(groupless)]
pub(crate) fn all_groupless(items: &[Node]) -> bool
    ensures none { IsTrue result → number_of_groups (sequence_of items.now) ≡ 0 }
{
    for item in items {
        if !is_groupless(item) {
            return false;
        }
    }
    true
}

/// Where a part ends, by the table of that number: how far from the piece's end.
fn end_told(tables: &[Table], number: usize, distance: usize) -> Option<usize>
    requires told { number < length tables.now }
    ensures value { (table : _) → slice_get tables.now number ≡ Some table → result ≡ get_or table.items distance None }
{
    at(&tables[number], distance)
}

/// Whether two places are not those of a piece of the text.
fn is_outside(text: &[u8], low: usize, high: usize) -> bool
    ensures exact { IsFalse result ↔ (low ≤ high) × (high ≤ length text.now) }
{
    low > high || high > text.len()
}

/// Whether a turn is idle: empty, and not needed.
fn is_idle(place: usize, end: usize, least: u8, done: usize) -> bool
    ensures value { result ≡ (nat_eq end place && nat_le least done) }
{
    end == place && least as usize <= done
}

/// The tables of a row's items, the last one's first, after an empty one.
fn tables_of_row(
    alloc: Global,
    items: &[Node],
    text: &[u8],
    low: usize,
    high: usize,
) -> Result<Vec<Table>, AllocError>
    requires order { low ≤ high }
    requires within { high ≤ length text.now }
    ensures size { IfOk result (λ tables. length tables.items ≡ length items.now + 1) }
    ensures value { IfOk result (λ tables. repeats_in_order (sequence_of items.now) ≡ true → IsRow items.now text.now low high tables.items) }
{
    let mut tables = Vec::new(alloc);
    tables.push(Vec::new(alloc))?;
    for told in 0..items.len() {
        let item = items.len() - 1 - told;
        let table = ends_of(
            alloc,
            &items[item],
            text,
            low,
            high,
            &tables[told],
            told == 0,
        )?;
        tables.push(table)?;
    }
    Ok(tables)
}

/// How many turns of a repeat have a table of their own.
fn told_turns(least: u8, most: Option<u8>) -> usize
    ensures value { result ≡ told_turns least most }
{
    match most {
        None => least as usize,
        Some(most) => most as usize,
    }
}

/// The table of all turns that are not told apart: there is none, or they have no bound.
fn table_of_further_turns(
    alloc: Global,
    content: &Node,
    most: Option<u8>,
    text: &[u8],
    low: usize,
    high: usize,
) -> Result<Table, AllocError>
    requires order { low ≤ high }
    requires within { high ≤ length text.now }
    ensures value { IfOk result (λ table. repeats_in_order (tree_of content.now) ≡ true → (least done : ℕ) → told_turns least most ≤ done → TurnTable (part_of (tree_of content.now)) least most text.now low high done table.items) }
{
    match most {
        Some(_) => Ok(Vec::new(alloc)),
        None => {
            let on = ends_of_turns(alloc, content, text, low, high)?;
            let table = ends_of(alloc, content, text, low, high, &on, false)?;
            Ok(table)
        }
    }
}

/// The tables of a repeat's turns, the last one's first, after one for all further turns.
fn tables_of_turns(
    alloc: Global,
    content: &Node,
    least: u8,
    most: Option<u8>,
    text: &[u8],
    low: usize,
    high: usize,
) -> Result<Vec<Table>, AllocError>
    requires order { low ≤ high }
    requires within { high ≤ length text.now }
    ensures size { IfOk result (λ tables. length tables.items ≡ told_turns least most + 1) }
    ensures value { IfOk result (λ tables. repeats_in_order (tree_of content.now) ≡ true → IsTurns (part_of (tree_of content.now)) least most text.now low high tables.items) }
{
    let turns = told_turns(least, most);
    let mut tables = Vec::new(alloc);
    let further = table_of_further_turns(alloc, content, most, text, low, high)?;
    tables.push(further)?;
    for told in 0..turns {
        let stops = least as usize <= turns - told;
        let table = ends_of(alloc, content, text, low, high, &tables[told], stops)?;
        tables.push(table)?;
    }
    Ok(tables)
}

/// Groups past the ninth are kept nowhere.
fn set_group(groups: &mut Groups, group: usize, low: usize, high: usize)
    ensures value { groups.new ≡ slice_set groups.old group (Some (low, high)) }
{
    if group < 9 {
        groups[group] = Some((low, high));
    }
}

/// Sets the groups of a part to those of its first way from a place to another.
#[cycle(groups)]
pub(crate) fn set_groups(
    groups: &mut Groups,
    alloc: Global,
    part: &Node,
    text: &[u8],
    low: usize,
    high: usize,
) -> Result<(), AllocError>
    ensures value { OnOk result (LeadsThere (tree_of part.now) text.now low high → first_to high (ways (tree_of part.now) text.now low groups.old) ≡ Some (high, groups.new)) }
{
    if is_groupless(part) {
        return Ok(());
    }
    match part {
        Node::Sequence(items) => {
            set_row(groups, alloc, items, text, low, high)?;
            Ok(())
        }
        Node::Group(group, content) => {
            set_groups(groups, alloc, content, text, low, high)?;
            set_group(groups, *group, low, high);
            Ok(())
        }
        Node::Repeat(least, most, content) => {
            set_turns(groups, alloc, content, *least, *most, text, low, high)?;
            Ok(())
        }
        _ => Ok(()),
    }
}

/// The same for items one after another.
#[cycle(groups)]
pub(crate) fn set_row(
    groups: &mut Groups,
    alloc: Global,
    items: &[Node],
    text: &[u8],
    low: usize,
    high: usize,
) -> Result<(), AllocError>
    ensures value { OnOk result (LeadsThere (sequence_of items.now) text.now low high → first_to high (ways (sequence_of items.now) text.now low groups.old) ≡ Some (high, groups.new)) }
{
    if all_groupless(items) {
        return Ok(());
    }
    if is_outside(text, low, high) {
        return Ok(());
    }
    let tables = tables_of_row(alloc, items, text, low, high)?;
    let mut place = low;
    for item in 0..items.len() {
        let distance = high.saturating_sub(place);
        let Some(left) = end_told(&tables, items.len() - item, distance) else {
            return Ok(());
        };
        let end = high.saturating_sub(left);
        set_groups(groups, alloc, &items[item], text, place, end)?;
        place = end;
    }
    Ok(())
}

/// The same for a turn of a repeat, which begins with the groups inside it unset.
#[cycle(groups)]
fn set_turn(
    groups: &mut Groups,
    alloc: Global,
    content: &Node,
    text: &[u8],
    low: usize,
    high: usize,
) -> Result<(), AllocError>
    ensures value { OnOk result (LeadsThere (tree_of content.now) text.now low high → first_to high (ways (tree_of content.now) text.now low (cleared (tree_of content.now) groups.old)) ≡ Some (high, groups.new)) }
{
    content.clear(groups);
    set_groups(groups, alloc, content, text, low, high)?;
    Ok(())
}

/// The same for a repeat, turn after turn. Each turn but the needed ones takes a byte.
#[cycle(groups)]
fn set_turns(
    groups: &mut Groups,
    alloc: Global,
    content: &Node,
    least: u8,
    most: Option<u8>,
    text: &[u8],
    low: usize,
    high: usize,
) -> Result<(), AllocError>
    ensures value { OnOk result (LeadsThere (Repeat least most (tree_of content.now)) text.now low high → first_to high (ways (Repeat least most (tree_of content.now)) text.now low groups.old) ≡ Some (high, groups.new)) }
{
    if is_outside(text, low, high) {
        return Ok(());
    }
    let tables = tables_of_turns(alloc, content, least, most, text, low, high)?;
    let turns = told_turns(least, most);
    let enough = 1 + least as usize + text.len().saturating_sub(low);
    let mut place = low;
    for done in 0..enough {
        let number = turns.saturating_sub(done);
        let distance = high.saturating_sub(place);
        let Some(left) = end_told(&tables, number, distance) else {
            return Ok(());
        };
        let end = high.saturating_sub(left);
        if is_idle(place, end, least, done) {
            // It counts only as the first, and ends the repeat.
            if done > 0 {
                return Ok(());
            }
            set_turn(groups, alloc, content, text, place, end)?;
            return Ok(());
        }
        set_turn(groups, alloc, content, text, place, end)?;
        place = end;
    }
    Ok(())
}
