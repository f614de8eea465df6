//! Blocks of lines that are exchanged line by line, in a list of any kind.
ghost use Rattle.std.specs.Prelude.{◌≡◌, ◌+◌, ◌≤◌, [], length, map, vec_capacity, IfErr, IfOk, OnErr, OnOk};
ghost use Rattle.ed_base.specs.Buffer.{plain_line, texts};
ghost use Rattle.ed_base.specs.Parts.{block, exchanged, inserted};
ghost use Rattle.line_store.specs.Blocks.{CameIn};
ghost use Rattle.line_store.specs.Kept.{flag_count};

use crate::block::Kind;
use crate::{BareLine, BareLines, Block};
use std::alloc::{AllocError, Global};

/// Puts the lines of a block, without flags, in place of those from place `from` up to `to`, which are handed back. Where there is
/// no memory for that the block comes back, and the list is as before.
pub(crate) fn exchange_each<L: BareLines>(
    alloc: Global,
    from: usize,
    to: usize,
    new: Block,
    lines: &mut L,
) -> Result<Block, Block>
    requires order { from ≤ to }
    requires last { to ≤ length (L.items lines.old) }
    ensures taken { IfOk result (λ taken. taken ≡ texts (block from to (L.items lines.old))) }
    ensures put { OnOk result (CameIn from to new (L.items lines.old) (L.items lines.new)) }
    ensures handed_back { IfErr result (λ back. back ≡ new) }
    ensures unchanged { OnErr result (L.items lines.new ≡ L.items lines.old) }
{
    let room = if to - from == 1 { 0 } else { to - from };
    let Ok(mut taken) = Vec::with_capacity(alloc, room) else {
        return Err(new);
    };
    // A line that went out may leave less room, so the new lines come in first, after the others.
    put_lines(alloc, to, new, lines)?;
    if to - from == 1 {
        return Ok(Block::of_bare(lines.remove(from)));
    }
    take_each(from, to, &mut taken, lines);
    Ok(Block::of_lines(taken))
}

/// Takes the lines from place `from` up to `to` out, without flags, the last one first, so that at the end of a list nothing has
/// to move. There is room for them.
fn take_each<L: BareLines>(from: usize, to: usize, taken: &mut Vec<BareLine>, lines: &mut L)
    requires order { from ≤ to }
    requires last { to ≤ length (L.items lines.old) }
    requires none { taken.old.items ≡ [] }
    requires room { to ≤ vec_capacity taken.old + from }
    ensures taken { texts taken.new.items ≡ texts (block from to (L.items lines.old)) }
    ensures left { L.items lines.new ≡ exchanged from to [] (L.items lines.old) }
{
    for i in (from..to).rev() {
        taken.push_reserved(lines.remove(i).plain());
    }
    taken.reverse();
}

/// Puts the lines of a block before place `at`, without flags. Otherwise the block comes back, and the list is as before.
fn put_lines<L: BareLines>(alloc: Global, at: usize, new: Block, lines: &mut L) -> Result<(), Block>
    requires place { at ≤ length (L.items lines.old) }
    ensures put { OnOk result (L.items lines.new ≡ inserted at (map plain_line new) (L.items lines.old)) }
    ensures handed_back { IfErr result (λ back. back ≡ new) }
    ensures unchanged { OnErr result (L.items lines.new ≡ L.items lines.old) }
{
    let Block { kind } = new;
    match kind {
        // A single line takes no memory for a list of its own.
        Kind::One(line) => match lines.insert(at, line.plain()) {
            Ok(()) => Ok(()),
            Err(line) => Err(Block::of_bare(line)),
        },
        kind => put_all(alloc, at, Block { kind }, lines),
    }
}

/// The same for any lines.
fn put_all<L: BareLines>(alloc: Global, at: usize, new: Block, lines: &mut L) -> Result<(), Block>
    requires place { at ≤ length (L.items lines.old) }
    ensures put { OnOk result (L.items lines.new ≡ inserted at (map plain_line new) (L.items lines.old)) }
    ensures handed_back { IfErr result (λ back. back ≡ new) }
    ensures unchanged { OnErr result (L.items lines.new ≡ L.items lines.old) }
{
    let list = new.into_lines(alloc)?;
    match lines.reserve(list.as_slice().len()) {
        Ok(()) => {
            put_each(list, at, lines);
            Ok(())
        }
        Err(_no_memory) => Err(Block::of_lines(list)),
    }
}

/// Puts lines before place `at`, without flags, the first one first. There is room for them.
fn put_each<L: BareLines>(list: Vec<BareLine>, at: usize, lines: &mut L)
    requires place { at ≤ length (L.items lines.old) }
    requires room { length list.items ≤ L.spare lines.old }
    ensures put { L.items lines.new ≡ inserted at (map plain_line (texts list.items)) (L.items lines.old) }
{
    // Places are counted from the end, where no sum can be too great.
    let after = lines.len() - at;
    for line in list {
        match lines.insert(lines.len() - after, line.plain()) {
            Ok(()) => {}
            Err(_refused) => unreachable!(),
        }
    }
}

/// Takes a single line out, without its flag, for which none comes in. It takes no memory.
fn take_one<L: BareLines>(from: usize, to: usize, none: Block, lines: &mut L) -> Block
    requires one { to ≡ from + 1 }
    requires last { to ≤ length (L.items lines.old) }
    requires none { length none ≡ 0 }
    ensures taken { result ≡ texts (block from to (L.items lines.old)) }
    ensures put { CameIn from to none (L.items lines.old) (L.items lines.new) }
{
    Block::of_bare(lines.remove(from))
}

/// Puts the lines of a block in place of others of a list of which so many lines have the flag.
pub(crate) fn exchange_lines<L: BareLines>(
    alloc: Global,
    flags: usize,
    from: usize,
    to: usize,
    new: Block,
    lines: &mut L,
) -> Result<Block, Block>
    requires order { from ≤ to }
    requires last { to ≤ length (L.items lines.old) }
    requires flags { flags ≡ flag_count (L.items lines.old) }
    ensures taken { IfOk result (λ taken. taken ≡ texts (block from to (L.items lines.old))) }
    ensures put { OnOk result (CameIn from to new (L.items lines.old) (L.items lines.new)) }
    ensures handed_back { IfErr result (λ back. back ≡ new) }
    ensures unchanged { OnErr result (L.items lines.new ≡ L.items lines.old) }
{
    if to - from == 1 && new.len() == 0 {
        return Ok(take_one(from, to, new, lines));
    }
    // Lines that have the flag are taken one by one, without it.
    if flags > 0 {
        return exchange_each(alloc, from, to, new, lines);
    }
    match lines.exchange_whole(alloc, from, to, new) {
        Ok(taken) => Ok(taken),
        Err(new) => exchange_each(alloc, from, to, new, lines),
    }
}

/// How many lines from place `from` up to `to` have the flag.
pub(crate) fn flags_among<L: BareLines>(from: usize, to: usize, lines: &L) -> usize
    requires order { from ≤ to }
    requires last { to ≤ length (L.items lines.now) }
    ensures value { result ≡ flag_count (block from to (L.items lines.now)) }
{
    let mut flags = 0;
    for i in from..to {
        flags += usize::from(lines.flagged(i));
    }
    flags
}
