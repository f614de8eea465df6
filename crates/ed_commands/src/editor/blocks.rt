//! Blocks of lines of a store: made, exchanged, carried to another place. A block is the lines after line `from` up to line `to`.
ghost use Rattle.std.specs.Prelude.{◌≡◌, ◌≢◌, ◌+◌, ◌-◌, ◌^◌, ◌<◌, ◌≤◌, [], length, map, min, max, IfOk, IfErr, OnOk, OnErr, MatchResult};
ghost use Rattle.std.specs.List.{concat};
ghost use Rattle.ed_base.specs.Lines.{AreLines, bytes_of, lines_of};
ghost use Rattle.ed_base.specs.Buffer.{plain_line, texts};
ghost use Rattle.ed_base.specs.Parts.{block, carried, exchanged, inserted};
ghost use Rattle.ed_syntax.specs.meaning.Substitution.{split_at_newlines};
ghost use Rattle.ed_commands.specs.Editors.{AreNew, place_beside, span_value};

use crate::editor::addressing::Span;
use crate::substitution::is_one_line;
use ed_base::{Bytes, Pieces};
use line_store::{Block, FileLines, Line, LineStore};
use std::alloc::{AllocError, Global};

/// The bytes of a file that has the lines of a block. They are shared with the lines as far as these lie in blocks.
pub fn file_of<S: LineStore>(
    alloc: Global,
    from: usize,
    to: usize,
    store: &S,
) -> Result<Pieces, AllocError>
    requires order { from ≤ to }
    requires last { to ≤ length (S.lines store.now) }
    ensures value { IfOk result (λ bytes. bytes ≡ bytes_of (texts (block from to (S.lines store.now)))) }
    ensures lines { OnOk result (AreLines (texts (block from to (S.lines store.now)))) }
{
    let mut bytes = Pieces::new(alloc);
    store.push_lines(from, to, &mut bytes)?;
    Ok(bytes)
}

/// New lines of a text that was split at its newlines. They share its bytes.
pub fn split_text(alloc: Global, mut text: Bytes) -> Result<Vec<Line>, AllocError>
    ensures value { IfOk result (λ lines. lines.items ≡ map plain_line (split_at_newlines text)) }
{
    if is_one_line(text.as_slice()) {
        let line = Line::from_bytes(alloc, text)?;
        let mut lines = Vec::with_capacity(alloc, 1)?;
        lines.push_reserved(line);
        return Ok(lines);
    }
    text.push(b'\n')?;
    file_lines(alloc, FileLines::new(alloc, text)?)
}

/// New lines, those of a file.
pub fn file_lines(alloc: Global, mut file: FileLines) -> Result<Vec<Line>, AllocError>
    ensures value { IfOk result (λ lines. lines.items ≡ map plain_line (lines_of file)) }
{
    let mut lines = Vec::new(alloc);
    while let Some(line) = file.next_line()? {
        lines.push(line)?;
    }
    Ok(lines)
}

/// A new line of all the bytes of a block.
pub fn join_block<S: LineStore>(
    alloc: Global,
    from: usize,
    to: usize,
    store: &S,
) -> Result<Line, AllocError>
    requires order { from ≤ to }
    requires last { to ≤ length (S.lines store.now) }
    ensures value { IfOk result (λ line. line ≡ plain_line (concat (texts (block from to (S.lines store.now))))) }
{
    let mut bytes = Bytes::new(alloc);
    bytes.reserve(text_size(from, to, store))?;
    for i in from..to {
        bytes.extend_from_slice(store.text(i))?;
    }
    Line::from_bytes(alloc, bytes)
}

/// How many bytes the lines of a block have, or the greatest `usize` where that is more.
fn text_size<S: LineStore>(from: usize, to: usize, store: &S) -> usize
    requires order { from ≤ to }
    requires last { to ≤ length (S.lines store.now) }
    ensures value { result ≡ min (length (concat (texts (block from to (S.lines store.now))))) (2 ^ 64 - 1) }
{
    let mut size: usize = 0;
    for i in from..to {
        size = size.saturating_add(store.text(i).len());
    }
    size
}

/// Puts new lines in place of a block, which is handed back. Where there is no room for that, the store is as before.
pub fn exchange<S: LineStore>(
    alloc: Global,
    from: usize,
    to: usize,
    lines: Vec<Line>,
    store: &mut S,
) -> Result<Block, AllocError>
    requires order { from ≤ to }
    requires last { to ≤ length (S.lines store.old) }
    requires new { AreNew lines.items }
    ensures taken { IfOk result (λ taken. taken ≡ texts (block from to (S.lines store.old))) }
    ensures put { OnOk result (S.lines store.new ≡ exchanged from to lines.items (S.lines store.old)) }
    ensures unchanged { OnErr result (S.lines store.new ≡ S.lines store.old) }
{
    if to - from == 1 && lines.len() == 1 {
        return exchange_one(from, lines, store);
    }
    let new = Block::from_lines(alloc, lines)?;
    match store.exchange_block(from, to, new) {
        Ok(taken) => Ok(taken),
        Err(_refused) => Err(AllocError),
    }
}

/// Puts one new line in place of another, which is handed back. No other line moves.
fn exchange_one<S: LineStore>(
    at: usize,
    mut lines: Vec<Line>,
    store: &mut S,
) -> Result<Block, AllocError>
    requires place { at < length (S.lines store.old) }
    requires one { length lines.items ≡ 1 }
    requires new { AreNew lines.items }
    ensures taken { IfOk result (λ taken. taken ≡ texts (block at (at + 1) (S.lines store.old))) }
    ensures put { OnOk result (S.lines store.new ≡ exchanged at (at + 1) lines.items (S.lines store.old)) }
    ensures unchanged { OnErr result (S.lines store.new ≡ S.lines store.old) }
{
    let Some(line) = lines.pop() else {
        unreachable!()
    };
    match store.exchange(at, line) {
        Ok(before) => Ok(Block::of(before)),
        Err(_refused) => Err(AllocError),
    }
}

/// Puts the lines of a block in place of another, which is handed back. Where there is no room for that the new one comes back, and the
/// store is as before. No other line moves where a single one comes in place of another.
pub fn exchange_block<S: LineStore>(
    from: usize,
    to: usize,
    new: Block,
    store: &mut S,
) -> Result<Block, Block>
    requires order { from ≤ to }
    requires last { to ≤ length (S.lines store.old) }
    ensures taken { IfOk result (λ taken. taken ≡ texts (block from to (S.lines store.old))) }
    ensures put { OnOk result (S.lines store.new ≡ exchanged from to (map plain_line new) (S.lines store.old)) }
    ensures handed_back { IfErr result (λ back. back ≡ new) }
    ensures unchanged { OnErr result (S.lines store.new ≡ S.lines store.old) }
{
    if to - from == 1 {
        return exchange_line(from, to, new, store);
    }
    store.exchange_block(from, to, new)
}

/// The same for one line.
fn exchange_line<S: LineStore>(
    from: usize,
    to: usize,
    new: Block,
    store: &mut S,
) -> Result<Block, Block>
    requires one { to ≡ from + 1 }
    requires last { to ≤ length (S.lines store.old) }
    ensures taken { IfOk result (λ taken. taken ≡ texts (block from to (S.lines store.old))) }
    ensures put { OnOk result (S.lines store.new ≡ exchanged from to (map plain_line new) (S.lines store.old)) }
    ensures handed_back { IfErr result (λ back. back ≡ new) }
    ensures unchanged { OnErr result (S.lines store.new ≡ S.lines store.old) }
{
    match new.into_line() {
        Ok(line) => match store.exchange(from, line) {
            Ok(before) => Ok(Block::of(before)),
            Err(refused) => Err(Block::of(refused)),
        },
        Err(new) => store.exchange_block(from, to, new),
    }
}

/// Puts copies of the lines of a block, which share their bytes, after line `target`, which may be one of them. After an `Err`
/// the store is as before.
pub fn copy_block<S: LineStore>(
    from: usize,
    to: usize,
    target: usize,
    store: &mut S,
) -> Result<(), AllocError>
    requires order { from ≤ to }
    requires last { to ≤ length (S.lines store.old) }
    requires target { target ≤ length (S.lines store.old) }
    ensures copied { OnOk result
        (S.lines store.new ≡ inserted target (map plain_line (texts (block from to (S.lines store.old)))) (S.lines store.old)) }
    ensures no_fewer { length (S.lines store.old) ≤ length (S.lines store.new) }
{
    store.open(to)?;
    let copies = store.copy_block(from, to)?;
    match store.exchange_block(target, target, copies) {
        Ok(_none) => Ok(()),
        Err(_refused) => Err(AllocError),
    }
}

/// Carries the lines of a span after line `target`, which is none of them, with their letters, and tells the line of the
/// others after which they stand then. After an `Err` the store is as before.
pub fn carry<S: LineStore>(span: Span, target: usize, store: &mut S) -> Result<usize, AllocError>
    requires first { 1 ≤ span.first }
    requires order { span.first ≤ span.last }
    requires last { span.last ≤ length (S.lines store.old) }
    requires target { target ≤ length (S.lines store.old) }
    requires beside { span.first ≤ target → span.last < target }
    ensures place { IfOk result (λ place. place_beside (span_value span) target ≡ Ok place) }
    ensures carried { IfOk result (λ place. S.lines store.new ≡ carried (span.first - 1) span.last place (S.lines store.old)) }
    ensures within { IfOk result (λ place. place + (span.last - (span.first - 1)) ≤ max span.last target) }
    ensures unchanged { OnErr result (S.lines store.new ≡ S.lines store.old) }
{
    let from = span.first - 1;
    let place = if target <= from {
        target
    } else {
        target - (span.last - from)
    };
    store.carry(from, span.last, place)?;
    Ok(place)
}
