//! Blocks that take the lines of others after their own.
ghost use Rattle.std.specs.Prelude.{◌≡◌, ◌+◌, ◌≤◌, ◌++◌, drop, length, vec_capacity, IfErr, OnErr, OnOk};
ghost use Rattle.ed_base.specs.Buffer.{texts};

use crate::{BareLine, Block};
use std::alloc::Global;
use std::mem;

/// Takes the first so many lines away. It takes no memory.
fn drop_front(lines: &mut Vec<BareLine>, count: usize)
    requires within { count ≤ length lines.old.items }
    ensures left { lines.new.items ≡ drop count lines.old.items }
{
    let left = lines.as_slice().len() - count;
    lines.rotate_left(count);
    lines.truncate(left);
}

/// Puts lines after others, among which there is room for them.
fn push_all(list: &mut Vec<BareLine>, lines: &mut Vec<BareLine>)
    requires room { length lines.old.items + length list.old.items ≤ vec_capacity lines.old }
    ensures pushed { lines.new.items ≡ lines.old.items ++ list.old.items }
{
    match lines.append(list) {
        Ok(()) => {}
        Err(_no_memory) => unreachable!(),
    }
}

/// Puts the lines of a block after others, all but the first so many. Where there is no memory for that it comes back, and the others
/// are as before.
fn append_lines(
    alloc: Global,
    passed: usize,
    more: Block,
    lines: &mut Vec<BareLine>,
) -> Result<(), Block>
    requires enough { passed ≤ length more }
    ensures appended { OnOk result (texts lines.new.items ≡ texts lines.old.items ++ drop passed more) }
    ensures handed_back { IfErr result (λ back. back ≡ more) }
    ensures unchanged { OnErr result (lines.new.items ≡ lines.old.items) }
{
    let mut list = more.into_lines(alloc)?;
    match lines.reserve(list.as_slice().len()) {
        Ok(()) => {
            drop_front(&mut list, passed);
            push_all(&mut list, lines);
            Ok(())
        }
        Err(_no_memory) => Err(Block::of_lines(list)),
    }
}

impl Block {
    /// Puts the lines of another block after its own, all but the first so many. Where that one has fewer, or there is no memory, it
    /// comes back, and this one is as before.
    pub fn append(&mut self, alloc: Global, passed: usize, more: Block) -> Result<(), Block>
        ensures appended { OnOk result (self.new ≡ self.old ++ drop passed more) }
        ensures enough { OnOk result (passed ≤ length more) }
        ensures handed_back { IfErr result (λ back. back ≡ more) }
        ensures unchanged { OnErr result (self.new ≡ self.old) }
    {
        if more.len() < passed {
            return Err(more);
        }
        match mem::replace(self, Block::new(alloc)).into_lines(alloc) {
            Ok(mut lines) => {
                let appended = append_lines(alloc, passed, more, &mut lines);
                *self = Block::of_lines(lines);
                appended
            }
            Err(own) => {
                *self = own;
                Err(more)
            }
        }
    }
}
