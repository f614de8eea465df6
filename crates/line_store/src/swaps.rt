//! Blocks of lines that change places, in a list of any kind.
ghost use Rattle.std.specs.Prelude.{◌≡◌, ◌-◌, ◌≤◌, length, OnErr, OnOk};
ghost use Rattle.line_store.specs.Swaps.{swapped};

use crate::BareLines;
use std::alloc::AllocError;

/// The lines from place `low` up to `middle` and those from there up to `high` change places, in the shortest way that there is.
pub(crate) fn swap_blocks<L: BareLines>(
    lines: &mut L,
    low: usize,
    middle: usize,
    high: usize,
) -> Result<(), AllocError>
    requires first { low ≤ middle }
    requires second { middle ≤ high }
    requires last { high ≤ length (L.items lines.old) }
    ensures swapped { OnOk result (L.items lines.new ≡ swapped low middle high (L.items lines.old)) }
    ensures unchanged { OnErr result (L.items lines.new ≡ L.items lines.old) }
{
    if lines.swap_blocks(low, middle, high) {
        return Ok(());
    }
    swap_each(lines, low, middle, high)
}

/// The same line by line: each line of the shorter block is taken out and put where it belongs.
fn swap_each<L: BareLines>(
    lines: &mut L,
    low: usize,
    middle: usize,
    high: usize,
) -> Result<(), AllocError>
    requires first { low ≤ middle }
    requires second { middle ≤ high }
    requires last { high ≤ length (L.items lines.old) }
    ensures swapped { OnOk result (L.items lines.new ≡ swapped low middle high (L.items lines.old)) }
    ensures unchanged { OnErr result (L.items lines.new ≡ L.items lines.old) }
{
    lines.reserve((middle - low).min(high - middle))?;
    if middle - low <= high - middle {
        carry_down(lines, low, middle, high);
    } else {
        carry_up(lines, low, middle, high);
    }
    Ok(())
}

/// The lines of the second block go before the first block, the first line first. There is room for them.
fn carry_up<L: BareLines>(lines: &mut L, low: usize, middle: usize, high: usize)
    requires first { low ≤ middle }
    requires second { middle ≤ high }
    requires last { high ≤ length (L.items lines.old) }
    requires room { high - middle ≤ L.spare lines.old }
    ensures swapped { L.items lines.new ≡ swapped low middle high (L.items lines.old) }
{
    for i in middle..high {
        let line = lines.remove(i);
        match lines.insert(low + (i - middle), line) {
            Ok(()) => {}
            Err(_refused) => unreachable!(),
        }
    }
}

/// The lines of the first block go after the second block, the last line first. There is room for them.
fn carry_down<L: BareLines>(lines: &mut L, low: usize, middle: usize, high: usize)
    requires first { low ≤ middle }
    requires second { middle ≤ high }
    requires last { high ≤ length (L.items lines.old) }
    requires room { middle - low ≤ L.spare lines.old }
    ensures swapped { L.items lines.new ≡ swapped low middle high (L.items lines.old) }
{
    for i in (low..middle).rev() {
        let line = lines.remove(i);
        match lines.insert(high - (middle - i), line) {
            Ok(()) => {}
            Err(_refused) => unreachable!(),
        }
    }
}
