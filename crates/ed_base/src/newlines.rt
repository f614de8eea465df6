//! Newlines counted in blocks of bytes.
ghost use Rattle.std.specs.Prelude.{◌≡◌, ◌+◌, ◌≤◌, count_by, drop, length, take};
ghost use Rattle.memchr.specs.Find.{is_byte};
ghost use Rattle.ed_base.specs.Lines.{newline};

use memchr::memchr_iter;
use std::simd::prelude::*;

// How many bytes are compared at once.
const BLOCK: usize = 64;

/// How many of the bytes are newlines. It takes no memory.
pub(crate) fn count_newlines(bytes: &[u8]) -> usize
    ensures value { result ≡ count_by (is_byte newline) bytes.now }
    ensures bound { result ≤ length bytes.now }
{
    let mut count: usize = 0;
    let mut place: usize = 0;
    'steps: while bytes.len() - place >= BLOCK {
        count += block_newlines(bytes, place);
        place += BLOCK;
    }
    count + memchr_iter(b'\n', &bytes[place..]).count()
}

/// How many of the bytes of the block at a place are newlines.
fn block_newlines(bytes: &[u8], place: usize) -> usize
    requires within { place + 64 ≤ length bytes.now }
    ensures value { result ≡ count_by (is_byte newline) (take 64 (drop place bytes.now)) }
    ensures bound { result ≤ 64 }
{
    let block = u8x64::from_slice(&bytes[place..]);
    block.simd_eq(u8x64::splat(b'\n')).to_bitmask().count_ones() as usize
}
