//! A chain of landmarks as it is written.

ghost use Rattle.std.specs.Prelude.{IfOk, IfSome};
ghost use Rattle.landmarks.specs.Spelled.{SpellsChain};

use crate::quoting::push_key;
use crate::sameness::are_same;
use crate::{ChainFault, Landmark, Which, read_chain};
use ed_base::{Bytes, Texts, push_number};
use std::alloc::{AllocError, Global};

/// The text of a chain, which `read_chain` reads as the same: one blank between words, no `gap 1` and no `tail 0`, patterns in their order
/// and between slashes, or between vertical lines where slashes can't spell them. `None` where that text spells another chain or none, as of
/// landmarks that no line can be. It takes the time of reading it, since what is written is read again.
pub fn write_chain(alloc: Global, chain: &[Landmark]) -> Result<Option<Bytes>, AllocError>
    ensures spelled { IfOk result (λ written. IfSome written (λ text. SpellsChain text chain.now)) }
{
    let mut text = Bytes::new(alloc);
    push_chain(alloc, &mut text, chain)?;
    match read_chain(alloc, text.as_slice()) {
        Ok(read) => if are_same(read.as_slice(), chain) {
            Ok(Some(text))
        } else {
            Ok(None)
        },
        Err(ChainFault::Memory) => Err(AllocError),
        Err(ChainFault::Wrong(_, _)) => Ok(None),
    }
}

fn push_chain(alloc: Global, out: &mut Bytes, chain: &[Landmark]) -> Result<(), AllocError> {
    match chain {
        [first, later @ ..] => {
            push_landmark(alloc, out, first)?;
            push_later(alloc, out, later)
        }
        [] => Ok(()),
    }
}

/// Landmarks after the first one.
fn push_later(alloc: Global, out: &mut Bytes, later: &[Landmark]) -> Result<(), AllocError> {
    for landmark in later {
        out.extend_from_slice(b"; ")?;
        push_landmark(alloc, out, landmark)?;
    }
    Ok(())
}

fn push_landmark(alloc: Global, out: &mut Bytes, landmark: &Landmark) -> Result<(), AllocError> {
    push_none(alloc, out, &landmark.none)?;
    push_which(alloc, out, &landmark.which)?;
    push_distance(out, b" gap ", 1, landmark.gap)?;
    push_distance(out, b" tail ", 0, landmark.tail)?;
    push_tests(alloc, out, b" & ", &landmark.also)?;
    push_tests(alloc, out, b" & not ", &landmark.lacks)
}

/// Patterns that no line between may match.
fn push_none(alloc: Global, out: &mut Bytes, none: &Texts) -> Result<(), AllocError> {
    for pattern in none.members() {
        out.extend_from_slice(b"no ")?;
        push_key(alloc, out, pattern.as_slice())?;
        out.push(b' ')?;
    }
    Ok(())
}

fn push_which(alloc: Global, out: &mut Bytes, which: &Which) -> Result<(), AllocError> {
    match which {
        Which::First(pattern) => push_key(alloc, out, pattern.as_slice()),
        Which::Only(pattern) => {
            out.extend_from_slice(b"only ")?;
            push_key(alloc, out, pattern.as_slice())
        }
        Which::Numbered(number) => push_number(out, u64::from(*number)),
    }
}

/// A distance after its word, unless it goes without saying.
fn push_distance(out: &mut Bytes, word: &[u8], unsaid: u32, n: u32) -> Result<(), AllocError> {
    if n == unsaid {
        return Ok(());
    }
    out.extend_from_slice(word)?;
    push_number(out, u64::from(n))
}

/// Patterns that are matched, or that aren't, each after its word.
fn push_tests(
    alloc: Global,
    out: &mut Bytes,
    word: &[u8],
    patterns: &Texts,
) -> Result<(), AllocError> {
    for pattern in patterns.members() {
        out.extend_from_slice(word)?;
        push_key(alloc, out, pattern.as_slice())?;
    }
    Ok(())
}
