//! A chain of landmarks as a person writes it.

ghost use Rattle.std.specs.Prelude.{◌≡◌, ◌≢◌, ◌≤◌, length, nat_eq, drop, IsTrue, MatchResult, MatchOption, IfErr, IfOk};
ghost use Rattle.ed_base.specs.Lines.{newline, IsLine};
ghost use Rattle.ed_syntax.specs.spelling.Characters.{begins};
ghost use Rattle.landmarks.specs.Spelled.{SpellsLandmarks, SpellsChain, NoChain};
ghost use Rattle.landmarks.specs.ChainFaults.{IsFaultIn};
ghost use Rattle.landmarks.specs.FaultPlaces.{fault_in};
ghost use Rattle.landmarks.specs.Stops.{StopsIn, Unless, NoLandmarks};

use crate::Landmark;
use crate::chain_fault::{ChainFault, ChainWrong, Stop};
use crate::parts::landmark;
use crate::words::after_sign;
use ed_syntax::after_blanks;
use std::alloc::Global;

/// The chain of landmarks that a text spells, or its first fault from the left. It takes time linear in the text, but for the sets of
/// patterns and the reading of each pattern.
pub fn read_chain(alloc: Global, text: &[u8]) -> Result<Vec<Landmark>, ChainFault>
    ensures exact { MatchResult result (λ chain. SpellsChain text.now chain.items)
        (λ fault. fault ≢ ChainFault.Memory → NoChain text.now) }
    ensures told { IfErr result (IsFaultIn text.now) }
{
    if let Some(place) = newline_in(text) {
        return Err(ChainFault::Wrong(place, ChainWrong::Newline));
    }
    match landmarks(alloc, text) {
        Ok(chain) => Ok(chain),
        Err(stop) => Err(fault_in(text, stop)),
    }
}

/// The fault of a text at which a reader of its parts stopped, with its place from the front.
fn fault_in(text: &[u8], stop: Stop) -> ChainFault
    ensures value { result ≡ fault_in (length text.now) stop }
{
    match stop {
        Stop::Wrong(what, left) => ChainFault::Wrong(text.len().saturating_sub(left), what),
        Stop::Memory => ChainFault::Memory,
    }
}

/// The place of the first newline.
fn newline_in(text: &[u8]) -> Option<usize>
    ensures value { MatchOption result (IsLine text.now)
        (λ place. (place ≤ length text.now) × IsTrue (begins (nat_eq newline) (drop place text.now))) }
{
    for (place, byte) in text.iter().enumerate() {
        if *byte == b'\n' {
            return Some(place);
        }
    }
    None
}

/// Landmarks with `;` between them.
fn landmarks(alloc: Global, text: &[u8]) -> Result<Vec<Landmark>, Stop>
    ensures spelled { MatchResult result (λ chain. SpellsLandmarks text.now chain.items) (Unless (NoLandmarks text.now)) }
    ensures told { IfErr result (StopsIn text.now) }
{
    let mut chain = Vec::new(alloc);
    let mut left = text;
    'landmarks: loop {
        let (landmark, rest) = landmark(alloc, left)?;
        chain.push(landmark)?;
        let here = after_blanks(rest);
        if here.is_empty() {
            return Ok(chain);
        }
        match after_sign(rest, b';') {
            Some(more) => left = more,
            None => return Err(Stop::Wrong(ChainWrong::End, here.len())),
        }
    }
}
