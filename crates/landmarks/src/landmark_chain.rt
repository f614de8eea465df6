//! A chain of landmarks with the text that spells it.

ghost use Rattle.std.specs.Prelude.{◌≡◌, ◌≢◌, MatchResult, IfOk, IfErr};
ghost use Rattle.landmarks.specs.declared.chain_fault.ChainFault.{ChainFault};
ghost use Rattle.landmarks.specs.Spelled.{SpellsChain, NoChain};
ghost use Rattle.landmarks.specs.ChainFaults.{IsFaultIn};

use crate::{ChainFault, Landmark, read_chain};
use ed_base::Bytes;
use std::alloc::{AllocError, Global};
use std::marker::Model;

/// Equal landmarks.
fn copies(alloc: Global, landmarks: &[Landmark]) -> Result<Vec<Landmark>, AllocError>
    ensures value { IfOk result (λ copies. copies.items ≡ landmarks.now) }
{
    let mut copies = Vec::with_capacity(alloc, landmarks.len())?;
    for landmark in landmarks {
        copies.push(landmark.try_copy()?)?;
    }
    Ok(copies)
}

/// A chain of landmarks as somebody stated it: its text, and the landmarks that the text spells.
#[derive(Debug, Drop)]
pub struct LandmarkChain {
    text: Bytes,
    landmarks: Vec<Landmark>,
}

impl Model for LandmarkChain {
    ghost use Rattle.landmarks.specs.ChainValues.{ChainValue};
    ghost use Rattle.landmarks.specs.Spelled.{SpellsChain};

    ghost Value = { ChainValue };

    ghost view = { λ c. record { text = c.text; landmarks = c.landmarks.items } };

    ghost invariant = { λ c. SpellsChain c.text c.landmarks.items };
}

impl LandmarkChain {
    /// The chain that a text spells, or why it spells none, as [`read_chain`] tells it.
    pub fn read(alloc: Global, text: Bytes) -> Result<Self, ChainFault>
        ensures exact { MatchResult result (λ chain. (chain.text ≡ text) × SpellsChain text chain.landmarks)
            (λ fault. fault ≢ ChainFault.Memory → NoChain text) }
        ensures told { IfErr result (IsFaultIn text) }
    {
        let landmarks = read_chain(alloc, text.as_slice())?;
        Ok(LandmarkChain { text, landmarks })
    }

    /// The text, which spells the landmarks.
    pub fn text(&self) -> &Bytes
        ensures value { result.now ≡ self.now.text }
        ensures spelled { SpellsChain self.now.text self.now.landmarks }
    {
        &self.text
    }

    pub fn landmarks(&self) -> &[Landmark]
        ensures value { result.now ≡ self.now.landmarks }
    {
        self.landmarks.as_slice()
    }

    /// An equal chain, made by the same allocators.
    #[tactic(auto, using(crate::proofs::SameChains::spells_same))]
    pub fn try_copy(&self) -> Result<Self, AllocError>
        ensures value { IfOk result (λ copy. copy ≡ self.now) }
    {
        let landmarks = copies(*self.landmarks.allocator(), self.landmarks.as_slice())?;
        let text = self.text.try_copy()?;
        Ok(Self { text, landmarks })
    }
}
