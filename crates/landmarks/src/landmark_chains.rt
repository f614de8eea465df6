//! Chains of landmarks that a contract sees as a list.

ghost use Rattle.std.specs.Prelude.{◌≡◌, ◌<◌, [], ◌++◌, length, remove, IfOk, OnOk};

use crate::LandmarkChain;
use std::alloc::{AllocError, Global};
use std::marker::Model;

/// Chains of landmarks, in their order. It keeps the allocator that made it.
#[derive(Debug, Drop)]
pub struct LandmarkChains {
    chains: Vec<LandmarkChain>,
}

impl Model for LandmarkChains {
    ghost use Rattle.std.specs.Prelude.{List};
    ghost use Rattle.landmarks.specs.ChainValues.{ChainValue};

    ghost Value = { List ChainValue };

    ghost view = { λ c. c.chains.items };
}

impl LandmarkChains {
    /// No chains. It takes no memory.
    pub fn none(alloc: Global) -> Self
        ensures value { result ≡ [] }
    {
        LandmarkChains {
            chains: Vec::new(alloc),
        }
    }

    /// The chains of a vector. It takes no memory.
    pub fn from_vec(chains: Vec<LandmarkChain>) -> Self
        ensures value { result ≡ chains.items }
    {
        LandmarkChains { chains }
    }

    /// A copy of these chains.
    pub fn from_slice(alloc: Global, chains: &[LandmarkChain]) -> Result<Self, AllocError>
        ensures value { IfOk result (λ copy. copy ≡ chains.now) }
    {
        let mut copies = Vec::with_capacity(alloc, chains.len())?;
        for chain in chains {
            copies.push(chain.try_copy()?)?;
        }
        Ok(LandmarkChains { chains: copies })
    }

    /// The chains as a vector. It takes no memory.
    pub fn into_vec(self) -> Vec<LandmarkChain>
        ensures value { result.items ≡ self }
    {
        let LandmarkChains { chains } = self;
        chains
    }

    pub fn as_slice(&self) -> &[LandmarkChain]
        ensures value { result.now ≡ self.now }
    {
        self.chains.as_slice()
    }

    /// These chains, and others after them.
    pub fn followed_by(self, others: LandmarkChains) -> Result<Self, AllocError>
        ensures value { IfOk result (λ all. all ≡ self ++ others) }
    {
        let LandmarkChains { mut chains } = self;
        let LandmarkChains { chains: mut more } = others;
        chains.append(&mut more)?;
        Ok(LandmarkChains { chains })
    }

    /// A copy of all but the one at a place.
    pub fn without(&self, place: usize) -> Result<Self, AllocError>
        requires within { place < length self.now }
        ensures value { IfOk result (λ others. others ≡ remove self.now place) }
    {
        let LandmarkChains { mut chains } = self.try_copy()?;
        chains.remove(place);
        Ok(LandmarkChains { chains })
    }

    /// Equal chains, made by the same allocator.
    pub fn try_copy(&self) -> Result<Self, AllocError>
        ensures value { IfOk result (λ copy. copy ≡ self.now) }
    {
        LandmarkChains::from_slice(*self.chains.allocator(), self.as_slice())
    }
}
