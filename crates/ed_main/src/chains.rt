//! The chains of landmarks that words give.
ghost use Rattle.std.specs.Prelude.{◌≡◌, ◌≢◌, ◌≤◌, ◌↔◌, ℕ, [], map, Option, IfErr, IfOk, IfSome, IsTrue};
ghost use Rattle.ed_rules.specs.LineBounds.{most_lines};
ghost use Rattle.ed_calls.specs.Landmarked.{AreSpelled};
ghost use Rattle.ed_main.specs.Chains.{AreHad};
ghost use Rattle.ed_main.specs.Words.{IsAsked};

use crate::stderr::chain::{held_nowhere, wrong_chain};
use crate::words::WordsFault;
use ed_base::Bytes;
use hints::no_file_has;
use landmarks::{LandmarkChain, LandmarkChains, chains_are_spelled_once};
use std::alloc::Global;
use std::marker::Model;

/// Chains of landmarks, in the order in which words give them. Contracts see their texts, each of which spells one chain.
#[derive(Debug, Drop)]
pub struct Chains {
    chains: LandmarkChains,
}

impl Model for Chains {
    ghost use Rattle.std.specs.Prelude.{ℕ, List, All};
    ghost use Rattle.ed_calls.specs.Landmarked.{IsSpelled, texts_of};

    ghost Value = { List (List ℕ) };

    ghost view = { λ c. texts_of c.chains };

    ghost invariant = { λ c. All IsSpelled c.chains };
}

impl Chains {
    /// The chains that these texts spell, whose landmarks some file of so many lines at most may have. What is wrong is shown with this usage.
    pub(crate) fn read(
        alloc: Global,
        texts: &[&str],
        most: Option<u64>,
        usage: &str,
    ) -> Result<Chains, WordsFault>
        requires few { IfSome most (λ lines. lines ≤ most_lines) }
        ensures value { IfOk result (λ chains. chains ≡ map (λ text. text.now) texts.now) }
        ensures only_if_refused { IfErr result (λ fault. fault ≢ WordsFault.Memory →
            ¬ AreHad most (map (λ text. text.now) texts.now)) }
        ensures unasked { IfErr result (λ fault. ¬ IsAsked fault) }
    {
        chains_are_spelled_once();
        let chains = spelled_by(alloc, texts, usage)?;
        if no_file_has(alloc, chains.as_slice(), most)? {
            return Err(held_nowhere(alloc, texts, most, usage));
        }
        Ok(Chains { chains })
    }

    pub fn are_none(&self) -> bool
        ensures exact { IsTrue result ↔ (self.now ≡ []) }
    {
        self.chains.as_slice().is_empty()
    }

    /// The chains with their landmarks. It takes no memory.
    pub fn into_landmarks(self) -> LandmarkChains
        ensures value { AreSpelled self result }
    {
        let Chains { chains } = self;
        chains
    }
}

/// The chains that these texts spell, in their order.
fn spelled_by(alloc: Global, texts: &[&str], usage: &str) -> Result<LandmarkChains, WordsFault>
    ensures spelled { IfOk result (λ chains. AreSpelled (map (λ text. text.now) texts.now) chains) }
    ensures only_if_refused { IfErr result (λ fault. fault ≢ WordsFault.Memory →
        (most : Option ℕ) → ¬ AreHad most (map (λ text. text.now) texts.now)) }
    ensures unasked { IfErr result (λ fault. ¬ IsAsked fault) }
{
    let mut chains = Vec::new(alloc);
    for text in texts {
        let bytes = Bytes::from_slice(alloc, text.as_bytes())?;
        match LandmarkChain::read(alloc, bytes) {
            Ok(chain) => chains.push(chain)?,
            Err(fault) => return Err(wrong_chain(alloc, text.as_bytes(), fault, usage)),
        }
    }
    Ok(LandmarkChains::from_vec(chains))
}
