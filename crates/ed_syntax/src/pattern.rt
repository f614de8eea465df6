//! The patterns of a script.
ghost use Rattle.std.specs.Prelude.{◌≡◌, ◌≢◌, Ok, Err, IfOk, IfErr, IsOk, IsTrue, ◌↔◌};
ghost use Rattle.bre_parse.specs.Bre.{bre_tree};
ghost use Rattle.bre_parse.specs.Grammar.{pattern};
ghost use Rattle.bre_parse.specs.declared.fault.BreFault.TheVariants.{Memory};

use bre_parse::Bre;
use bre_parse::fault::BreFault;
use ed_base::Bytes;
use std::alloc::{AllocError, Global};
use std::fmt;
use std::marker::Model;

/// A basic regular expression with its text (XBD 9.3). Contracts see the text alone: it has one tree.
#[derive(Drop)]
pub struct Pattern {
    text: Bytes,
    bre: Bre,
}

impl Model for Pattern {
    ghost use Rattle.std.specs.Prelude.{◌≡◌, ℕ, List, Ok};
    ghost use Rattle.bre_parse.specs.Bre.{bre_tree};
    ghost use Rattle.bre_parse.specs.Grammar.{pattern};

    ghost Value = { List ℕ };

    ghost view = { λ p. p.text };

    ghost invariant = { λ p. pattern p.text ≡ Ok (bre_tree p.bre) };
}

impl Pattern {
    /// Reads a pattern: all of the text.
    pub fn read(alloc: Global, text: Bytes) -> Result<Pattern, BreFault>
        ensures value { IfOk result (λ p. p ≡ text) }
        ensures readable { IfOk result (λ p. IsOk (pattern text)) }
        ensures first_fault { IfErr result (λ fault. fault ≢ Memory → pattern text ≡ Err fault) }
    {
        let bre = Bre::read(alloc, text.as_slice())?;
        Ok(Pattern { text, bre })
    }

    /// Its text, without delimiters.
    pub fn text(&self) -> &[u8]
        ensures value { result.now ≡ self.now }
    {
        self.text.as_slice()
    }

    /// What the text means.
    pub fn bre(&self) -> &Bre
        ensures value { pattern self.now ≡ Ok (bre_tree result.now) }
    {
        &self.bre
    }

    /// An equal pattern, made by the same allocator.
    pub fn try_copy(&self) -> Result<Pattern, AllocError>
        ensures value { IfOk result (λ copy. copy ≡ self.now) }
    {
        Ok(Pattern {
            text: self.text.try_copy()?,
            bre: self.bre.try_copy()?,
        })
    }
}

impl PartialEq for Pattern {
    ghost use Rattle.std.specs.Prelude.{nat_eq};
    ghost use Rattle.std.specs.Cmp.Lexicographic.{pointwise};

    ghost eq = { λ a b. pointwise nat_eq a b };

    fn eq(&self, other: &Self) -> bool {
        self.text == other.text
    }

    ghost use Rattle.std.proofs.Common.{rules};

    ghost laws = { Prim.search rules };
}

impl Eq for Pattern {
    ghost use Rattle.std.proofs.Common.{rules};

    ghost laws = { Prim.search rules };
}

impl fmt::Debug for Pattern {
    fn fmt<W: fmt::Write>(&self, f: &mut fmt::Formatter<W>) -> fmt::Result {
        self.text.fmt(f)
    }
}
