//! Facts of lines beside the zone: of the line that a name numbers, and of the lines between two names.

mod assigned;
mod backward;
mod carried;
mod copies;
pub(crate) mod edited;
mod forward;
pub(crate) mod found;
mod known;
pub(crate) mod new_lines;
mod order;
mod pruned;
pub(crate) mod rewritten;
mod substituted;

ghost use Rattle.std.specs.Prelude.{◌≡◌, ◌<◌, ◌↔◌, [], IsTrue, IfOk, OnOk, OnErr};
ghost use Rattle.ed_rules.specs.facts.Facts.{no_facts};
ghost use Rattle.ed_rules.specs.facts.FoundLines.{without, with_answer, with_match, with_stretch};

pub use assigned::{assign, move_by};
pub use backward::search_backward;
use ed_base::Bytes;
pub use forward::search_forward;
pub use found::is_witnessed;
pub(crate) use found::matches_it;
pub(crate) use known::{are_same, is_at_most};
use std::alloc::{AllocError, Global};
use std::marker::Model;
use zones::Name;

/// The line that a name numbers matches a pattern, or it doesn't.
#[derive(Debug, Drop)]
pub struct KnownLine {
    pub name: Name,
    pub pattern: Bytes,
    pub matches: bool,
}

impl Model for KnownLine {
    ghost use Rattle.std.specs.Prelude.{◌<◌};
    ghost use Rattle.ed_rules.specs.facts.Facts.{LineFact};

    ghost Value = { LineFact };

    ghost view = { λ fact. record { name = fact.name; pattern = fact.pattern; matches = fact.matches } };

    ghost invariant = { λ fact. fact.name < 32 };
}

/// No line between two names matches a pattern. The names go by their places, or are [`ClearStretch::END`].
#[derive(Debug, Drop)]
pub struct ClearStretch {
    pub after: u8,
    pub before: u8,
    pub pattern: Bytes,
}

impl Model for ClearStretch {
    ghost use Rattle.std.specs.Prelude.{◌<◌};
    ghost use Rattle.ed_rules.specs.facts.Facts.{Stretch};

    ghost Value = { Stretch };

    ghost view = { λ stretch. record { after = stretch.after; before = stretch.before; pattern = stretch.pattern } };

    ghost invariant = { λ stretch. (stretch.after < 33) × (stretch.before < 33) };
}

impl ClearStretch {
    /// One more than the last line, among the names of a stretch.
    pub const END: u8 = 32;
}

/// What is known of lines.
#[derive(Debug, Drop)]
pub struct LineFacts {
    pub lines: Vec<KnownLine>,
    pub clear: Vec<ClearStretch>,
}

impl Model for LineFacts {
    ghost use Rattle.ed_rules.specs.facts.Facts.{Facts};

    ghost Value = { Facts };

    ghost view = { λ facts. record { lines = facts.lines.items; clear = facts.clear.items } };
}

/// The place of a name among those of a stretch.
pub fn edge_of(x: Name) -> u8
    ensures value { result ≡ x }
    ensures in_range { result < 32 }
{
    x.place() as u8
}

impl LineFacts {
    /// Nothing is known.
    pub fn none(alloc: Global) -> LineFacts
        ensures value { result ≡ no_facts }
    {
        LineFacts {
            lines: Vec::new(alloc),
            clear: Vec::new(alloc),
        }
    }

    /// Whether nothing is known.
    pub fn are_none(&self) -> bool
        ensures exact { IsTrue result ↔ (self.now ≡ no_facts) }
    {
        self.lines.is_empty() && self.clear.is_empty()
    }

    /// Forgets what is known of a name's line, and of the lines from it or up to it.
    pub fn forget(&mut self, x: Name)
        ensures value { self.new ≡ without x self.old }
    {
        let edge = edge_of(x);
        self.lines.retain(|fact| edge_of(fact.name) != edge);
        self.clear
            .retain(|stretch| stretch.after != edge && stretch.before != edge);
    }

    /// The line x matches the pattern, or it doesn't. After an `Err` all is as it was.
    pub(crate) fn add_answer(
        &mut self,
        x: Name,
        pattern: &[u8],
        matches: bool,
    ) -> Result<(), AllocError>
        ensures value { OnOk result (self.new ≡ with_answer x pattern.now matches self.old) }
        ensures unchanged { OnErr result (self.new ≡ self.old) }
    {
        let pattern = Bytes::from_slice(*self.lines.allocator(), pattern)?;
        let fact = KnownLine {
            name: x,
            pattern,
            matches,
        };
        self.lines.insert(0, fact)?;
        Ok(())
    }

    /// The line x matches the pattern. After an `Err` all is as it was.
    pub(crate) fn add_match(&mut self, x: Name, pattern: &[u8]) -> Result<(), AllocError>
        ensures value { OnOk result (self.new ≡ with_match x pattern.now self.old) }
        ensures unchanged { OnErr result (self.new ≡ self.old) }
    {
        self.add_answer(x, pattern, true)
    }

    /// No line between these two matches the pattern. After an `Err` all is as it was.
    pub(crate) fn add_stretch(
        &mut self,
        after: u8,
        before: u8,
        pattern: &[u8],
    ) -> Result<(), AllocError>
        requires after { after < 33 }
        requires before { before < 33 }
        ensures value { OnOk result (self.new ≡ with_stretch after before pattern.now self.old) }
        ensures unchanged { OnErr result (self.new ≡ self.old) }
    {
        let pattern = Bytes::from_slice(*self.clear.allocator(), pattern)?;
        let stretch = ClearStretch {
            after,
            before,
            pattern,
        };
        self.clear.insert(0, stretch)?;
        Ok(())
    }
}
