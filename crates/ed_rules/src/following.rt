//! What a run that follows single lines knows of them while addresses are evaluated.

ghost use Rattle.std.specs.Prelude.{◌≡◌, ◌==◌, ◌||◌, ◌&&◌, true, map, IfOk, OnOk, ◌<◌};
ghost use Rattle.std.specs.List.{filter};
ghost use Rattle.ed_rules.specs.Texts.{with_texts};
ghost use Rattle.ed_rules.specs.facts.Facts.{LineFact, Stretch, end};
ghost use Rattle.ed_rules.specs.facts.FoundLines.{known_as};
ghost use Rattle.ed_rules.specs.Following.{patterns_of, facts_set, set_to, is_spoken, may_name, spoken_facts, is_followed, only_pattern, found_by};

use crate::choices::Choices;
use crate::line_facts::{ClearStretch, LineFacts, is_witnessed, search_backward, search_forward};
use crate::marks::Marks;
use crate::state::State;
use ed_base::{Bytes, Texts};
use std::alloc::{AllocError, Global};
use zones::{Name, Zone};

/// Which way a search goes.
#[derive(Clone, Copy)]
pub(crate) enum Way {
    Forward,
    Backward,
}

/// Whether a name is that of no letter, or of a sure one.
fn may_name(marks: &Marks, x: Name) -> bool
    ensures value { result ≡ may_name marks.now x }
{
    match x.letter() {
        Some(letter) => marks.is_sure(letter),
        None => true,
    }
}

/// The same of a name of a stretch, which may be the end.
fn may_name_edge(marks: &Marks, edge: u8) -> bool
    requires in_range { edge < 33 }
    ensures value { result ≡ (edge == end || may_name marks.now edge) }
{
    edge == ClearStretch::END || may_name(marks, Name::from_place(usize::from(edge)))
}

/// The pattern, where one alone may be looked for.
pub(crate) fn only_pattern(possible: &Choices) -> Result<Option<Bytes>, AllocError>
    ensures value { IfOk result (λ only. only ≡ only_pattern possible.now) }
{
    let members = possible.members();
    if members.len() != 1 {
        return Ok(None);
    }
    match &members[0] {
        Some(text) => Ok(Some(text.try_copy()?)),
        None => Ok(None),
    }
}

/// x becomes the line that a search finds, where some line is known to match. After an `Err` some of it may be done.
pub(crate) fn find_by(
    alloc: Global,
    way: Way,
    zone: &mut Zone,
    facts: &mut LineFacts,
    x: Name,
    pattern: &[u8],
) -> Result<(), AllocError>
    ensures exact { OnOk result (known_as zone.new facts.new ≡ found_by way x pattern.now zone.old facts.old) }
{
    match way {
        Way::Forward => search_forward(alloc, zone, facts, x, pattern),
        Way::Backward => search_backward(alloc, zone, facts, x, pattern),
    }
}

impl LineFacts {
    fn add_patterns_of_lines(&self, patterns: &mut Texts) -> Result<(), AllocError>
        ensures value { OnOk result (patterns.new ≡ with_texts (map (λ (f : LineFact). f.pattern) self.now.lines) patterns.old) }
    {
        for fact in &self.lines {
            patterns.add(fact.pattern.as_slice())?;
        }
        Ok(())
    }

    fn add_patterns_of_stretches(&self, patterns: &mut Texts) -> Result<(), AllocError>
        ensures value { OnOk result (patterns.new ≡ with_texts (map (λ (s : Stretch). s.pattern) self.now.clear) patterns.old) }
    {
        for stretch in &self.clear {
            patterns.add(stretch.pattern.as_slice())?;
        }
        Ok(())
    }

    /// The patterns that they speak of.
    pub(crate) fn patterns(&self, alloc: Global) -> Result<Texts, AllocError>
        ensures value { IfOk result (λ patterns. patterns ≡ patterns_of self.now) }
    {
        let mut patterns = Texts::none(alloc);
        self.add_patterns_of_lines(&mut patterns)?;
        self.add_patterns_of_stretches(&mut patterns)?;
        Ok(patterns)
    }

    /// Forgets what names a letter that isn't sure.
    pub(crate) fn keep_spoken(&mut self, marks: &Marks)
        ensures value { self.new ≡ spoken_facts marks.now self.old }
    {
        self.lines.retain(|fact| may_name(marks, fact.name));
        self.clear.retain(|stretch| {
            may_name_edge(marks, stretch.after) && may_name_edge(marks, stretch.before)
        });
    }

    /// x becomes y plus an offset, as far as it is known of the lines that y names. After an `Err` some of it may be done.
    pub(crate) fn set_to(
        &mut self,
        alloc: Global,
        zone: &Zone,
        x: Name,
        y: Name,
        offset: i128,
    ) -> Result<(), AllocError>
        ensures value { OnOk result (self.new ≡ facts_set true x y offset zone.now self.old) }
    {
        let patterns = self.patterns(alloc)?;
        self.assign(alloc, zone, x, y, &patterns)?;
        self.move_by(x, offset);
        Ok(())
    }
}

impl State {
    /// x becomes y plus an offset. After an `Err` some of it may be done.
    pub(crate) fn set_to(&mut self, x: Name, y: Name, offset: i128) -> Result<(), AllocError>
        ensures exact { OnOk result (self.new ≡ set_to x y offset self.old) }
    {
        if self.follows {
            let alloc = self.patterns.allocator();
            self.facts.set_to(alloc, &self.zone, x, y, offset)?;
        }
        self.zone.set_wide(x, y, offset);
        Ok(())
    }

    /// Whether a line that is followed is known to match a pattern.
    pub(crate) fn is_followed(&self, pattern: &[u8]) -> bool
        ensures value { result ≡ is_followed self.now pattern.now }
    {
        self.follows && is_witnessed(&self.facts, pattern)
    }
}
