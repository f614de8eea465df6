//! The addresses of a command as they are evaluated, by what is known before it. No clause speaks of what is known after them.

use ed_base::Texts;
use ed_rules::{KeptState, LineFacts, assign, move_by, search_backward, search_forward};
use ed_syntax::{Address, Base, Pattern};
use std::alloc::{AllocError, Global};
use zones::{Name, Zone};

/// The pattern that is remembered, where only one may be.
fn only_remembered(state: &KeptState) -> Option<&[u8]> {
    match state.patterns().members() {
        [Some(text)] => Some(text.as_slice()),
        _ => None,
    }
}

/// The patterns of which something is told.
fn patterns_told(alloc: Global, facts: &LineFacts) -> Result<Texts, AllocError> {
    let mut told = Texts::none(alloc);
    for fact in &facts.lines {
        told.add(fact.pattern.as_slice())?;
    }
    for stretch in &facts.clear {
        told.add(stretch.pattern.as_slice())?;
    }
    Ok(told)
}

/// What is known of lines while addresses are evaluated.
#[derive(Drop)]
pub(crate) struct Evaluated<'a> {
    alloc: Global,
    pub zone: Zone,
    /// What is told of single lines, where they are followed.
    facts: Option<LineFacts>,
    /// The pattern that is remembered, where only one may be.
    remembered: Option<&'a [u8]>,
}

impl<'a> Evaluated<'a> {
    /// What is known before an address is evaluated.
    pub(crate) fn before(alloc: Global, state: &'a KeptState) -> Result<Self, AllocError> {
        let facts = if state.follows() {
            Some(state.facts().try_copy()?)
        } else {
            None
        };
        Ok(Evaluated {
            alloc,
            zone: state.zone(),
            facts,
            remembered: only_remembered(state),
        })
    }

    /// Sets a name to another one and an offset. Nothing more is told of its line.
    fn set(&mut self, name: Name, from: Name, offset: i128) {
        if let Some(facts) = &mut self.facts {
            facts.forget(name);
        }
        self.zone.set_wide(name, from, offset);
    }

    /// The current line becomes the one that a name stands for.
    pub(crate) fn go_to(&mut self, name: Name) -> Result<(), AllocError> {
        match &mut self.facts {
            Some(facts) => {
                let told = patterns_told(self.alloc, facts)?;
                assign(
                    self.alloc,
                    &mut self.zone,
                    facts,
                    Name::CURRENT_LINE,
                    name,
                    &told,
                )
            }
            None => {
                self.zone.set(Name::CURRENT_LINE, name, 0);
                Ok(())
            }
        }
    }

    /// Sets a name to a line that is searched for, and an offset. That there is one isn't asked.
    fn search(
        &mut self,
        name: Name,
        forward: bool,
        pattern: Option<&'a Pattern>,
        offset: i128,
    ) -> Result<(), AllocError> {
        if let Some(pattern) = pattern {
            self.remembered = Some(pattern.text());
        }
        match (&mut self.facts, self.remembered) {
            (Some(facts), Some(text)) => {
                if forward {
                    search_forward(self.alloc, &mut self.zone, facts, name, text)?;
                } else {
                    search_backward(self.alloc, &mut self.zone, facts, name, text)?;
                }
                move_by(&mut self.zone, facts, name, offset);
            }
            (facts, _) => {
                if let Some(facts) = facts {
                    facts.forget(name);
                }
                self.zone.forget(name);
                self.zone.guard(Name::ZERO, name, -1);
                self.zone.guard(name, Name::LAST_LINE, 0);
                self.zone.shift_wide(name, Some(offset), Some(offset));
            }
        }
        Ok(())
    }

    /// Sets a name to the line that a search finds, before its offset.
    pub(crate) fn find(&mut self, name: Name, base: &'a Base) -> Result<(), AllocError> {
        match base {
            Base::Forward(pattern) => self.search(name, true, pattern.as_ref(), 0),
            Base::Backward(pattern) => self.search(name, false, pattern.as_ref(), 0),
            _ => Ok(()),
        }
    }

    /// Sets a name to an address.
    pub(crate) fn place(&mut self, name: Name, address: &'a Address) -> Result<(), AllocError> {
        let offset = address.offset;
        match &address.base {
            Base::Number(number) => {
                self.set(name, Name::ZERO, i128::from(*number).saturating_add(offset));
            }
            Base::Current => self.set(name, Name::CURRENT_LINE, offset),
            Base::Last => self.set(name, Name::LAST_LINE, offset),
            Base::Marked(letter) => self.set(name, Name::of(*letter), offset),
            Base::Forward(pattern) => return self.search(name, true, pattern.as_ref(), offset),
            Base::Backward(pattern) => return self.search(name, false, pattern.as_ref(), offset),
        }
        Ok(())
    }
}
