//! The addresses of a command, evaluated into the names of a zone, and what is needed of them.

ghost use Rattle.std.specs.Prelude.{◌≡◌, ◌<◌, pos, ◌+ℤ◌, Some, option_map, IfOk, OnOk};
ghost use Rattle.std.specs.List.{list_all};
ghost use Rattle.zones.specs.Limits.{clamp};
ghost use Rattle.zones.specs.Steps.{after_set};
ghost use Rattle.ed_syntax.specs.PublicTypes.{address_value, addresses_value, default_value};
ghost use Rattle.ed_rules.specs.Addresses.{is_always, is_found, in_buffer, set_from, set_number, found, with_found, searched, evaluated, addressed, standing, last_given, targeted, ranged};
ghost use Rattle.ed_rules.specs.Reaching.{Reaches};

use crate::choices::Choices;
use crate::following::{Way, find_by, only_pattern};
use crate::line_facts::move_by;
use crate::state::State;
use bre_parse::Bre;
use bre_parse::fault::BreFault;
use ed_base::{Bytes, Fault};
use ed_syntax::{Address, Addresses, Base, DefaultAddresses, Pattern};
use std::alloc::{AllocError, Global};
use zones::{Name, Zone};

/// Whether a pattern has a match in every line.
fn matches_always(pattern: &Pattern) -> bool
    ensures value { result ≡ is_always (Some pattern.now) }
{
    pattern.bre().always()
}

/// Whether a remembered pattern has a match in every line.
pub(crate) fn choice_matches_always(
    alloc: Global,
    choice: &Option<Bytes>,
) -> Result<bool, AllocError>
    ensures value { IfOk result (λ always. always ≡ is_always choice.now) }
{
    let Some(text) = choice else {
        return Ok(false);
    };
    match Bre::read(alloc, text.as_slice()) {
        Ok(bre) => Ok(bre.always()),
        Err(BreFault::Memory) => Err(AllocError),
        Err(_) => Ok(false),
    }
}

/// Some line, plus an offset.
#[tactic(auto, unfolding(crate::specs::Addresses::found))]
fn set_some_line(zone: &mut Zone, x: Name, offset: i128)
    ensures exact { zone.new ≡ found x offset zone.old }
{
    zone.forget(x);
    zone.guard(Name::ZERO, x, -1);
    zone.guard(x, Name::LAST_LINE, 0);
    zone.shift_wide(x, Some(offset), Some(offset));
}

/// No offset beyond this number makes a difference to a zone.
const FARTHEST: i128 = 4_000_000_000_000_000;

/// A number plus an offset, clamped as zones may have it.
fn clamped_sum(number: u32, offset: i128) -> i64
    ensures value { result ≡ clamp (pos number +ℤ offset) }
{
    if offset > FARTHEST {
        FARTHEST as i64
    } else if offset < -2 * FARTHEST {
        -(FARTHEST as i64)
    } else {
        zones::clamped(i128::from(number) + offset)
    }
}

/// Sets a name to a number plus an offset.
fn set_number(zone: &mut Zone, x: Name, number: u32, offset: i128)
    ensures exact { zone.new ≡ after_set zone.old x 0 (pos number +ℤ offset) }
{
    zones::offsets_may_be_clamped();
    let _well_formed = zone.bound(x, Name::ZERO);
    zone.set(x, Name::ZERO, clamped_sum(number, offset));
}

/// What stands for a command's own addresses: the second of `.,.` is set from the first.
pub(crate) fn standing(default: DefaultAddresses) -> Addresses
    ensures value { addresses_value result ≡ standing (default_value default) }
{
    match default {
        DefaultAddresses::CurrentTwice => DefaultAddresses::Current.addresses(),
        other => other.addresses(),
    }
}

impl State {
    /// The need that an address is from 0 to the last line.
    fn need_in_buffer(&self, x: Name) -> Result<(), Fault>
        ensures exact { Reaches result self.now (in_buffer x self.now) }
    {
        if self.zone.is_known(Name::ZERO, x, 0) && self.zone.is_known(x, Name::LAST_LINE, 0) {
            Ok(())
        } else {
            Err(Fault::Address)
        }
    }

    /// An address from a name of the zone.
    fn set_from(&mut self, x: Name, from: Name, offset: i128) -> Result<(), Fault>
        ensures exact { Reaches result self.new (set_from x from offset self.old) }
    {
        self.set_to(x, from, offset)?;
        self.need_in_buffer(x)
    }

    /// An address that is a line's number.
    fn set_from_number(&mut self, x: Name, number: u32, offset: i128) -> Result<(), Fault>
        ensures exact { Reaches result self.new (in_buffer x (set_number x (pos number +ℤ offset) self.old)) }
    {
        if self.follows {
            self.facts.forget(x);
        }
        set_number(&mut self.zone, x, number, offset);
        self.need_in_buffer(x)
    }

    /// Whether some line surely matches a pattern.
    fn is_found(&self, pattern: &Pattern) -> bool
        ensures value { result ≡ is_found self.now (Some pattern.now) }
    {
        self.matches.has.has(pattern.text())
            || self.is_followed(pattern.text())
            || (self.zone.is_known(Name::ZERO, Name::LAST_LINE, -1) && matches_always(pattern))
    }

    /// The same of a remembered pattern.
    fn choice_is_found(&self, choice: &Option<Bytes>) -> Result<bool, AllocError>
        ensures value { IfOk result (λ found. found ≡ is_found self.now choice.now) }
    {
        let Some(text) = choice else {
            return Ok(false);
        };
        if self.matches.has.has(text.as_slice()) || self.is_followed(text.as_slice()) {
            return Ok(true);
        }
        if !self.zone.is_known(Name::ZERO, Name::LAST_LINE, -1) {
            return Ok(false);
        }
        choice_matches_always(self.patterns.allocator(), choice)
    }

    /// Whether some line surely matches each pattern that may be remembered.
    fn all_are_found(&self) -> Result<bool, AllocError>
        ensures value { IfOk result (λ found. found ≡ list_all (is_found self.now) self.now.patterns) }
    {
        for choice in self.patterns.members() {
            if !self.choice_is_found(choice)? {
                return Ok(false);
            }
        }
        Ok(true)
    }

    /// x becomes the line that a search finds for the patterns that may be remembered, plus an offset. After an `Err` some of it may be
    /// done.
    fn set_found(&mut self, way: Way, x: Name, offset: i128) -> Result<(), AllocError>
        ensures exact { OnOk result (self.new ≡ with_found way self.old.patterns x offset self.old) }
    {
        if !self.follows {
            set_some_line(&mut self.zone, x, offset);
            return Ok(());
        }
        match only_pattern(&self.patterns)? {
            Some(pattern) => {
                let alloc = self.patterns.allocator();
                self.facts.keep_spoken(&self.marks);
                find_by(
                    alloc,
                    way,
                    &mut self.zone,
                    &mut self.facts,
                    x,
                    pattern.as_slice(),
                )?;
                move_by(&mut self.zone, &mut self.facts, x, offset);
            }
            None => {
                self.facts.forget(x);
                set_some_line(&mut self.zone, x, offset);
            }
        }
        Ok(())
    }

    /// A search for the pattern that is given, or for a remembered one.
    fn search(
        &mut self,
        way: Way,
        x: Name,
        pattern: &Option<Pattern>,
        offset: i128,
    ) -> Result<(), Fault>
        ensures exact { Reaches result self.new (searched way x pattern.now offset self.old) }
    {
        let found = match pattern {
            Some(pattern) => self.is_found(pattern),
            None => {
                if self.patterns.has(&None) {
                    return Err(Fault::Pattern);
                }
                self.all_are_found()?
            }
        };
        if !found {
            return Err(Fault::NoMatch);
        }
        if let Some(pattern) = pattern {
            self.patterns = Choices::only_text(self.patterns.allocator(), pattern.text())?;
        }
        self.set_found(way, x, offset)?;
        self.need_in_buffer(x)
    }

    /// One address, evaluated into `x`.
    fn evaluate(&mut self, x: Name, address: &Address) -> Result<(), Fault>
        ensures exact { Reaches result self.new (evaluated x (address_value address.now) self.old) }
    {
        match &address.base {
            Base::Number(number) => self.set_from_number(x, *number, address.offset),
            Base::Current => self.set_from(x, Name::CURRENT_LINE, address.offset),
            Base::Last => self.set_from(x, Name::LAST_LINE, address.offset),
            Base::Marked(letter) => {
                if self.marks.is_sure(*letter) {
                    self.set_from(x, Name::of(*letter), address.offset)
                } else {
                    Err(Fault::Mark)
                }
            }
            Base::Forward(pattern) => self.search(Way::Forward, x, pattern, address.offset),
            Base::Backward(pattern) => self.search(Way::Backward, x, pattern, address.offset),
        }
    }

    /// The addresses before a command, into the first and the second.
    pub(crate) fn evaluate_all(&mut self, addresses: &Addresses) -> Result<(), Fault>
        ensures exact { Reaches result self.new (addressed (addresses_value addresses.now) self.old) }
    {
        match addresses {
            Addresses::Without => Ok(()),
            Addresses::One(only) => {
                self.evaluate(Name::FIRST_ADDRESS, only)?;
                self.set_to(Name::SECOND_ADDRESS, Name::FIRST_ADDRESS, 0)?;
                Ok(())
            }
            Addresses::Comma(first, second) => {
                self.evaluate(Name::FIRST_ADDRESS, first)?;
                self.evaluate(Name::SECOND_ADDRESS, second)
            }
            Addresses::Semicolon(first, None) => {
                self.evaluate(Name::FIRST_ADDRESS, first)?;
                self.set_to(Name::CURRENT_LINE, Name::FIRST_ADDRESS, 0)?;
                self.set_to(Name::SECOND_ADDRESS, Name::FIRST_ADDRESS, 0)?;
                Ok(())
            }
            Addresses::Semicolon(first, Some(second)) => {
                self.evaluate(Name::FIRST_ADDRESS, first)?;
                self.set_to(Name::CURRENT_LINE, Name::FIRST_ADDRESS, 0)?;
                self.evaluate(Name::SECOND_ADDRESS, second)
            }
        }
    }

    /// Of two addresses a command of one takes the last. After an `Err` some of it may be done.
    pub(crate) fn take_last(&mut self, addresses: &Addresses) -> Result<(), AllocError>
        ensures exact { OnOk result (self.new ≡ last_given (addresses_value addresses.now) self.old) }
    {
        match addresses {
            Addresses::Comma(_, _) | Addresses::Semicolon(_, _) => {
                self.set_to(Name::FIRST_ADDRESS, Name::SECOND_ADDRESS, 0)
            }
            Addresses::Without | Addresses::One(_) => Ok(()),
        }
    }

    /// The target of a command.
    pub(crate) fn evaluate_target(&mut self, target: Option<&Address>) -> Result<(), Fault>
        ensures exact { Reaches result self.new
            (targeted (option_map (λ target. address_value target.now) target.entry) self.old) }
    {
        match target {
            Some(target) => self.evaluate(Name::TARGET_ADDRESS, target),
            None => Ok(()),
        }
    }

    /// The need that the addressed lines are lines.
    pub(crate) fn need_range(&self) -> Result<(), Fault>
        ensures exact { Reaches result self.now (ranged self.now) }
    {
        if self.zone.is_known(Name::ZERO, Name::FIRST_ADDRESS, -1)
            && self
                .zone
                .is_known(Name::FIRST_ADDRESS, Name::SECOND_ADDRESS, 0)
            && self.zone.is_known(Name::SECOND_ADDRESS, Name::LAST_LINE, 0)
        {
            Ok(())
        } else {
            Err(Fault::Address)
        }
    }
}
