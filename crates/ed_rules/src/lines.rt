//! The rules of the commands on lines, a function a verb, in the order of the rules' definitions.

ghost use Rattle.std.specs.Prelude.{◌≡◌, ◌<◌, IfOk, OnOk};
ghost use Rattle.ed_syntax.specs.PublicTypes.{addresses_value};
ghost use Rattle.ed_rules.specs.Pieces.{with_zone};
ghost use Rattle.ed_rules.specs.Lines.{appended, current_inserted, put_before, lifted_range, changed_to, deleted, joined, joined_given, marked, current_at, copied_lines};

use crate::pieces::{insert, lift, plus};
use crate::state::State;
use ed_base::Letter;
use ed_syntax::Addresses;
use std::alloc::AllocError;
use zones::{Name, Zone};

/// `i` without a text makes its line current, or the last one.
#[tactic(auto, unfolding(crate::specs::Lines::current_inserted))]
fn set_current_inserted(zone: &mut Zone)
    ensures exact { zone.new ≡ current_inserted zone.old }
{
    if zone.is_known(Name::FIRST_ADDRESS, Name::LAST_LINE, 0) {
        zone.set(Name::CURRENT_LINE, Name::FIRST_ADDRESS, 0);
    } else if zone.is_known(Name::LAST_LINE, Name::FIRST_ADDRESS, -1) {
        zone.set(Name::CURRENT_LINE, Name::LAST_LINE, 0);
    } else {
        zone.forget(Name::CURRENT_LINE);
        zone.guard(Name::FIRST_ADDRESS, Name::CURRENT_LINE, 1);
        zone.guard(Name::CURRENT_LINE, Name::FIRST_ADDRESS, 0);
    }
}

impl State {
    /// `a` of so many lines.
    pub(crate) fn append(
        &mut self,
        listed: bool,
        before: &State,
        count: usize,
    ) -> Result<(), AllocError>
        ensures exact { OnOk result (self.new ≡ appended listed before.now count self.old) }
    {
        if count > 0 {
            let lines = Some(count as i128);
            let marks = self.marks;
            insert(&mut self.zone, Name::FIRST_ADDRESS, 0, lines, lines, &marks);
            self.modify(listed, before)?;
        }
        self.zone
            .set_wide(Name::CURRENT_LINE, Name::FIRST_ADDRESS, count as i128);
        Ok(())
    }

    /// `i` of so many lines, its address lifted.
    pub(crate) fn put_before(
        &mut self,
        listed: bool,
        before: &State,
        count: usize,
    ) -> Result<(), AllocError>
        ensures exact { OnOk result (self.new ≡ put_before listed before.now count self.old) }
    {
        if count > 0 {
            let lines = Some(count as i128);
            let marks = self.marks;
            insert(
                &mut self.zone,
                Name::FIRST_ADDRESS,
                -1,
                lines,
                lines,
                &marks,
            );
            self.zone.set_wide(Name::CURRENT_LINE, Name::FIRST_ADDRESS, (count - 1) as i128);
            self.modify(listed, before)?;
        } else {
            set_current_inserted(&mut self.zone);
        }
        Ok(())
    }

    /// Both addresses of `c`, where 0 stands for 1; with one that was given the second is set once the first is lifted.
    pub(crate) fn lift_range(&mut self, given: &Addresses)
        ensures exact { self.new ≡ with_zone (lifted_range (addresses_value given.now) self.old.zone) self.old }
    {
        lift(&mut self.zone, Name::FIRST_ADDRESS);
        if let Addresses::One(_) = given {
            self.zone.set(Name::SECOND_ADDRESS, Name::FIRST_ADDRESS, 0);
        }
        lift(&mut self.zone, Name::SECOND_ADDRESS);
        self.zone
            .guard(Name::FIRST_ADDRESS, Name::SECOND_ADDRESS, 0);
    }

    /// `c` of so many lines.
    pub(crate) fn change(
        &mut self,
        listed: bool,
        before: &State,
        count: usize,
    ) -> Result<(), AllocError>
        ensures exact { OnOk result (self.new ≡ changed_to listed before.now count self.old) }
    {
        self.replace(count);
        self.modify(listed, before)
    }

    /// `d`
    pub(crate) fn delete(&mut self, listed: bool, before: &State) -> Result<(), AllocError>
        ensures exact { OnOk result (self.new ≡ deleted listed before.now self.old) }
    {
        self.replace(0);
        self.modify(listed, before)
    }

    /// `j` of two addresses.
    fn join_two(&mut self, listed: bool, before: &State) -> Result<(), AllocError>
        ensures exact { IfOk result (λ _. self.new ≡ joined listed before.now self.old) }
    {
        if self
            .zone
            .is_known(Name::SECOND_ADDRESS, Name::FIRST_ADDRESS, 0)
        {
            return Ok(());
        }
        if self
            .zone
            .is_known(Name::FIRST_ADDRESS, Name::SECOND_ADDRESS, -1)
        {
            self.replace(1);
            self.modify(listed, before)?;
            return Ok(());
        }
        let mut one_line = self.try_copy()?;
        one_line
            .zone
            .guard(Name::SECOND_ADDRESS, Name::FIRST_ADDRESS, 0);
        self.zone
            .guard(Name::FIRST_ADDRESS, Name::SECOND_ADDRESS, -1);
        self.replace(1);
        self.modify(listed, before)?;
        *self = self.join(&one_line)?;
        Ok(())
    }

    /// `j`: with one address nothing is joined.
    pub(crate) fn join_lines(
        &mut self,
        given: &Addresses,
        listed: bool,
        before: &State,
    ) -> Result<(), AllocError>
        ensures exact { IfOk result (λ _.
            self.new ≡ joined_given (addresses_value given.now) listed before.now self.old) }
    {
        match given {
            Addresses::One(_) => Ok(()),
            Addresses::Without | Addresses::Comma(_, _) | Addresses::Semicolon(_, _) =>
                self.join_two(listed, before),
        }
    }

    /// `k`
    pub(crate) fn mark_line(&mut self, letter: Letter)
        ensures exact { self.new ≡ marked letter self.old }
        ensures within { letter < 26 }
    {
        self.zone.set(Name::of(letter), Name::FIRST_ADDRESS, 0);
        self.marks.add(letter);
    }

    /// `l`, `n`, `p`, and the null command: a line is current.
    pub(crate) fn make_current(&mut self, x: Name)
        ensures exact { self.new ≡ current_at x self.old }
    {
        self.zone.set(Name::CURRENT_LINE, x, 0);
    }

    /// `t`
    pub(crate) fn copy_lines(&mut self, listed: bool, before: &State) -> Result<(), AllocError>
        ensures exact { OnOk result (self.new ≡ copied_lines listed before.now self.old) }
    {
        let low = self.zone.least(Name::SECOND_ADDRESS, Name::FIRST_ADDRESS);
        let high = self.zone.bound(Name::SECOND_ADDRESS, Name::FIRST_ADDRESS);
        let marks = self.marks;
        insert(
            &mut self.zone,
            Name::TARGET_ADDRESS,
            0,
            plus(low, 1),
            plus(high, 1),
            &marks,
        );
        self.zone.set(Name::CURRENT_LINE, Name::TARGET_ADDRESS, 1);
        self.zone.shift(Name::CURRENT_LINE, low, high);
        self.modify(listed, before)
    }
}
