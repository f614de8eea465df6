//! The rules of the commands on files (XCU ed, "Edit Command", "Filename Command", "Quit Command", "Read Command", "Write Command").

ghost use Rattle.std.specs.Prelude.{◌≡◌, OnOk};
ghost use Rattle.ed_syntax.specs.PublicTypes.{addresses_value};
ghost use Rattle.ed_rules.specs.Files.{named, named_first, named_anew, maybe_modified, current_read, lines_read, file_read, whole_or_ranged, changed_by_lines, changed_by_write, file_written, without_letters, zone_loaded, loaded, saved, edited, edited_anyway, file_named};
ghost use Rattle.ed_rules.specs.Reaching.{Reaches};

use crate::choices::Choices;
use crate::marks::Marks;
use crate::order::{changed_of_both, undo_of_both};
use crate::pieces::{guard_by, insert, wide};
use crate::state::{Changed, State, Undo};
use ed_base::{Bytes, Fault, Letter};
use ed_syntax::Addresses;
use std::alloc::AllocError;
use zones::{Name, Zone};

/// The last line that was read is current: it is as far from the last line as the addressed one was.
#[tactic(auto, unfolding(crate::specs::Files::current_read))]
fn set_current_read(zone: &mut Zone, before: &Zone)
    ensures exact { zone.new ≡ current_read before.now zone.old }
{
    let below = before.bound(Name::FIRST_ADDRESS, Name::LAST_LINE);
    let above = before.bound(Name::LAST_LINE, Name::FIRST_ADDRESS);
    zone.forget(Name::CURRENT_LINE);
    zone.guard(Name::FIRST_ADDRESS, Name::CURRENT_LINE, 0);
    guard_by(zone, Name::CURRENT_LINE, Name::LAST_LINE, wide(below));
    guard_by(zone, Name::LAST_LINE, Name::CURRENT_LINE, wide(above));
}

/// What a write leaves of the flag: a buffer is saved where all its lines are written.
#[tactic(auto, unfolding(crate::specs::Files::changed_by_lines))]
fn changed_by_lines(zone: &Zone, changed: Changed) -> Changed
    ensures value { result ≡ changed_by_lines zone.now changed }
{
    if zone.is_known(Name::FIRST_ADDRESS, Name::ZERO, 1)
        && zone.is_known(Name::LAST_LINE, Name::SECOND_ADDRESS, 0)
    {
        Changed::NO
    } else if zone.is_known(Name::ZERO, Name::FIRST_ADDRESS, -2)
        || zone.is_known(Name::SECOND_ADDRESS, Name::LAST_LINE, -1)
    {
        changed
    } else {
        Changed {
            no: true,
            yes: changed.yes,
        }
    }
}

fn changed_by_write(given: &Addresses, zone: &Zone, changed: Changed) -> Changed
    ensures value { result ≡ changed_by_write (addresses_value given.now) zone.now changed }
{
    match given {
        Addresses::Without => Changed::NO,
        _ => changed_by_lines(zone, changed),
    }
}

fn forget_letters(zone: &mut Zone)
    ensures exact { zone.new ≡ without_letters 26 zone.old }
{
    for place in 0..Letter::COUNT {
        zone.forget(Name::of(Letter::at(place)));
    }
}

/// Any number of lines, the last one current.
#[tactic(auto, unfolding(crate::specs::Files::zone_loaded))]
fn load_zone(zone: &mut Zone)
    ensures exact { zone.new ≡ zone_loaded zone.old }
{
    zone.forget(Name::CURRENT_LINE);
    zone.forget(Name::LAST_LINE);
    forget_letters(zone);
    zone.guard(Name::ZERO, Name::LAST_LINE, 0);
    zone.set(Name::CURRENT_LINE, Name::LAST_LINE, 0);
}

impl State {
    /// Where no path is given, one is remembered.
    fn need_name(&self, path: &Option<Bytes>) -> Result<(), Fault>
        ensures exact { Reaches result self.now (named path.now self.now) }
    {
        if path.is_none() && self.names.has(&None) {
            Err(Fault::Name)
        } else {
            Ok(())
        }
    }

    /// The buffer is saved.
    pub(crate) fn need_saved(&self) -> Result<(), Fault>
        ensures exact { Reaches result self.now (saved self.now) }
    {
        if self.changed.yes {
            Err(Fault::Unsaved)
        } else {
            Ok(())
        }
    }

    /// A given path is remembered where none is.
    fn name_first(&mut self, path: &Option<Bytes>) -> Result<(), AllocError>
        ensures value { OnOk result (self.new ≡ named_first path.now self.old) }
    {
        if let Some(path) = path {
            self.names = self.names.filled(path)?;
        }
        Ok(())
    }

    /// A given path is the one that is remembered.
    fn name_anew(&mut self, path: &Option<Bytes>) -> Result<(), AllocError>
        ensures value { OnOk result (self.new ≡ named_anew path.now self.old) }
    {
        if path.is_some() {
            self.names = Choices::only(self.names.allocator(), path)?;
        }
        Ok(())
    }

    /// The buffer may be changed by a command that began with `before`.
    fn maybe_modify(&mut self, listed: bool, before: &State) -> Result<(), AllocError>
        ensures exact { OnOk result (self.new ≡ maybe_modified listed before.now self.old) }
    {
        self.changed = changed_of_both(&self.changed, &Changed::YES);
        if !listed {
            let was = Undo {
                nothing: false,
                same: false,
                was: Some(before.old()?),
            };
            self.undo = undo_of_both(&self.undo, &was)?;
        }
        Ok(())
    }

    /// Any number of lines come after the addressed one, the last of them current.
    fn read_lines(&mut self)
        ensures exact { self.new ≡ lines_read self.old }
    {
        let before = self.zone;
        let marks = self.marks;
        insert(
            &mut self.zone,
            Name::FIRST_ADDRESS,
            0,
            Some(0),
            None,
            &marks,
        );
        set_current_read(&mut self.zone, &before);
    }

    /// The lines of a file come in place of all.
    fn load(&mut self)
        ensures exact { self.new ≡ loaded self.old }
    {
        load_zone(&mut self.zone);
        self.marks = Marks::none();
        self.changed = Changed::NO;
        self.undo = Undo {
            nothing: true,
            same: false,
            was: None,
        };
    }

    /// `r`
    pub(crate) fn read_file(
        &mut self,
        listed: bool,
        path: &Option<Bytes>,
        before: &State,
    ) -> Result<(), Fault>
        ensures exact { Reaches result self.new (file_read listed path.now before.now self.old) }
    {
        self.need_name(path)?;
        self.name_first(path)?;
        self.read_lines();
        self.maybe_modify(listed, before)?;
        Ok(())
    }

    /// The lines of `w`: given ones, or all.
    pub(crate) fn need_given_range(&self, given: &Addresses) -> Result<(), Fault>
        ensures exact { Reaches result self.now
            (whole_or_ranged (addresses_value given.now) self.now) }
    {
        match given {
            Addresses::Without => Ok(()),
            _ => self.need_range(),
        }
    }

    /// `w`
    pub(crate) fn write_file(
        &mut self,
        given: &Addresses,
        path: &Option<Bytes>,
    ) -> Result<(), Fault>
        ensures exact { Reaches result self.new
            (file_written (addresses_value given.now) path.now self.old) }
    {
        self.need_name(path)?;
        self.name_first(path)?;
        self.changed = changed_by_write(given, &self.zone, self.changed);
        Ok(())
    }

    /// `e`
    pub(crate) fn edit(&mut self, path: &Option<Bytes>) -> Result<(), Fault>
        ensures exact { Reaches result self.new (edited path.now self.old) }
    {
        self.need_name(path)?;
        self.need_saved()?;
        self.load();
        self.name_anew(path)?;
        Ok(())
    }

    /// `E`
    pub(crate) fn edit_anyway(&mut self, path: &Option<Bytes>) -> Result<(), Fault>
        ensures exact { Reaches result self.new (edited_anyway path.now self.old) }
    {
        self.need_name(path)?;
        self.load();
        self.name_anew(path)?;
        Ok(())
    }

    /// `f`
    pub(crate) fn name_file(&mut self, path: &Option<Bytes>) -> Result<(), Fault>
        ensures exact { Reaches result self.new (file_named path.now self.old) }
    {
        self.need_name(path)?;
        self.name_anew(path)?;
        Ok(())
    }
}
