//! What a script is judged by, beside the states of its certificate.

ghost use Rattle.std.specs.Prelude.{◌≡◌, true, IfOk};
ghost use Rattle.ed_syntax.specs.PublicScript.{script_value};
ghost use Rattle.ed_syntax.specs.PublicTypes.{command_value, step_value};
ghost use Rattle.ed_syntax.specs.meaning.Verbs.{is_global};
ghost use Rattle.cert_check.specs.checker.Valid.{sight_of, told, once_by, runs_once, entry_of};

use crate::certificate::Version;
use crate::in_form::put_in_form;
use ed_rules::{State, Texts, Watch, body_entry, once_entry};
use ed_syntax::{Command, Script};
use std::alloc::AllocError;

/// The version of a certificate, and the patterns that are watched for; version 1 watches for none.
#[derive(Debug, Drop)]
pub struct Sight {
    version: Version,
    watch: Watch,
}

/// The state in which a list is run for a line, as far as it is told.
#[derive(Debug, Drop)]
pub struct Entry {
    pub state: State,
    /// Whether the list is known to be run for one line alone.
    pub once: bool,
}

impl Sight {
    /// The sight of a script with a certificate of this version, which states these patterns of its start. In version 1 they don't
    /// count, and no memory is taken.
    pub fn of(script: &Script, version: Version, has: &Texts) -> Result<Sight, AllocError>
        ensures value { IfOk result (λ sight. sight ≡ sight_of (script_value script.now) version has.now) }
    {
        let watch = match version {
            Version::One => Watch::none(*script.commands.allocator()),
            Version::Two => Watch::of(script, has)?,
            Version::Three => Watch::of_lines(script, has)?,
        };
        Ok(Sight { version, watch })
    }

    /// The patterns that are watched for.
    pub fn watch(&self) -> &Watch
        ensures value { result.now ≡ self.now.watch }
    {
        &self.watch
    }

    /// Leaves in a rule's state only what the version tells: in versions 1 and 2 what is known of single lines is forgotten and they
    /// aren't followed, and in version 1 what lines match is forgotten too. In version 3 what is known of single lines is put in form, so
    /// that it has a text: only facts that can be written beside the sure letters are left, in the order of the text, and one for each name
    /// and pattern; those of an earlier buffer too. It takes no memory.
    pub fn tell(&self, state: &mut State)
        ensures value { state.new ≡ told self.now state.old }
    {
        match self.version {
            Version::One => {
                state.forget_facts();
                state.forget_matches();
            }
            Version::Two => state.forget_facts(),
            Version::Three => put_in_form(state),
        }
    }

    /// The state in which a list is run, where it is known by the invariant that it is run for one line alone.
    fn once_by(&self, command: &Command, invariant: &State) -> Result<Option<State>, AllocError>
        ensures value { IfOk result (λ entry. entry ≡ once_by self.now.version (command_value command.now) invariant.now) }
    {
        match self.version {
            Version::One | Version::Two => Ok(None),
            Version::Three => once_entry(command, invariant),
        }
    }

    /// The state in which the list of a global command is run for a line, by the invariant, and whether for one line alone.
    pub fn enter(&self, command: &Command, invariant: &State) -> Result<Entry, AllocError>
        requires global { is_global (command_value command.now).verb ≡ true }
        ensures state { IfOk result (λ entry. entry.state ≡ entry_of self.now (step_value command.now) invariant.now) }
        ensures once { IfOk result (λ entry. entry.once ≡ runs_once self.now (step_value command.now) invariant.now) }
    {
        match self.once_by(command, invariant)? {
            None => {
                let mut state = body_entry(command, invariant)?;
                self.tell(&mut state);
                Ok(Entry { state, once: false })
            }
            Some(mut state) => {
                self.tell(&mut state);
                Ok(Entry { state, once: true })
            }
        }
    }
}
