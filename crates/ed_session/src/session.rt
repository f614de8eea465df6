//! A run that stops for its output and its files.
ghost use Rattle.std.specs.Prelude.{◌≡◌, ◌≢◌, ◌≤◌, List, [], Some, None, true, false, IfOk, IfErr, OnOk, IfSome, IsSome};
ghost use Rattle.ed_base.specs.declared.fault.Fault.TheVariants.{File, Memory};
ghost use Rattle.ed_commands.specs.Editors.{opening_value};
ghost use Rattle.ed_session.specs.Insides.{counted, length_counted, state_loaded};

mod advancing;
mod globals;
mod standing;

use crate::agenda::Agenda;
use crate::counts::{length_counted, with_count};
use crate::modes::Modes;
use crate::phase::Phase;
use crate::reports::Reports;
use ed_base::{Bytes, Fault, Pieces};
use ed_commands::{Editor, Reply};
use ed_syntax::{Answer, Ending, Options, Script};
use line_store::LineStore;
use std::alloc::{AllocError, Global};
use std::marker::Model;
use std::mem;

/// What a session gives at a step.
#[derive(Debug, PartialEq, Eq, Drop)]
pub enum Ask {
    /// It waits for the answer to a read of this path.
    Read(Bytes),
    /// It waits for the answer to a write of these bytes to this path.
    Write(Bytes, Pieces),
    /// At least one byte of output.
    Output(Pieces),
    /// How the run ended.
    Ended(Result<Ending, Fault>),
}

/// A run of a script that is asked for its next step, and stops where it wants a file or has output.
///
/// A start, step or answer that finds no memory ends the run by `Fault::Memory`, after its report.
#[derive(Drop)]
pub struct Session<S: LineStore> {
    alloc: Global,
    editor: Editor<S>,
    agenda: Agenda,
    fault: Option<usize>,
    modes: Modes,
    // The counts of bytes that are read or written aren't written.
    silent: bool,
    // How many bytes the awaited request writes, if it writes.
    writes: Option<usize>,
    // What is written before a command while prompting is on.
    prompt: Bytes,
    // Output that wasn't handed out.
    pending: Pieces,
    reports: Reports,
    phase: Phase,
    told: bool,
}

impl<S: LineStore> Model for Session<S> {
    ghost use Rattle.ed_session.specs.Sessions.{SessionValue};

    ghost Value = { SessionValue };

    ghost use Rattle.ed_session.specs.Insides.{IsSound, holding};

    ghost view = { λ s. record {
      phase = s.phase;
      present = holding s.silent s.editor.state s.modes s.prompt;
      running_list = s.agenda.running_list;
      steps = s.agenda.steps;
      fault = s.fault;
      pending = s.pending;
      told = s.told;
    } };

    ghost invariant = { λ s. IsSound s.phase s.writes s.editor.state s.editor.failed s.agenda.running_list s.agenda.steps
        s.pending s.reports.brief s.reports.full s.told };
}

/// Loads what was answered of the start file into an editor that was just made, and gives the count of its bytes.
fn load<S: LineStore>(
    alloc: Global,
    editor: &mut Editor<S>,
    silent: bool,
    answer: Answer,
    path: Bytes,
) -> Result<Pieces, Fault>
    requires opening { editor.old ≡ opening_value }
    ensures loaded { OnOk result (state_loaded path answer ≡ Some editor.new.state) }
    ensures count { IfOk result (λ count. count ≡ counted silent (length_counted None answer)) }
    ensures fault { IfErr result (λ fault. fault ≢ Memory → (fault ≡ File) × (state_loaded path answer ≡ None)) }
    ensures failed { OnOk result (editor.new.failed ≡ None) }
{
    let count = with_count(
        alloc,
        Pieces::new(alloc),
        silent,
        length_counted(None, &answer),
    )?;
    match answer {
        Answer::Bytes(bytes) => editor.load_bytes(bytes, path)?,
        Answer::Missing => editor.load(b"", path)?,
        Answer::Refused | Answer::Done => return Err(Fault::File),
    }
    Ok(count)
}

impl<S: LineStore> Session<S> {
    ghost use Rattle.ed_syntax.specs.PublicScript.{script_value};
    ghost use Rattle.ed_syntax.specs.meaning.Runs.{run};
    ghost use Rattle.ed_syntax.specs.declared.request.Answer.{Answer};
    ghost use Rattle.ed_session.specs.declared.phase.Phase.TheVariants as phases;
    ghost use Rattle.ed_session.specs.Sessions.{made, is_waiting, is_started, is_over, rest, awaited, path_of};
    ghost use Rattle.ed_session.specs.Calls.{Answers, Starts, GoesOn, BreaksOff, Gives, IsEnded, LosesOutput};
    ghost use Rattle.ed_session.specs.Work.{work, Works};

    /// A session of this script that hasn't started.
    pub fn new(alloc: Global, script: Script, options: Options) -> Result<Self, AllocError>
        ensures value { IfOk result (λ s. s ≡ made (script_value script) options) }
        // What is left of it is the whole run.
        ensures rest { IfOk result (λ s. (answers : List Answer) →
            rest s answers ≡ run (script_value script) options answers) }
    {
        let reports = Reports::new(alloc)?;
        let store = S::empty(alloc)?;
        let Script { commands, fault } = script;
        let Options {
            silent,
            prompt,
            path,
        } = options;
        let prompting = prompt.is_some();
        let prompt = match prompt {
            Some(prompt) => prompt,
            None => Bytes::from_slice(alloc, b"*")?,
        };
        Ok(Session {
            alloc,
            editor: Editor::new(alloc, store),
            agenda: Agenda::new(commands),
            fault,
            modes: Modes {
                prompting,
                help: false,
            },
            silent,
            writes: None,
            prompt,
            pending: Pieces::new(alloc),
            reports,
            phase: Phase::Fresh(path),
            told: false,
        })
    }

    pub(crate) fn allocator(&self) -> Global {
        self.alloc
    }

    /// Starts the run with the answer to the read of its start file, whose bytes are counted in the output unless the run is
    /// silent; or, where it has no path, with an empty buffer: then the answer isn't looked at. A missing file is an empty buffer with
    /// its name; any other answer but the file's bytes ends the run by `Fault::File`.
    pub fn start(&mut self, answer: Answer)
        requires fresh { is_started self.old.phase ≡ false }
        ensures given { Starts (path_of self.old.phase) self.old answer self.new }
        ensures started { is_started self.new.phase ≡ true }
        ensures idle { is_waiting self.new.phase ≡ false }
        ensures untold { self.new.told ≡ false }
        ensures work { work self.new ≤ work self.old }
    {
        let Phase::Fresh(Some(path)) = mem::replace(&mut self.phase, Phase::Between) else {
            return;
        };
        match load(self.alloc, &mut self.editor, self.silent, answer, path) {
            Ok(count) => self.pending = count,
            Err(fault) => self.pending = self.reports.end(&mut self.phase, self.modes.help, fault),
        }
    }

    /// The next thing that the run does. Commands without output are done on the way. Once it is `Ended`, it stays so.
    pub fn step(&mut self) -> Ask
        requires started { is_started self.old.phase ≡ true }
        requires idle { is_waiting self.old.phase ≡ false }
        ensures given { Gives self.old result self.new }
        ensures started { is_started self.new.phase ≡ true }
        ensures same_end { self.old.told ≡ true → IsEnded result × (self.new ≡ self.old) }
        ensures work { Works self.old result self.new }
    {
        'steps: loop {
            if self.pending.len() > 0 {
                return Ask::Output(mem::replace(&mut self.pending, Pieces::new(self.alloc)));
            }
            if let Phase::Over(result) = &self.phase {
                let result = *result;
                self.told = true;
                return Ask::Ended(result);
            }
            if let Some(asks) = self.advance() {
                return asks;
            }
        }
    }

    /// The next step gives the request again that the session waits for.
    pub(crate) fn ask_again(&mut self)
        requires waiting { self.old.phase ≡ phases.Waiting }
        ensures same { GoesOn self.old [] [] [] self.new }
        ensures idle { is_waiting self.new.phase ≡ false }
        ensures started { is_started self.new.phase ≡ true }
    {
        self.phase = Phase::Prompted;
    }

    /// Takes the answer to what the session waits for. One that doesn't fit its request counts as `Answer::Refused`.
    pub fn answer(&mut self, answer: Answer)
        requires waiting { self.old.phase ≡ phases.Waiting }
        ensures awaited { IsSome (awaited self.old) }
        ensures given { IfSome (awaited self.old) (λ request. Answers self.old request answer self.new) }
        ensures idle { is_waiting self.new.phase ≡ false }
        ensures started { is_started self.new.phase ≡ true }
        ensures untold { self.new.told ≡ false }
        ensures work { work self.new ≤ work self.old }
    {
        let length = length_counted(self.writes, &answer);
        let command = self.agenda.next();
        let fault = match self.editor.apply(command, Some(answer)) {
            Ok(Reply::Done(output)) => match with_count(self.alloc, output, self.silent, length) {
                Ok(written) => {
                    self.modes = self.modes.after(&command.verb);
                    self.agenda.pass();
                    self.pending = written;
                    self.phase = Phase::Between;
                    return;
                }
                Err(_) => Fault::Memory,
            },
            Ok(Reply::Wants(_request)) => Fault::File,
            Err(fault) => fault,
        };
        self.pending = self.reports.end(&mut self.phase, self.modes.help, fault);
    }

    /// Ends the run because there was no memory outside.
    pub(crate) fn fail_memory(&mut self)
        requires running { is_over self.old.phase ≡ false }
        requires handed_out { self.old.pending ≡ [] }
        ensures broke { BreaksOff self.old [] [] [] self.new }
        ensures untold { self.new.told ≡ false }
        ensures work { work self.new ≤ work self.old }
    {
        let help = self.modes.help;
        self.pending = self.reports.end(&mut self.phase, help, Fault::Memory);
    }

    /// Makes `Fault::Output` the end of a session that hasn't answered `Ended`; of one that has, nothing changes.
    pub fn fail_output(&mut self)
        ensures ended { self.old.told ≡ false → LosesOutput self.new }
        ensures unchanged { self.old.told ≡ true → self.new ≡ self.old }
    {
        if self.told {
            return;
        }
        self.phase = Phase::Over(Err(Fault::Output));
        self.pending = Pieces::new(self.alloc);
    }
}
