//! How a session goes on: by a prompt, by a command, or by the end of its script.
ghost use Rattle.std.specs.Prelude.{◌≡◌, ◌≢◌, ◌<◌, List, [], None, true, false, IsSome};
ghost use Rattle.ed_base.specs.declared.fault.Fault.TheVariants.{Memory};
ghost use Rattle.ed_syntax.specs.Commands.{Command};
ghost use Rattle.ed_syntax.specs.declared.request.Answer.{Answer};
ghost use Rattle.ed_syntax.specs.meaning.Progress.{ending, failing, quitting};
ghost use Rattle.ed_session.specs.declared.phase.Phase.TheVariants as phases;
ghost use Rattle.ed_session.specs.Agendas.{next_command};
ghost use Rattle.ed_session.specs.Calls.{Gives};
ghost use Rattle.ed_session.specs.Insides.{AdvancesOrGives, IsNext, ask_of_output, ask_of_request, bytes_of_write, goes_unprompted};
ghost use Rattle.ed_session.specs.Sessions.{is_over, is_started, is_waiting, rest};
ghost use Rattle.ed_session.specs.Work.{work};

use crate::phase::Phase;
use crate::session::{Ask, Session};
use ed_base::{Fault, Pieces};
use ed_commands::Reply;
use ed_syntax::{Ending, Ends, Request};
use line_store::LineStore;

/// Some output, if there is any.
pub(crate) fn output(bytes: Pieces) -> Option<Ask>
    ensures value { result ≡ ask_of_output bytes }
{
    if bytes.len() == 0 {
        None
    } else {
        Some(Ask::Output(bytes))
    }
}

/// How many bytes a request writes, if it writes.
fn bytes_of_write(request: &Request) -> Option<usize>
    ensures value { result ≡ bytes_of_write request.now }
{
    match request {
        Request::Read(_) => None,
        Request::Write(_, bytes) => Some(bytes.len()),
    }
}

/// A request as a step gives it.
fn asking(request: Request) -> Ask
    ensures value { result ≡ ask_of_request request }
{
    match request {
        Request::Read(path) => Ask::Read(path),
        Request::Write(path, bytes) => Ask::Write(path, bytes),
    }
}

impl<S: LineStore> Session<S> {
    /// Writes the prompt where prompting is on, or does the next command, or finds the end. `None` where that gave nothing.
    pub(crate) fn advance(&mut self) -> Option<Ask>
        requires running { is_over self.old.phase ≡ false }
        requires started { is_started self.old.phase ≡ true }
        requires idle { is_waiting self.old.phase ≡ false }
        requires handed_out { self.old.pending ≡ [] }
        ensures given { AdvancesOrGives self.old result self.new }
        ensures started { is_started self.new.phase ≡ true }
        ensures work { work self.new < work self.old }
    {
        if self.agenda.in_list() {
            return self.go_on_in_list();
        }
        if matches!(&self.phase, Phase::Between) {
            return self.write_prompt();
        }
        if self.agenda.has_next() {
            self.step_on()
        } else {
            self.end()
        }
    }

    /// Where prompting is on, the prompt comes before the next command and before the end is found.
    fn write_prompt(&mut self) -> Option<Ask>
        requires outside { self.old.running_list ≡ None }
        requires between { self.old.phase ≡ phases.Between }
        requires handed_out { self.old.pending ≡ [] }
        ensures given { AdvancesOrGives self.old result self.new }
        ensures started { is_started self.new.phase ≡ true }
        ensures work { work self.new < work self.old }
    {
        if !self.modes.prompting {
            self.phase = Phase::Prompted;
            return None;
        }
        match self.prompt.try_copy() {
            Ok(prompt) => {
                self.phase = Phase::Prompted;
                output(Pieces::from_bytes(self.alloc, prompt))
            }
            Err(_) => Some(self.report(Fault::Memory)),
        }
    }

    /// Ends the run by a fault, with its report.
    pub(crate) fn report(&mut self, fault: Fault) -> Ask
        requires running { is_over self.old.phase ≡ false }
        requires handed_out { self.old.pending ≡ [] }
        ensures given { (fault ≢ Memory → (answers : List Answer) → rest self.old answers ≡ failing self.old.present fault) →
            Gives self.old result self.new }
        ensures started { is_started self.new.phase ≡ true }
        ensures work { work self.new < work self.old }
    {
        Ask::Output(self.reports.end(&mut self.phase, self.modes.help, fault))
    }

    /// The end of the script, or of what could be read of it.
    fn end(&mut self) -> Option<Ask>
        requires outside { self.old.running_list ≡ None }
        requires prompted { self.old.phase ≡ phases.Prompted }
        requires handed_out { self.old.pending ≡ [] }
        requires none_left { next_command self.old.running_list self.old.steps ≡ None }
        ensures given { AdvancesOrGives self.old result self.new }
        ensures started { is_started self.new.phase ≡ true }
        ensures work { work self.new < work self.old }
    {
        if self.fault.is_some() {
            return Some(self.report(Fault::Syntax));
        }
        self.quit()
    }

    /// Ends the run where no change is left to be written.
    fn quit(&mut self) -> Option<Ask>
        requires prompted { self.old.phase ≡ phases.Prompted }
        requires handed_out { self.old.pending ≡ [] }
        ensures given { ((answers : List Answer) → rest self.old answers ≡ quitting self.old.present) →
            AdvancesOrGives self.old result self.new }
        ensures started { is_started self.new.phase ≡ true }
        ensures work { work self.new < work self.old }
    {
        if self.editor.changed() {
            return Some(self.report(Fault::Unsaved));
        }
        self.leave()
    }

    /// Ends the run.
    fn leave(&mut self) -> Option<Ask>
        requires prompted { self.old.phase ≡ phases.Prompted }
        requires handed_out { self.old.pending ≡ [] }
        ensures given { ((answers : List Answer) → rest self.old answers ≡ ending self.old.present) →
            AdvancesOrGives self.old result self.new }
        ensures started { is_started self.new.phase ≡ true }
        ensures work { work self.new < work self.old }
    {
        self.phase = Phase::Over(Ok(Ending {
            lines: self.editor.lines().len(),
        }));
        None
    }

    /// Does the next step of the script, or finds what it asks for.
    fn step_on(&mut self) -> Option<Ask>
        requires outside { self.old.running_list ≡ None }
        requires prompted { self.old.phase ≡ phases.Prompted }
        requires handed_out { self.old.pending ≡ [] }
        requires left { IsSome (next_command self.old.running_list self.old.steps) }
        ensures given { AdvancesOrGives self.old result self.new }
        ensures started { is_started self.new.phase ≡ true }
        ensures work { work self.new < work self.old }
    {
        let takes = self.agenda.next().verb.takes();
        match takes.ends {
            Some(Ends::AsScript) => self.quit(),
            Some(Ends::Anyway) => self.leave(),
            None if takes.global => self.begin_global(),
            None => self.command(),
        }
    }

    /// Does the next command, of a list or of the script, or finds what it asks for.
    pub(crate) fn command(&mut self) -> Option<Ask>
        requires idle { is_waiting self.old.phase ≡ false }
        requires comes { goes_unprompted self.old.phase self.old.running_list ≡ true }
        requires handed_out { self.old.pending ≡ [] }
        requires next { (c : Command) × IsNext self.old.running_list self.old.steps c }
        ensures given { AdvancesOrGives self.old result self.new }
        ensures started { is_started self.new.phase ≡ true }
        ensures work { work self.new < work self.old }
    {
        let command = self.agenda.next();
        match self.editor.apply(command, None) {
            Ok(Reply::Done(written)) => {
                self.modes = self.modes.after(&command.verb);
                self.agenda.pass();
                self.phase = Phase::Between;
                output(written)
            }
            Ok(Reply::Wants(request)) => {
                self.phase = Phase::Waiting;
                self.writes = bytes_of_write(&request);
                Some(asking(request))
            }
            Err(fault) => {
                let report = self.reports.end(&mut self.phase, self.modes.help, fault);
                Some(Ask::Output(report))
            }
        }
    }
}
