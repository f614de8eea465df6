//! How a session runs the list of a global command (XCU ed, "Global Command", "Global Non-Matched Command").
ghost use Rattle.std.specs.Prelude.{◌≡◌, ◌<◌, List, [], None, true, false, IsSome, IfSome};
ghost use Rattle.ed_syntax.specs.meaning.Globals.{closed};
ghost use Rattle.ed_syntax.specs.meaning.Runs.{steps, with_state};
ghost use Rattle.ed_syntax.specs.declared.request.Answer.{Answer};
ghost use Rattle.ed_syntax.specs.meaning.Verbs.{is_global};
ghost use Rattle.ed_session.specs.declared.phase.Phase.TheVariants as phases;
ghost use Rattle.ed_session.specs.Agendas.{lines_of, next_command};
ghost use Rattle.ed_session.specs.Insides.{Advances, AdvancesOrGives};
ghost use Rattle.ed_session.specs.Sessions.{is_over, is_started, is_waiting, rest};
ghost use Rattle.ed_session.specs.Work.{work};

use crate::phase::Phase;
use crate::session::advancing::output;
use crate::session::{Ask, Session};
use line_store::LineStore;

impl<S: LineStore> Session<S> {
    /// The next step is a global command: its lines have their flags from here on, and its list comes next.
    pub(crate) fn begin_global(&mut self) -> Option<Ask>
        requires outside { self.old.running_list ≡ None }
        requires prompted { self.old.phase ≡ phases.Prompted }
        requires handed_out { self.old.pending ≡ [] }
        requires there { IsSome (next_command self.old.running_list self.old.steps) }
        requires global { IfSome (next_command self.old.running_list self.old.steps) (λ c. is_global c.verb ≡ true) }
        ensures given { AdvancesOrGives self.old result self.new }
        ensures started { is_started self.new.phase ≡ true }
        ensures work { work self.new < work self.old }
    {
        match self.editor.begin_global(self.agenda.next()) {
            Ok(begun) => {
                self.agenda.open(begun.lines);
                self.phase = Phase::Between;
                output(begun.output)
            }
            Err(fault) => {
                let report = self.reports.end(&mut self.phase, self.modes.help, fault);
                Some(Ask::Output(report))
            }
        }
    }

    /// In a global command the next command of its list comes next, or the next line that has the flag, or the end.
    pub(crate) fn go_on_in_list(&mut self) -> Option<Ask>
        requires inside { IsSome self.old.running_list }
        requires running { is_over self.old.phase ≡ false }
        requires started { is_started self.old.phase ≡ true }
        requires idle { is_waiting self.old.phase ≡ false }
        requires handed_out { self.old.pending ≡ [] }
        ensures given { AdvancesOrGives self.old result self.new }
        ensures started { is_started self.new.phase ≡ true }
        ensures work { work self.new < work self.old }
    {
        if self.agenda.has_next() {
            return self.command();
        }
        if self.agenda.lines() > 0 {
            self.next_line();
        } else {
            self.end_global();
        }
        None
    }

    /// The list is run for the next line that has the flag; where there is none, the global command is over.
    fn next_line(&mut self)
        requires more { 0 < lines_of self.old.running_list }
        requires none_left { next_command self.old.running_list self.old.steps ≡ None }
        requires running { is_over self.old.phase ≡ false }
        requires started { is_started self.old.phase ≡ true }
        requires idle { is_waiting self.old.phase ≡ false }
        requires handed_out { self.old.pending ≡ [] }
        ensures given { Advances self.old self.new }
        ensures work { work self.new < work self.old }
    {
        if self.editor.next_global() {
            self.agenda.repeat();
        } else {
            self.end_global();
        }
    }

    /// The global command is over.
    fn end_global(&mut self)
        requires inside { IsSome self.old.running_list }
        requires running { is_over self.old.phase ≡ false }
        requires handed_out { self.old.pending ≡ [] }
        requires over { (answers : List Answer) → rest self.old answers ≡
            steps self.old.steps self.old.fault (with_state (closed self.old.present.state) self.old.present) answers }
        ensures given { Advances self.old self.new }
        ensures work { work self.new < work self.old }
    {
        self.editor.end_global();
        self.agenda.close();
        self.phase = Phase::Between;
    }
}
