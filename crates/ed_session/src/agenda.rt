//! What a session has still to carry out.
ghost use Rattle.std.specs.Prelude.{◌≡◌, ◌<◌, ◌^◌, Some, None, IsSome, is_some, length};
ghost use Rattle.ed_syntax.specs.PublicTypes.{command_value, steps_value};
ghost use Rattle.ed_session.specs.Agendas.{lines_of, next_command, opened_for, passed, repeated};
ghost use Rattle.ed_session.specs.Sessions.{listed_left};

use ed_syntax::Command;
use std::marker::Model;

/// What is left of a global command whose list is run. Places count from 0.
#[derive(Clone, Copy)]
struct Countdown {
    /// The place of the global command in its script.
    global: usize,
    /// So many of the last commands of its list are left for the line that was taken.
    left: usize,
    /// For how many lines more the list is run at most.
    lines: usize,
}

/// The commands that a session has still to carry out: those of a list, where a global command is open, and then those of the script.
#[derive(Drop)]
pub(crate) struct Agenda {
    commands: Vec<Command>,
    // The place of the next command of the script itself, counted from 0: after the global command, where one is open.
    next: usize,
    countdown: Option<Countdown>,
}

impl Model for Agenda {
    ghost use Rattle.std.specs.Prelude.{◌≤◌, drop, vec_len};
    ghost use Rattle.ed_syntax.specs.PublicTypes.{steps_value};
    ghost use Rattle.ed_session.specs.Agendas.{AgendaValue, IsWithin, running_of};

    ghost Value = { AgendaValue };

    ghost view = { λ a. record { running_list = running_of a.commands.items a.countdown; steps = steps_value (drop a.next a.commands.items) } };

    ghost invariant = { λ a. (a.next ≤ vec_len a.commands) × IsWithin a.commands.items a.countdown };
}

impl Agenda {
    /// All commands of a script.
    pub(crate) fn new(commands: Vec<Command>) -> Self
        ensures value { result ≡ record { running_list = None; steps = steps_value commands.items } }
    {
        Agenda {
            commands,
            next: 0,
            countdown: None,
        }
    }

    /// A global command is open.
    pub(crate) fn in_list(&self) -> bool
        ensures value { result ≡ is_some self.now.running_list }
    {
        self.countdown.is_some()
    }

    /// How many commands of the script itself are left: those after the global command, where one is open.
    pub(crate) fn left(&self) -> usize
        ensures value { result ≡ length self.now.steps }
    {
        self.commands.len() - self.next
    }

    /// How many commands of the list of an open global command are left for the line that was taken.
    pub(crate) fn left_in_list(&self) -> usize
        ensures value { result ≡ listed_left self.now.running_list }
    {
        match self.countdown {
            Some(countdown) => countdown.left,
            None => 0,
        }
    }

    /// A command is left: of the list, where a global command is open, else of the script.
    pub(crate) fn has_next(&self) -> bool
        ensures value { result ≡ is_some (next_command self.now.running_list self.now.steps) }
    {
        match self.countdown {
            Some(countdown) => countdown.left > 0,
            None => self.next < self.commands.len(),
        }
    }

    /// The next command.
    pub(crate) fn next(&self) -> &Command
        requires there { IsSome (next_command self.now.running_list self.now.steps) }
        ensures value { next_command self.now.running_list self.now.steps ≡ Some (command_value result.now) }
    {
        match self.countdown {
            Some(countdown) => {
                let list = self.commands[countdown.global].list();
                &list[list.len() - countdown.left]
            }
            None => &self.commands[self.next],
        }
    }

    /// The next command is done.
    pub(crate) fn pass(&mut self)
        requires there { IsSome (next_command self.old.running_list self.old.steps) }
        ensures value { self.new ≡ passed self.old }
    {
        match &mut self.countdown {
            Some(countdown) => countdown.left -= 1,
            None => self.next += 1,
        }
    }

    /// The next step of the script is a global command, which is open from here on; its list is run for at most so many lines, of
    /// which none was taken yet.
    pub(crate) fn open(&mut self, lines: usize)
        requires outside { self.old.running_list ≡ None }
        requires there { IsSome (next_command self.old.running_list self.old.steps) }
        ensures value { self.new ≡ opened_for lines self.old }
        ensures counted { lines < 2 ^ 64 }
    {
        self.countdown = Some(Countdown {
            global: self.next,
            left: 0,
            lines,
        });
        self.next += 1;
    }

    /// For how many lines more the list of an open global command is run at most.
    pub(crate) fn lines(&self) -> usize
        ensures value { result ≡ lines_of self.now.running_list }
    {
        match self.countdown {
            Some(countdown) => countdown.lines,
            None => 0,
        }
    }

    /// One of these lines was taken, and the list is run from its beginning.
    pub(crate) fn repeat(&mut self)
        requires more { 0 < lines_of self.old.running_list }
        ensures value { self.new ≡ repeated self.old }
    {
        if let Some(countdown) = &mut self.countdown {
            countdown.left = self.commands[countdown.global].list().len();
            countdown.lines -= 1;
        }
    }

    /// The global command is over.
    pub(crate) fn close(&mut self)
        ensures value { self.new ≡ record self.old { running_list = None } }
    {
        self.countdown = None;
    }
}
