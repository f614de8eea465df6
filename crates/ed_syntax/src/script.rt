//! The commands of a script, and where it can't be read.
ghost use Rattle.std.specs.Prelude.{IsTrue};
ghost use Rattle.std.specs.List.{list_all};
ghost use Rattle.ed_syntax.specs.PublicTypes.{steps_value};
ghost use Rattle.ed_syntax.specs.meaning.Verbs.{is_step};

use crate::Command;

/// A script: its commands up to the first that can't be read.
#[derive(Debug, Drop)]
pub struct Script {
    pub commands: Vec<Command>,
    /// The line on which the first command begins that can't be read, counted from 1.
    pub fault: Option<usize>,
    // None of its own commands is listed; those of lists are, and are such as may stand there. What marks a line is a letter.
    ghost stand: { IsTrue (list_all is_step (steps_value commands.items)) },
}
