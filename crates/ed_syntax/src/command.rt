//! The commands of a script.
ghost use Rattle.std.specs.Prelude.{◌≡◌, map, IfOk};
ghost use Rattle.ed_syntax.specs.PublicTypes.{address_value, base_value, command_value, step_value};

use crate::{Pattern, Replacement, Which};
use ed_base::{Bytes, Letter, Text};
use std::alloc::AllocError;

/// Where an address begins.
#[derive(Debug, PartialEq, Eq, Drop)]
pub enum Base {
    /// A line's number, from 0 to 999999999.
    Number(u32),
    /// `.`, the current line.
    Current,
    /// `$`, the last line.
    Last,
    /// `'x`, the line with this mark.
    Marked(Letter),
    /// `/RE/`, the next line that matches; `None` is the remembered pattern.
    Forward(Option<Pattern>),
    /// `?RE?`, the line before that matches; `None` is the remembered pattern.
    Backward(Option<Pattern>),
}

/// An address: its base and the sum of its offsets, in lines.
#[derive(Debug, PartialEq, Eq, Drop)]
pub struct Address {
    pub base: Base,
    pub offset: i128,
}

/// The addresses before a command, omitted parts filled in.
#[derive(Debug, PartialEq, Eq, Drop)]
pub enum Addresses {
    Without,
    One(Address),
    /// Two with a `,` between them.
    Comma(Address, Address),
    /// Two with a `;` between them; a second one that is omitted has the first one's value.
    Semicolon(Address, Option<Address>),
}

/// How a line is written.
#[derive(Clone, Copy, Debug, PartialEq, Eq)]
pub enum Form {
    /// By `p`: the line as it is.
    Plain,
    /// By `n`: the line's number, a tab, the line.
    Numbered,
    /// By `l`: each byte so that it can be told, in rows of at most 71 bytes, and a `$` at the end.
    Unambiguous,
}

/// Which lines a global command takes.
#[derive(Clone, Copy, Debug, PartialEq, Eq)]
pub enum Sense {
    /// By `g`: those that match.
    Matching,
    /// By `v`: the others.
    Others,
}

/// A command's letter with its parameters.
#[derive(Debug, PartialEq, Eq, Drop)]
#[cycle(command)]
pub enum Verb {
    /// `a`: the lines of the text go after the addressed line.
    Append(Text),
    /// `c`: the lines of the text come in place of the addressed lines.
    Change(Text),
    /// `d`
    Delete,
    /// `i`: the lines of the text go before the addressed line.
    Insert(Text),
    /// `j`: the addressed lines become one.
    Join,
    /// `m`: the addressed lines go after the target.
    Move(Address),
    /// `t`: copies of the addressed lines go after the target.
    Copy(Address),
    /// `s`: of each addressed line, matches are replaced.
    Substitute {
        /// `None` is the remembered pattern.
        pattern: Option<Pattern>,
        /// `None` is the remembered replacement, `%`.
        replacement: Option<Replacement>,
        which: Which,
        /// Writes the last line that was made in this form.
        form: Option<Form>,
    },
    /// `k`: the letter marks the addressed line.
    Mark(Letter),
    /// `=`: writes the addressed line's number.
    LineNumber,
    /// No letter: writes the addressed line.
    Null,
    /// `l`, `n` and `p`, by their form.
    Write(Form),
    /// `r`: the lines of the file at this path go after the addressed line. `None` is the remembered path, here and below.
    ReadFile(Option<Bytes>),
    /// `w`: the addressed lines are what the file then has.
    WriteFile(Option<Bytes>),
    /// `e`: the lines of the file come in place of the buffer, if its changes were written.
    Edit(Option<Bytes>),
    /// `E`: as `e`, whether or not changes were written.
    EditAnyway(Option<Bytes>),
    /// `f`: the path is remembered, and the remembered one is written.
    FileName(Option<Bytes>),
    /// `g` and `v`: the commands of the list are run for each of the addressed lines that is taken.
    Global {
        sense: Sense,
        /// `None` is the remembered pattern.
        pattern: Option<Pattern>,
        list: Vec<Command>,
    },
    /// `u`: the last change is undone.
    Undo,
    /// `h`: nothing, since a run has no earlier fault.
    Help,
    /// `H`: turns help mode on or off, in which a fault's text is written after its `?`.
    HelpMode,
    /// `P`: turns prompting on or off.
    PromptMode,
    /// `q`: the end of the run, if changes were written.
    Quit,
    /// `Q`: the end of the run, whether or not changes were written.
    QuitAnyway,
}

/// A command (XCU ed, "Commands in ed").
#[derive(Debug, PartialEq, Eq, Drop)]
#[cycle(command)]
pub struct Command {
    pub addresses: Addresses,
    pub verb: Verb,
    /// Writes the new current line in this form.
    pub suffix: Option<Form>,
    /// It stands in the list of a global command.
    pub listed: bool,
}

impl Command {
    /// The list of a global command; all others have none.
    pub fn list(&self) -> &[Command]
        ensures value { map command_value result.now ≡ (step_value self.now).list }
    {
        match &self.verb {
            Verb::Global { list, .. } => list.as_slice(),
            _ => &[],
        }
    }
}

impl Base {
    /// An equal base.
    pub fn try_copy(&self) -> Result<Base, AllocError>
        ensures value { IfOk result (λ copy. base_value copy ≡ base_value self.now) }
    {
        match self {
            Base::Number(number) => Ok(Base::Number(*number)),
            Base::Current => Ok(Base::Current),
            Base::Last => Ok(Base::Last),
            Base::Marked(letter) => Ok(Base::Marked(*letter)),
            Base::Forward(pattern) => Ok(Base::Forward(copy_of(pattern)?)),
            Base::Backward(pattern) => Ok(Base::Backward(copy_of(pattern)?)),
        }
    }
}

impl Address {
    /// An equal address.
    pub fn try_copy(&self) -> Result<Address, AllocError>
        ensures value { IfOk result (λ copy. address_value copy ≡ address_value self.now) }
    {
        Ok(Address {
            base: self.base.try_copy()?,
            offset: self.offset,
        })
    }
}

fn copy_of(pattern: &Option<Pattern>) -> Result<Option<Pattern>, AllocError>
    ensures value { IfOk result (λ copy. copy ≡ pattern.now) }
{
    match pattern {
        Some(pattern) => Ok(Some(pattern.try_copy()?)),
        None => Ok(None),
    }
}
