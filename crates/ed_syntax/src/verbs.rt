//! What each command takes: the table that the reader, the editor and the rules of the verifier ask.
ghost use Rattle.std.specs.Prelude.{◌≡◌};
ghost use Rattle.ed_syntax.specs.Commands.{Last, at_base};
ghost use Rattle.ed_syntax.specs.PublicTypes.{address_value, addresses_value, verb_value, default_value, takes_value};
ghost use Rattle.ed_syntax.specs.meaning.Verbs.{here, next, row, takes};

use crate::{Address, Addresses, Base, Pattern, Verb};
use ed_base::{Bytes, Text};

/// How many addresses a command takes, and what line 0 means to it (XCU ed, "Addresses in ed").
#[derive(Clone, Copy, Debug, PartialEq, Eq)]
pub enum Taking {
    /// None; given ones are a fault.
    NoAddress,
    /// The last one given; 0 is before the first line.
    Place,
    /// The last one given; 0 stands for 1.
    FirstPlace,
    /// The last one given; 0 is a fault.
    OneLine,
    /// Two, the first not after the second; 0 stands for 1, where there is a line. One given stands for both.
    Lines,
    /// Two, the first not after the second; 0 is a fault. One given stands for both.
    Range,
    /// As `Range`; without any, all lines, of an empty buffer none.
    Whole,
}

/// What stands for the addresses where none is given.
#[derive(Clone, Copy, Debug, PartialEq, Eq)]
pub enum DefaultAddresses {
    Without,
    /// `.`
    Current,
    /// `.+1`
    Next,
    /// `$`
    Last,
    /// `.,.`
    CurrentTwice,
    /// `.,.+1`
    CurrentAndNext,
}

/// How a command ends the run (XCU ed, "Quit Command", "Quit Without Checking").
#[derive(Clone, Copy, Debug, PartialEq, Eq)]
pub enum Ends {
    /// As the end of the script does: a fault where changes would be lost.
    AsScript,
    /// Whether or not changes would be lost.
    Anyway,
}

/// What a command does to the lines of the buffer, its list aside.
#[derive(Clone, Copy, Debug)]
pub enum Alteration<'a> {
    /// Nothing: each line stays.
    Never,
    /// These lines are put in, and each other stays.
    Enters(&'a Text),
    /// These lines come in place of some.
    Replaces(&'a Text),
    /// Some lines are taken away.
    Deletes,
    /// Several lines become one.
    Joins,
    /// Some lines are moved, or copied: each line stays somewhere.
    Carries,
    /// Some lines are written anew.
    Rewrites,
    /// The lines of a file are put in, if it has any, and each other stays.
    Reads,
    /// The lines of a file come in place of all.
    Loads,
    /// The lines of before the last change come back.
    BringsBack,
}

/// What a command takes, and what else is asked of it.
#[derive(Clone, Copy, Debug)]
pub struct Takes<'a> {
    pub default: DefaultAddresses,
    pub taking: Taking,
    /// The lines of a text follow the command's own line.
    pub text: bool,
    /// The address after which lines are moved or copied.
    pub target: Option<&'a Address>,
    /// The pattern that it is given.
    pub pattern: Option<&'a Pattern>,
    /// The path that it is given.
    pub path: Option<&'a Bytes>,
    /// A suffix may follow.
    pub suffix: bool,
    /// It may stand in the list of a global command.
    pub listed: bool,
    /// It asks for a file: one to read, or one to write.
    pub asks: bool,
    /// It may change the buffer; a global command may by its list.
    pub alters: bool,
    /// What it does to the lines.
    pub lines: Alteration<'a>,
    /// It is exact: beside what its addresses ask, it looks at nothing of the buffer but how many lines there are.
    pub exact: bool,
    /// How it ends the run, if it does.
    pub ends: Option<Ends>,
    /// It has a list of commands.
    pub global: bool,
}

/// The current line.
fn here() -> Address
    ensures value { address_value result ≡ here }
{
    Address {
        base: Base::Current,
        offset: 0,
    }
}

/// The line after the current one.
fn next() -> Address
    ensures value { address_value result ≡ next }
{
    Address {
        base: Base::Current,
        offset: 1,
    }
}

/// The last line.
fn last() -> Address
    ensures value { address_value result ≡ at_base Last }
{
    Address {
        base: Base::Last,
        offset: 0,
    }
}

impl DefaultAddresses {
    /// These addresses.
    pub fn addresses(self) -> Addresses
        ensures value { addresses_value result ≡ default_value self }
    {
        match self {
            DefaultAddresses::Without => Addresses::Without,
            DefaultAddresses::Current => Addresses::One(here()),
            DefaultAddresses::Next => Addresses::One(next()),
            DefaultAddresses::Last => Addresses::One(last()),
            DefaultAddresses::CurrentTwice => Addresses::Comma(here(), here()),
            DefaultAddresses::CurrentAndNext => Addresses::Comma(here(), next()),
        }
    }
}

/// What a command takes that changes nothing, is exact, and is given nothing but addresses and a suffix.
fn row<'a>(default: DefaultAddresses, taking: Taking) -> Takes<'a>
    ensures value { takes_value result ≡ row (default_value default) taking }
{
    Takes {
        default,
        taking,
        text: false,
        target: None,
        pattern: None,
        path: None,
        suffix: true,
        listed: true,
        asks: false,
        alters: false,
        lines: Alteration::Never,
        exact: true,
        ends: None,
        global: false,
    }
}

impl Verb {
    /// What the command takes: its row of the table.
    pub fn takes(&self) -> Takes<'_>
        ensures value { takes_value result ≡ takes (verb_value self.now) }
    {
        match self {
            Verb::Append(text) => Takes {
                text: true,
                alters: true,
                lines: Alteration::Enters(text),
                ..row(DefaultAddresses::Current, Taking::Place)
            },
            Verb::Change(text) => Takes {
                text: true,
                alters: true,
                lines: Alteration::Replaces(text),
                ..row(DefaultAddresses::CurrentTwice, Taking::Lines)
            },
            Verb::Insert(text) => Takes {
                text: true,
                alters: true,
                lines: Alteration::Enters(text),
                ..row(DefaultAddresses::Current, Taking::FirstPlace)
            },
            Verb::Delete => Takes {
                alters: true,
                lines: Alteration::Deletes,
                ..row(DefaultAddresses::CurrentTwice, Taking::Range)
            },
            Verb::Join => Takes {
                alters: true,
                lines: Alteration::Joins,
                ..row(DefaultAddresses::CurrentAndNext, Taking::Range)
            },
            Verb::Move(to) | Verb::Copy(to) => Takes {
                target: Some(to),
                alters: true,
                lines: Alteration::Carries,
                ..row(DefaultAddresses::CurrentTwice, Taking::Range)
            },
            Verb::Substitute { pattern, .. } => Takes {
                pattern: pattern.as_ref(),
                suffix: false,
                exact: false,
                alters: true,
                lines: Alteration::Rewrites,
                ..row(DefaultAddresses::CurrentTwice, Taking::Range)
            },
            Verb::Mark(_) => Takes {
                exact: false,
                ..row(DefaultAddresses::Current, Taking::OneLine)
            },
            Verb::LineNumber => row(DefaultAddresses::Last, Taking::Place),
            Verb::Null => Takes {
                suffix: false,
                ..row(DefaultAddresses::Next, Taking::OneLine)
            },
            Verb::Write(_) => row(DefaultAddresses::CurrentTwice, Taking::Range),
            Verb::ReadFile(path) => Takes {
                path: path.as_ref(),
                suffix: false,
                asks: true,
                exact: false,
                alters: true,
                lines: Alteration::Reads,
                ..row(DefaultAddresses::Last, Taking::Place)
            },
            Verb::WriteFile(path) => Takes {
                path: path.as_ref(),
                suffix: false,
                asks: true,
                ..row(DefaultAddresses::Without, Taking::Whole)
            },
            Verb::Edit(path) | Verb::EditAnyway(path) => Takes {
                path: path.as_ref(),
                suffix: false,
                listed: false,
                asks: true,
                exact: false,
                alters: true,
                lines: Alteration::Loads,
                ..row(DefaultAddresses::Without, Taking::NoAddress)
            },
            Verb::FileName(path) => Takes {
                path: path.as_ref(),
                suffix: false,
                ..row(DefaultAddresses::Without, Taking::NoAddress)
            },
            Verb::Global { pattern, .. } => Takes {
                pattern: pattern.as_ref(),
                suffix: false,
                listed: false,
                alters: true,
                exact: false,
                global: true,
                ..row(DefaultAddresses::Without, Taking::Whole)
            },
            Verb::Undo => Takes {
                listed: false,
                exact: false,
                alters: true,
                lines: Alteration::BringsBack,
                ..row(DefaultAddresses::Without, Taking::NoAddress)
            },
            Verb::Help | Verb::HelpMode | Verb::PromptMode => {
                row(DefaultAddresses::Without, Taking::NoAddress)
            }
            Verb::Quit => Takes {
                suffix: false,
                listed: false,
                ends: Some(Ends::AsScript),
                ..row(DefaultAddresses::Without, Taking::NoAddress)
            },
            Verb::QuitAnyway => Takes {
                suffix: false,
                listed: false,
                ends: Some(Ends::Anyway),
                ..row(DefaultAddresses::Without, Taking::NoAddress)
            },
        }
    }
}
