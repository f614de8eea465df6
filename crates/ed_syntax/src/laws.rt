//! What holds of all commands and of all runs.
ghost use Rattle.ed_base.specs.declared.fault.Fault.TheVariants as fault;
ghost use Rattle.ed_syntax.specs.meaning.CommandLaws.{AddressesKeepTheRest, TargetsKeepTheRest, SpansAreInOrder, CommandsArePlaced, ListsLeaveUndo, ListsAddNoFlags, ListsNoteChanges, CommandsKeepMarks, OpenKeepsMarks, CommandsKeepLines, FilesAreWellMarked, FilesAreWhole, FlagsMarkNothing, FlagsAreNoBytes};
ghost use Rattle.ed_syntax.specs.meaning.ErasureLaws.{CommandsLeaveLetters, RunsIgnoreLetters, StartsMayBeMarked, MarkedLinesAreWell, MarksStand};
ghost use Rattle.ed_syntax.specs.meaning.Laws.{UnaskedAnswersDoNothing, NothingIsAskedTwice, OnlyUnservedFilesFail, FilesAreWrittenByTheirPath, NeverEndsBy, FilesHaveACause};
ghost use Rattle.ed_syntax.specs.meaning.Progress.{CutsToAFront, CutsAfter};
ghost use Rattle.ed_syntax.specs.spelling.Readable.{SpelledIsReadable};

/// Addresses and a target change the current line and the remembered pattern alone, and the lines that a command is applied to are in
/// order.
pub fn commands_are_placed()
    ensures addresses { AddressesKeepTheRest }
    ensures target { TargetsKeepTheRest }
    ensures order { SpansAreInOrder }
    ensures placed { CommandsArePlaced }
{}

/// A command of a list leaves what undo keeps as it is.
pub fn listed_commands_leave_undo()
    ensures undo { ListsLeaveUndo }
{}

/// A command of a list gives no line the flag of a global command, so that the list is run at most once for each line that has it.
pub fn lists_add_no_flags()
    ensures flags { ListsAddNoFlags }
{}

/// A command of a list leaves the global command that is open as it is, or makes it know of a change, which only a command that may
/// change the buffer does.
pub fn lists_note_changes()
    ensures notes { ListsNoteChanges }
{}

/// Where each letter marks at most one line, and of each line all letters are known, in the buffer and in what undo would bring back, it
/// is so after a command; and so it is before a global command that is open, whose buffer undo has once the list was run.
pub fn commands_keep_marks()
    ensures marks { CommandsKeepMarks }
    ensures global { OpenKeepsMarks }
{}

/// Where no line holds a newline, neither in the buffer nor in what undo would bring back, none does after a command that enters lines.
pub fn commands_keep_lines()
    ensures lines { CommandsKeepLines }
{}

/// The lines of a file are well marked, and none holds a newline.
pub fn files_have_lines()
    ensures marks { FilesAreWellMarked }
    ensures lines { FilesAreWhole }
{}

/// Lines that differ in their flags alone are as well marked, and hold a newline no more.
pub fn flags_change_no_line()
    ensures marks { FlagsMarkNothing }
    ensures lines { FlagsAreNoBytes }
{}

/// A run that is cut where memory ran out wrote a front of its output and the report; cut after some of its steps, it is cut in what
/// was left of it.
pub fn cut_runs_write_a_front()
    ensures front { CutsToAFront }
    ensures after { CutsAfter }
{}

/// An answer is looked at only where a file is asked for, and then no more is asked; the command fails by the file only if the answer
/// isn't what it asked for. Files are written by the path that `w` uses.
pub fn answers_are_asked_for()
    ensures unasked { UnaskedAnswersDoNothing }
    ensures once { NothingIsAskedTwice }
    ensures served { OnlyUnservedFilesFail }
    ensures written { FilesAreWrittenByTheirPath }
{}

/// No run ends by memory or output that was lost, and one that ends by a file had an answer that wasn't what it asked for.
pub fn runs_end_for_a_cause()
    ensures memory { NeverEndsBy fault.Memory }
    ensures output { NeverEndsBy fault.Output }
    ensures file { FilesHaveACause }
{}

/// Each command of a script that bytes spell is readable. No crate calls this law: it is for whoever reads what the analyser proves of
/// the scripts whose runs it foretells, which have to be readable ones.
pub fn spelled_scripts_are_readable()
    ensures readable { SpelledIsReadable }
{}

/// A letter that isn't named changes nothing: each command does the same without it, and so does what is left of a run. So such
/// letters may be put on the lines of the start: each marks its line, and all else is as before.
pub fn unnamed_letters_change_nothing()
    ensures command { CommandsLeaveLetters }
    ensures run { RunsIgnoreLetters }
    ensures start { StartsMayBeMarked }
    ensures lines { MarkedLinesAreWell }
    ensures marks { MarksStand }
{}
