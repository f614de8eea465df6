//! The program's subcommands and what each takes, as `clap` is told.
ghost use Rattle.std.specs.Prelude.{◌≡◌, false, map, All, IfOk};
ghost use Rattle.clap.specs.Words.{app_of, rule_of};
ghost use Rattle.clap.specs.declared.builder.command.Command.TheViews.{out-Command as fields_of};
ghost use Rattle.ed_main.specs.Subcommands as meaning;

use clap::{Arg, ArgAction, Command};
use std::alloc::{AllocError, Global};

/// The program as `clap` sees it.
pub fn program<'a>(alloc: Global) -> Result<Command<'a>, AllocError>
    ensures value { IfOk result (λ command. app_of command ≡ meaning.program) }
{
    let command = Command::new(alloc, "edv")
        .about("The line editor ed, for scripts that are checked before they are run")
        .version("0.1")
        .subcommand_required(true)
        .subcommand(edit(alloc)?)?
        .subcommand(vouch(alloc)?)?
        .subcommand(explain(alloc)?)?
        .subcommand(check(alloc)?)?
        .subcommand(run(alloc)?)?
        .subcommand(fits(alloc)?)?;
    Ok(command)
}

fn edit<'a>(alloc: Global) -> Result<Command<'a>, AllocError>
    ensures value { IfOk result (λ command. app_of command ≡ meaning.edit) }
    ensures local { IfOk result (λ command. (fields_of command).has_globals ≡ false) }
{
    subcommand(
        alloc,
        "edit",
        "Runs a script on a file",
        "Example: edv edit FILE <script.ed",
        vec![in alloc;
            vouched(alloc),
            like(alloc),
            at(alloc),
            whole(alloc),
            backup(alloc),
            unchanged(alloc),
            rehearsed(alloc),
            diff(alloc),
            silent(alloc),
            prompt(alloc),
            script(alloc),
            file(alloc, "The file that is edited"),
        ]?,
    )
}

fn vouch<'a>(alloc: Global) -> Result<Command<'a>, AllocError>
    ensures value { IfOk result (λ command. app_of command ≡ meaning.vouch) }
    ensures local { IfOk result (λ command. (fields_of command).has_globals ≡ false) }
{
    subcommand(
        alloc,
        "vouch",
        "Writes a certificate that a script can't fail, or where it can",
        "Example: edv vouch FILE <script.ed >CERT",
        vec![in alloc;
            like(alloc),
            min(alloc),
            max(alloc),
            all(alloc),
            quiet(alloc),
            patterns(alloc),
            has(alloc),
            at(alloc),
            scripts(alloc),
            file(alloc, "The file that the certificate is for"),
        ]?,
    )
}

fn explain<'a>(alloc: Global) -> Result<Command<'a>, AllocError>
    ensures value { IfOk result (λ command. app_of command ≡ meaning.explain) }
    ensures local { IfOk result (λ command. (fields_of command).has_globals ≡ false) }
{
    subcommand(
        alloc,
        "explain",
        "Tells what is known before each command of a script",
        "Example: edv explain CERT <script.ed",
        vec![in alloc;
            like(alloc),
            min(alloc),
            max(alloc),
            patterns(alloc),
            has(alloc),
            at(alloc),
            script(alloc),
            notes(alloc),
        ]?,
    )
}

fn check<'a>(alloc: Global) -> Result<Command<'a>, AllocError>
    ensures value { IfOk result (λ command. app_of command ≡ meaning.check) }
    ensures local { IfOk result (λ command. (fields_of command).has_globals ≡ false) }
{
    subcommand(
        alloc,
        "check",
        "Checks a certificate for a script",
        "Example: edv check CERT <script.ed",
        vec![in alloc; script(alloc), certificate(alloc)]?,
    )
}

fn run<'a>(alloc: Global) -> Result<Command<'a>, AllocError>
    ensures value { IfOk result (λ command. app_of command ≡ meaning.run) }
    ensures local { IfOk result (λ command. (fields_of command).has_globals ≡ false) }
{
    subcommand(
        alloc,
        "run",
        "Runs a script on a file if a certificate for both is accepted",
        "Example: edv run CERT FILE <script.ed",
        vec![in alloc;
            whole(alloc),
            backup(alloc),
            rehearsed(alloc),
            diff(alloc),
            silent(alloc),
            script(alloc),
            certificate(alloc),
            file(alloc, "The file that is edited"),
        ]?,
    )
}

fn fits<'a>(alloc: Global) -> Result<Command<'a>, AllocError>
    ensures value { IfOk result (λ command. app_of command ≡ meaning.fits) }
    ensures local { IfOk result (λ command. (fields_of command).has_globals ≡ false) }
{
    subcommand(
        alloc,
        "fits",
        "Tells whether a file is one that a certificate allows; no script is read",
        "Example: edv fits CERT FILE",
        vec![in alloc; certificate(alloc), file(alloc, "The file that is tested")]?,
    )
}

/// A subcommand that takes these options and words, with what its help begins and ends with.
fn subcommand<'a>(
    alloc: Global,
    name: &'a str,
    about: &'a str,
    example: &'a str,
    takes: Vec<Arg<'a>>,
) -> Result<Command<'a>, AllocError>
    requires local { All (λ arg. arg.global ≡ false) takes.items }
    ensures value { IfOk result (λ command. app_of command ≡ meaning.subcommand name.now (map rule_of takes.entry.items)) }
    ensures local { IfOk result (λ command. (fields_of command).has_globals ≡ false) }
{
    let command = Command::new(alloc, name).about(about).after_help(example);
    command.args(takes)
}

fn vouched<'a>(alloc: Global) -> Arg<'a>
    ensures value { rule_of result ≡ meaning.vouched }
    ensures local { result.global ≡ false }
{
    Arg::new(alloc, "vouched")
        .long("vouched")
        .action(ArgAction::SetTrue)
        .help("Runs the script only if it is vouched for and the file fits")
}

fn whole<'a>(alloc: Global) -> Arg<'a>
    ensures value { rule_of result ≡ meaning.whole }
    ensures local { result.global ≡ false }
{
    Arg::new(alloc, "whole")
        .long("whole")
        .action(ArgAction::SetTrue)
        .help("Replaces each file that is written whole, when the script has come to its end")
}

fn backup<'a>(alloc: Global) -> Arg<'a>
    ensures value { rule_of result ≡ meaning.backup }
    ensures local { result.global ≡ false }
{
    Arg::new(alloc, "backup")
        .long("backup")
        .action(ArgAction::Set)
        .value_name("SUFFIX")
        .help("Keeps each file that is replaced whole under its name with SUFFIX")
}

fn unchanged<'a>(alloc: Global) -> Arg<'a>
    ensures value { rule_of result ≡ meaning.unchanged }
    ensures local { result.global ≡ false }
{
    Arg::new(alloc, "unchanged")
        .long("unchanged")
        .action(ArgAction::SetTrue)
        .help("Leaves a file alone that has the bytes already, as --whole does")
}

fn rehearsed<'a>(alloc: Global) -> Arg<'a>
    ensures value { rule_of result ≡ meaning.rehearsed }
    ensures local { result.global ≡ false }
{
    Arg::new(alloc, "rehearsed")
        .short('n')
        .long("dry-run")
        .action(ArgAction::SetTrue)
        .help("Writes no file, and says on standard error what would be written")
}

fn diff<'a>(alloc: Global) -> Arg<'a>
    ensures value { rule_of result ≡ meaning.diff }
    ensures local { result.global ≡ false }
{
    Arg::new(alloc, "diff")
        .long("diff")
        .action(ArgAction::SetTrue)
        .help("Writes what -n would change in each file, as a unified diff")
}

fn silent<'a>(alloc: Global) -> Arg<'a>
    ensures value { rule_of result ≡ meaning.silent }
    ensures local { result.global ≡ false }
{
    Arg::new(alloc, "silent")
        .short('s')
        .action(ArgAction::SetTrue)
        .help("Doesn't write the counts of bytes that are read and written")
}

fn prompt<'a>(alloc: Global) -> Arg<'a>
    ensures value { rule_of result ≡ meaning.prompt }
    ensures local { result.global ≡ false }
{
    Arg::new(alloc, "prompt")
        .short('p')
        .action(ArgAction::Set)
        .value_name("STRING")
        .help("Writes STRING before each command")
}

fn script<'a>(alloc: Global) -> Arg<'a>
    ensures value { rule_of result ≡ meaning.script }
    ensures local { result.global ≡ false }
{
    Arg::new(alloc, "script")
        .short('f')
        .action(ArgAction::Set)
        .value_name("SCRIPT")
        .help("The file that the script is read from, in place of standard input")
}

fn scripts<'a>(alloc: Global) -> Arg<'a>
    ensures value { rule_of result ≡ meaning.scripts }
    ensures local { result.global ≡ false }
{
    script(alloc).action(ArgAction::Append)
}

fn file<'a>(alloc: Global, help: &'a str) -> Arg<'a>
    ensures value { rule_of result ≡ meaning.file }
    ensures local { result.global ≡ false }
{
    Arg::new(alloc, "file")
        .action(ArgAction::Set)
        .value_name("FILE")
        .help(help)
}

fn min<'a>(alloc: Global) -> Arg<'a>
    ensures value { rule_of result ≡ meaning.min }
    ensures local { result.global ≡ false }
{
    Arg::new(alloc, "min")
        .long("min")
        .action(ArgAction::Set)
        .value_name("N")
        .help("The fewest lines that the file may have, at most 10^12; found if it isn't given")
}

fn max<'a>(alloc: Global) -> Arg<'a>
    ensures value { rule_of result ≡ meaning.max }
    ensures local { result.global ≡ false }
{
    Arg::new(alloc, "max")
        .long("max")
        .action(ArgAction::Set)
        .value_name("M")
        .help("The most lines that the file may have, at most 10^12, or any, which is the default")
}

fn like<'a>(alloc: Global) -> Arg<'a>
    ensures value { rule_of result ≡ meaning.like }
    ensures local { result.global ≡ false }
{
    Arg::new(alloc, "like")
        .long("like")
        .action(ArgAction::Set)
        .value_name("FILE")
        .help("Vouches for files like this one: it has the bounds and the patterns that are found")
}

fn all<'a>(alloc: Global) -> Arg<'a>
    ensures value { rule_of result ≡ meaning.all }
    ensures local { result.global ≡ false }
{
    Arg::new(alloc, "all")
        .long("all")
        .action(ArgAction::SetTrue)
        .help("Shows all that may fail, each as if what comes before it were mended")
}

fn quiet<'a>(alloc: Global) -> Arg<'a>
    ensures value { rule_of result ≡ meaning.quiet }
    ensures local { result.global ≡ false }
{
    Arg::new(alloc, "quiet")
        .short('q')
        .long("quiet")
        .action(ArgAction::SetTrue)
        .help("Writes nothing: the status tells whether all scripts are vouched for")
}

fn patterns<'a>(alloc: Global) -> Arg<'a>
    ensures value { rule_of result ≡ meaning.patterns }
    ensures local { result.global ≡ false }
{
    Arg::new(alloc, "patterns")
        .long("patterns")
        .action(ArgAction::SetTrue)
        .help("Tells of patterns, as --has does, that lines match which are entered or taken by g")
}

fn has<'a>(alloc: Global) -> Arg<'a>
    ensures value { rule_of result ≡ meaning.has }
    ensures local { result.global ≡ false }
{
    Arg::new(alloc, "has")
        .long("has")
        .action(ArgAction::Append)
        .value_name("RE")
        .help("A pattern that some line of the file matches, as run tests; may come more than once")
}

fn at<'a>(alloc: Global) -> Arg<'a>
    ensures value { rule_of result ≡ meaning.at }
    ensures local { result.global ≡ false }
{
    Arg::new(alloc, "at")
        .long("at")
        .action(ArgAction::Append)
        .value_name("CHAIN")
        .help("Lines that the file has, as '/^Port/ & /22/', as run tests; may come more than once")
}

fn notes<'a>(alloc: Global) -> Arg<'a>
    ensures value { rule_of result ≡ meaning.notes }
    ensures local { result.global ≡ false }
{
    Arg::new(alloc, "certificate")
        .action(ArgAction::Set)
        .value_name("CERT")
        .help("The file with the certificate; without one the start is found, as vouch finds it")
}

fn certificate<'a>(alloc: Global) -> Arg<'a>
    ensures value { rule_of result ≡ meaning.certificate }
    ensures local { result.global ≡ false }
{
    notes(alloc)
        .required(true)
        .help("The file with the certificate")
}
