//! One run of the program: its words, its script, its files, and the status that it ends with.
ghost use Rattle.std.specs.Prelude.{◌≤◌, ℕ, List, Option, IfOk, IfSome};
ghost use Rattle.ed_calls.specs.Check.{Checks};
ghost use Rattle.ed_calls.specs.Explains.{Explains, ExplainsBy};
ghost use Rattle.ed_calls.specs.Fits.{Fits};
ghost use Rattle.ed_calls.specs.Told.{Says};
ghost use Rattle.ed_calls.specs.Vouch.{Vouches};
ghost use Rattle.ed_main.specs.Job.{IsGiven};
ghost use Rattle.ed_main.specs.Letters.{WithLetters};
ghost use Rattle.ed_main.specs.Program.{Does, DoesIfMeant, Edits, EditsVouched, EndsWords, IsEnding, RunsOn, Somehow, Writes};
ghost use Rattle.ed_main.specs.Several.{Judges};
ghost use Rattle.ed_main.specs.Starts.{AreStarts};
ghost use Rattle.ed_main.specs.Wanted.{IsWanted, WithFile, WithStarts};
ghost use Rattle.ed_main.specs.declared.job.Job.TheVariants as jobs;

use crate::inputs::{bytes_at, refuse_script, script_from, status_of_read};
use crate::job::Job;
use crate::letters::{USAGE_STATUS, refusal_for};
use crate::meant::is_mistaken;
use crate::paths::Paths;
use crate::proposing::starts_from;
use crate::screen::Screen;
use crate::several::judge_scripts;
use crate::stderr::notes::{
    show_empty, show_if_missing, show_mistaken, show_no_file, show_terminal,
};
use crate::stderr::usage::{EDIT_USAGE, EXPLAIN_USAGE, USAGE, VOUCH_USAGE};
use crate::task::{Task, Trust, do_task, files_of};
use crate::wanted::Wanted;
use crate::words::{WordsFault, job_of_words};
use crate::writing::Writing;
use ed_base::{Bytes, Fault};
use ed_calls::{
    Aside, Detail, Starts, check_text, explain_certificate, explain_script, fit, show_output,
    vouch_text,
};
use ed_session::{DiskFiles, Out};
use ed_syntax::Options;
use sources::In;
use std::fs::File;
use std::io::IsTerminal;
use std::rt::{Env, Files};
use std::{env, io};

/// Does what the program's words say, and gives its exit status.
pub fn status_of_run<R>(rt: &R) -> u8
where
    R: Env + Files<File = File> + Input + Print + Eprint + AllocGlobal + Screen,
    R::Reader: IsTerminal,
    ensures status { result ≤ 5 }
    ensures ending { IsEnding result }
{
    match job_of_run(rt) {
        Ok(job) => {
            let reader = rt.reader();
            show_terminal(rt, &job, reader.is_terminal());
            let mut input = In::new(reader);
            match script_from(rt, &mut input, &job) {
                Ok(script) => do_if_meant(rt, script.as_slice(), job),
                Err(fault) => refuse_script(rt, &job, fault, input.reason()),
            }
        }
        Err(fault) => refuse(rt, &fault),
    }
}

/// Shows what is wrong with the words, or the help that they ask for.
fn refuse<R: Print + Eprint>(rt: &R, fault: &WordsFault) -> u8
    ensures status { result ≤ 4 }
    ensures value { EndsWords fault.now result }
{
    match fault {
        WordsFault::Memory => Fault::Memory.status(),
        WordsFault::Usage(text) => {
            let _ = rt.eprint(text);
            USAGE_STATUS
        }
        WordsFault::Asked(text) => match rt.print(text) {
            Ok(()) => 0,
            Err(_) => Fault::Output.status(),
        },
    }
}

/// The job that the program's words give.
fn job_of_run<R: Env + AllocGlobal>(rt: &R) -> Result<Job, WordsFault>
    ensures given { IfOk result IsGiven }
{
    let words = match env::args(rt) {
        Ok(words) => words.collect::<Vec<String>>(rt.alloc())?,
        Err(error) if error.kind() == io::ErrorKind::OutOfMemory => return Err(WordsFault::Memory),
        Err(_) => {
            let wrong = "error: a word that isn't UTF-8";
            return Err(WordsFault::of(rt.alloc(), wrong, USAGE));
        }
    };
    job_of_words(rt.alloc(), words.as_slice())
}

/// Does a job with the script's bytes, unless its file is the script that was meant.
fn do_if_meant<R>(rt: &R, script: &[u8], job: Job) -> u8
where
    R: Files<File = File> + Print + Eprint + AllocGlobal + Screen,
    requires given { IsGiven job }
    ensures status { result ≤ 5 }
    ensures did { DoesIfMeant script.now job result }
    ensures ending { IsEnding result }
{
    if is_mistaken(rt, script, &job) {
        show_mistaken(rt.alloc(), rt, &job);
        return USAGE_STATUS;
    }
    show_empty(rt.alloc(), rt, script, &job);
    show_no_file(rt, &job);
    do_job(rt, script, job)
}

/// Does a job with the script's bytes.
fn do_job<R>(rt: &R, script: &[u8], job: Job) -> u8
where
    R: Files<File = File> + Print + Eprint + AllocGlobal + Screen,
    requires given { IsGiven job }
    ensures status { result ≤ 5 }
    ensures did { Does script.now job result }
{
    match job {
        Job::Edit {
            options,
            writing,
            judged,
            ..
        } => edit_by(rt, script, options, writing, judged),
        Job::Vouch { wanted, all, .. } => vouch_wanted(rt, script, wanted, all),
        Job::Judge {
            wanted,
            scripts,
            detail,
        } => judge_wanted(rt, script, wanted, &scripts, detail),
        Job::Explain { wanted, .. } => explain_wanted(rt, script, wanted),
        Job::ExplainBy {
            certificate: path,
            ..
        } => explain_at(rt, script, &path),
        Job::Check {
            certificate: path,
            ..
        } => match bytes_at(rt, &path) {
            Ok(certificate) => check_file(rt, script, &path, certificate.as_slice()),
            Err(fault) => status_of_read(fault),
        },
        Job::Run {
            certificate: name,
            options,
            writing,
            ..
        } => run_file(rt, script, &name, options, writing),
        Job::Fits {
            certificate: path,
            path: start,
        } => match bytes_at(rt, &path) {
            Ok(certificate) => fit_file(rt, &path, certificate.as_slice(), &start),
            Err(fault) => status_of_read(fault),
        },
    }
}

/// Runs a script on a file, or rehearses that; only if it is vouched for, where a start is asked for to judge it over.
fn edit_by<R>(
    rt: &R,
    script: &[u8],
    options: Options,
    writing: Writing,
    judged: Option<Wanted>,
) -> u8
where
    R: Files<File = File> + Print + Eprint + AllocGlobal + Screen,
    requires given { IfSome judged IsWanted }
    ensures status { result ≤ 5 }
    ensures did { (named : Option (List ℕ)) → Does script.now (jobs.Edit options named writing judged) result }
{
    match judged {
        Some(wanted) => edit_wanted(rt, script, options, writing, wanted),
        None => edit_file(rt, script, options, writing),
    }
}

/// Runs a script on a file, or rehearses that.
fn edit_file<R>(rt: &R, script: &[u8], options: Options, writing: Writing) -> u8
where
    R: Files<File = File> + Print + Eprint + AllocGlobal + Screen,
    ensures status { result ≤ 5 }
    ensures came { Somehow (Writes writing (Edits script.now options)) result }
{
    let task = Task {
        script,
        options,
        trust: Trust::Unchecked,
    };
    do_task(rt, task, writing)
}

/// The same, only if the script is vouched for over the start that is asked for.
fn edit_wanted<R>(rt: &R, script: &[u8], options: Options, writing: Writing, wanted: Wanted) -> u8
where
    R: Files<File = File> + Print + Eprint + AllocGlobal + Screen,
    requires given { IsWanted wanted }
    ensures status { result ≤ 5 }
    ensures came { WithStarts wanted (λ starts. WithLetters script.now starts (Somehow (Writes writing (EditsVouched starts script.now options)))) result }
{
    let mut files = DiskFiles::new(rt.alloc(), rt);
    match starts_from(&mut files, wanted) {
        Ok(starts) => edit_if_lettered(rt, script, options, writing, starts),
        Err(no_start) => no_start.refuse(rt, files.reason(), false),
    }
}

/// The same, if the script leaves letters for the landmarks of this start.
fn edit_if_lettered<R>(
    rt: &R,
    script: &[u8],
    options: Options,
    writing: Writing,
    starts: Starts,
) -> u8
where
    R: Files<File = File> + Print + Eprint + AllocGlobal + Screen,
    requires given { AreStarts starts }
    ensures status { result ≤ 5 }
    ensures came { WithLetters script.now starts (Somehow (Writes writing (EditsVouched starts script.now options))) result }
{
    match refusal_for(rt, None, script, &starts, EDIT_USAGE, false) {
        Some(status) => status,
        None => edit_over(rt, script, options, writing, starts),
    }
}

/// The same, only if the script is vouched for over this start.
fn edit_over<R>(rt: &R, script: &[u8], options: Options, writing: Writing, starts: Starts) -> u8
where
    R: Files<File = File> + Print + Eprint + AllocGlobal + Screen,
    requires given { AreStarts starts }
    ensures status { result ≤ 5 }
    ensures came { Somehow (Writes writing (EditsVouched starts script.now options)) result }
{
    let task = Task {
        script,
        options,
        trust: Trust::Vouched(starts),
    };
    do_task(rt, task, writing)
}

/// Tells the certificate of the script's bytes, or why there is none, over the start that is asked for.
fn vouch_wanted<R>(rt: &R, script: &[u8], wanted: Wanted, all: bool) -> u8
where
    R: Files<File = File> + Print + Eprint + AllocGlobal,
    requires given { IsWanted wanted }
    ensures status { result ≤ 4 }
    ensures came { WithStarts wanted (λ starts. WithLetters script.now starts (Somehow (λ met. Says (Vouches script.now starts) met.sink))) result }
{
    let mut files = DiskFiles::new(rt.alloc(), rt);
    match starts_from(&mut files, wanted) {
        Ok(starts) => vouch_if_lettered(rt, script, starts, all),
        Err(no_start) => no_start.refuse(rt, files.reason(), false),
    }
}

/// Judges the scripts at these paths, or where there is none the one of these bytes, over the start that is asked for.
fn judge_wanted<R>(rt: &R, script: &[u8], wanted: Wanted, scripts: &Paths, detail: Detail) -> u8
where
    R: Files<File = File> + Eprint + AllocGlobal,
    requires given { IsWanted wanted }
    ensures status { result ≤ 4 }
    ensures came { WithStarts wanted (λ starts. Judges script.now starts scripts.now) result }
{
    let mut files = DiskFiles::new(rt.alloc(), rt);
    match starts_from(&mut files, wanted) {
        Ok(starts) => judge_scripts(rt, script, starts, scripts, detail),
        Err(no_start) => no_start.refuse(rt, files.reason(), detail == Detail::Nothing),
    }
}

/// The same over this start, if the script leaves letters for its landmarks.
fn vouch_if_lettered<R>(rt: &R, script: &[u8], starts: Starts, all: bool) -> u8
where
    R: Files<File = File> + Print + Eprint + AllocGlobal,
    requires given { AreStarts starts }
    ensures status { result ≤ 4 }
    ensures came { WithLetters script.now starts (Somehow (λ met. Says (Vouches script.now starts) met.sink)) result }
{
    match refusal_for(rt, None, script, &starts, VOUCH_USAGE, false) {
        Some(status) => status,
        None => {
            if starts.are_sought() {
                show_if_missing(rt, starts.path());
            }
            vouch_file(rt, script, starts, all)
        }
    }
}

/// Tells the standard output the certificate of the script's bytes, or why there is none. All that is to be mended is shown if `all` is true.
fn vouch_file<R>(rt: &R, script: &[u8], starts: Starts, all: bool) -> u8
where
    R: Print + Eprint + AllocGlobal,
    requires given { AreStarts starts }
    ensures status { result ≤ 4 }
    ensures came { Somehow (λ met. Says (Vouches script.now starts) met.sink) result }
{
    let mut output = Out::new(io::writer(rt));
    let mut aside = Aside::new(rt.alloc(), script, b"");
    let status = vouch_text(rt.alloc(), script, starts, all, &mut output, &mut aside);
    show_output(rt, status);
    aside.show(rt, status);
    status
}

/// Explains the script's bytes over the start that is asked for.
fn explain_wanted<R>(rt: &R, script: &[u8], wanted: Wanted) -> u8
where
    R: Files<File = File> + Print + Eprint + AllocGlobal,
    requires given { IsWanted wanted }
    ensures status { result ≤ 4 }
    ensures came { WithStarts wanted (λ starts. WithLetters script.now starts (Somehow (λ met. Says (Explains script.now starts) met.sink))) result }
{
    let mut files = DiskFiles::new(rt.alloc(), rt);
    match starts_from(&mut files, wanted) {
        Ok(starts) => explain_if_lettered(rt, script, starts),
        Err(no_start) => no_start.refuse(rt, files.reason(), false),
    }
}

/// The same over this start, if the script leaves letters for its landmarks.
fn explain_if_lettered<R>(rt: &R, script: &[u8], starts: Starts) -> u8
where
    R: Print + Eprint + AllocGlobal,
    requires given { AreStarts starts }
    ensures status { result ≤ 4 }
    ensures came { WithLetters script.now starts (Somehow (λ met. Says (Explains script.now starts) met.sink)) result }
{
    match refusal_for(rt, None, script, &starts, EXPLAIN_USAGE, false) {
        Some(status) => status,
        None => explain_file(rt, script, starts),
    }
}

/// Tells the standard output what is known before each command of the script's bytes over a start.
fn explain_file<R>(rt: &R, script: &[u8], starts: Starts) -> u8
where
    R: Print + Eprint + AllocGlobal,
    requires given { AreStarts starts }
    ensures status { result ≤ 4 }
    ensures came { Somehow (λ met. Says (Explains script.now starts) met.sink) result }
{
    let mut output = Out::new(io::writer(rt));
    let mut aside = Aside::new(rt.alloc(), script, b"");
    let status = explain_script(rt.alloc(), script, starts, &mut output, &mut aside);
    show_output(rt, status);
    aside.show(rt, status);
    status
}

/// The same by the certificate in the file at a path.
fn explain_at<R>(rt: &R, script: &[u8], path: &Bytes) -> u8
where
    R: Files<File = File> + Print + Eprint + AllocGlobal,
    ensures status { result ≤ 4 }
    ensures came { WithFile (λ certificate. Somehow (λ met. Says (ExplainsBy script.now certificate) met.sink)) result }
{
    match bytes_at(rt, path) {
        Ok(certificate) => explain_by(rt, script, path, certificate.as_slice()),
        Err(fault) => status_of_read(fault),
    }
}

/// The same by a certificate of these bytes. The path is that of its file.
fn explain_by<R>(rt: &R, script: &[u8], path: &Bytes, certificate: &[u8]) -> u8
where
    R: Print + Eprint + AllocGlobal,
    ensures status { result ≤ 4 }
    ensures came { Somehow (λ met. Says (ExplainsBy script.now certificate.now) met.sink) result }
{
    let mut output = Out::new(io::writer(rt));
    let mut aside = Aside::new(rt.alloc(), script, path.as_slice());
    let status = explain_certificate(rt.alloc(), script, certificate, &mut output, &mut aside);
    show_output(rt, status);
    aside.show(rt, status);
    status
}

/// Tells the standard output the verdict on a certificate for the script's bytes. The path is that of the certificate's file.
fn check_file<R>(rt: &R, script: &[u8], path: &Bytes, certificate: &[u8]) -> u8
where
    R: Print + Eprint + AllocGlobal,
    ensures status { result ≤ 4 }
    ensures came { Somehow (λ met. Says (Checks script.now certificate.now) met.sink) result }
{
    let mut output = Out::new(io::writer(rt));
    let mut aside = Aside::new(rt.alloc(), script, path.as_slice());
    let status = check_text(rt.alloc(), script, certificate, &mut output, &mut aside);
    show_output(rt, status);
    aside.show(rt, status);
    status
}

/// Runs a script where the certificate at a path allows it, or rehearses that.
fn run_file<'a, R>(
    rt: &R,
    script: &'a [u8],
    name: &'a Bytes,
    options: Options,
    writing: Writing,
) -> u8
where
    R: Files<File = File> + Print + Eprint + AllocGlobal + Screen,
    ensures status { result ≤ 5 }
    ensures came { WithFile (λ certificate. Somehow (Writes writing (RunsOn script.now certificate options))) result }
{
    match bytes_at(rt, name) {
        Ok(certificate) => {
            let task = Task {
                script,
                options,
                trust: Trust::Certified {
                    name,
                    certificate: certificate.as_slice(),
                },
            };
            do_task(rt, task, writing)
        }
        Err(fault) => status_of_read(fault),
    }
}

/// Tells the standard output where the file at a path isn't one that the certificate allows. The other path is that of the certificate's
/// file.
fn fit_file<R>(rt: &R, path: &Bytes, certificate: &[u8], start: &Option<Bytes>) -> u8
where
    R: Files<File = File> + Print + Eprint + AllocGlobal,
    ensures status { result ≤ 4 }
    ensures came { Somehow (λ met. Fits certificate.now start.now met.log met.sink) result }
{
    let mut files = files_of(rt, start, false);
    let mut output = Out::new(io::writer(rt));
    let mut aside = Aside::new(rt.alloc(), b"", path.as_slice());
    let status = fit(
        rt.alloc(),
        certificate,
        start,
        &mut files,
        &mut output,
        &mut aside,
    );
    files.show_refusal(rt, status);
    aside.show(rt, status);
    status
}
