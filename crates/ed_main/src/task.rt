//! A script that is to be run, and its run over the system's files, or over a rehearsal of them.
ghost use Rattle.std.specs.Prelude.{◌≡◌, ◌<◌, ◌≤◌, ◌-◌, ◌^◌};
ghost use Rattle.ed_session.specs.Drives.{added};
ghost use Rattle.ed_session.specs.Sinks.{change};
ghost use Rattle.ed_main.specs.Program.{Comes, ComesBy, IsTrusted, Ran, Somehow, status_ahead};

use crate::hindered::{look_ahead, show_writes};
use crate::screen::Screen;
use crate::stderr::notes::show_if_missing;
use crate::suffix::Suffix;
use crate::whole_files::replace_whole;
use crate::writing::Writing;
use ed_base::{Bytes, Fault};
use ed_calls::{Aside, Explains, Starts, Watched, edit, edit_vouched, run};
use ed_session::{DiskFiles, Out, Outside, Sink};
use ed_syntax::Options;
use rehearsal::Rehearsal;
use std::alloc::Global;
use std::fs::File;
use std::io;
use std::rt::Files;

/// What the run of a script rests on.
#[derive(Debug, Drop)]
pub enum Trust<'a> {
    /// Nothing: it is run as it is.
    Unchecked,
    /// The certificate whose text these bytes are, from the file of this name.
    Certified {
        name: &'a Bytes,
        certificate: &'a [u8],
    },
    /// A certificate that is made for it, over this start.
    Vouched(Starts),
}

/// A script that is to be run.
#[derive(Debug, Drop)]
pub struct Task<'a> {
    pub script: &'a [u8],
    pub options: Options,
    pub trust: Trust<'a>,
}

impl<'a> Task<'a> {
    /// Nothing that a person is told so far of this task.
    fn aside(&self, alloc: Global) -> Aside<'a> {
        match &self.trust {
            Trust::Unchecked | Trust::Vouched(_) => Aside::new(alloc, self.script, b""),
            Trust::Certified { name, .. } => Aside::new(alloc, self.script, (*name).as_slice()),
        }
    }

    /// The path of the file over which the script is judged, where it is and there was memory for it.
    fn file(&self, alloc: Global) -> Option<Bytes> {
        match (&self.trust, &self.options.path) {
            (Trust::Vouched(_), Some(path)) => Bytes::from_slice(alloc, path.as_slice()).ok(),
            _ => None,
        }
    }

    /// Runs the script, where that is allowed, and gives the exit status.
    fn perform<O: Outside, W: Sink>(
        self,
        alloc: Global,
        outside: &mut O,
        sink: &mut W,
        aside: &mut Aside<'_>,
    ) -> u8
        requires count { (W.state sink.old).failures < 2 ^ 64 - 1 }
        requires trusted { IsTrusted self.trust }
        ensures status { result ≤ 5 }

        // How its writes are made, the files tell.
        ensures came { let log = added (O.log outside.old) (O.log outside.new) in
            ComesBy self.entry.trust self.entry.script.now self.entry.options
            (record {
              log = log;
              refusals_before = O.failures outside.old;
              refusals = O.failures outside.new;
              sink = change (W.state sink.old) (W.state sink.new);
            }) result }
    {
        let Task {
            script,
            options,
            trust,
            ..
        } = self;
        match trust {
            Trust::Unchecked => edit(alloc, script, options, outside, sink, aside),
            Trust::Certified { certificate, .. } => {
                run(alloc, script, certificate, options, outside, sink, aside)
            }
            Trust::Vouched(starts) => {
                edit_vouched(alloc, script, starts, options, outside, sink, aside)
            }
        }
    }
}

/// Does a task over the system's files and the standard output, or rehearses it.
pub fn do_task<R>(rt: &R, task: Task<'_>, writing: Writing) -> u8
where
    R: Files<File = File> + Print + Eprint + AllocGlobal + Screen,
    requires trusted { IsTrusted task.trust }
    ensures status { result ≤ 5 }
    ensures came { Somehow (Comes writing task.entry) result }
{
    match writing {
        Writing::AtOnce { spares } => {
            let mut files = files_of(rt, &task.options.path, spares);
            do_over(rt, task, &mut files)
        }
        Writing::AtTheEnd { suffix } => replace_whole(rt, task, suffix),
        Writing::Never {
            whole,
            spares,
            shows,
            suffix,
        } => rehearse(rt, task, whole, spares, shows, suffix),
    }
}

/// Does a task over the system's files, of which none is written, and shows what would have been, and which of them couldn't be: replaced whole
/// and kept under their names with this suffix if there is one, or written in place. What they would have changed is shown where that is asked for.
fn rehearse<R>(
    rt: &R,
    task: Task<'_>,
    whole: bool,
    spares: bool,
    shows: bool,
    suffix: Option<Suffix>,
) -> u8
where
    R: Files<File = File> + Print + Eprint + AllocGlobal + Screen,
    requires trusted { IsTrusted task.trust }
    ensures status { result ≤ 5 }
    ensures came { Somehow (Comes (Writing.Never whole spares shows suffix) task.entry) result }
{
    let rehearsal = Rehearsal::new(rt.alloc(), DiskFiles::new(rt.alloc(), rt));
    let mut files = Watched::new(rt.alloc(), rehearsal, task.options.path.is_some());
    let status = do_over(rt, task, &mut files);
    let mut rehearsal = files.into_files();
    rehearsal.real_files_are_only_read();
    rehearsal.writes_are_done();
    rehearsal.reads_show_what_was_written();
    let ahead = look_ahead(rt.alloc(), whole, suffix);
    let all_stay = whole && status > 0;
    let is_hindered = show_writes(rt, &mut rehearsal, ahead, spares, shows, all_stay);
    status_ahead(status, is_hindered)
}

/// The status of a rehearsal whose run came to this one: one of the writes that would have been made is hindered, or can't be shown, or none is.
fn status_ahead(ran: u8, is_hindered: bool) -> u8
    ensures value { result ≡ status_ahead ran is_hindered }
{
    if is_hindered {
        Fault::File.status()
    } else {
        ran
    }
}

/// Does a task over these files and the standard output.
pub fn do_over<R, O>(rt: &R, task: Task<'_>, files: &mut Watched<O>) -> u8
where
    R: Files<File = File> + Print + Eprint + AllocGlobal,
    O: Outside + Explains + Drop,
    requires trusted { IsTrusted task.trust }
    ensures status { result ≤ 5 }
    ensures came { Ran task.entry (added (O.log files.old.files) (O.log files.new.files)) result }
{
    let mut output = Out::new(io::writer(rt));
    let mut aside = task.aside(rt.alloc());
    let path = task.file(rt.alloc());
    let status = task.perform(rt.alloc(), files, &mut output, &mut aside);
    if files.has_no_start() {
        show_if_missing(rt, &path);
    }
    files.show_refusal(rt, status);
    aside.show(rt, status);
    status
}

/// The system's files, watched for a run that starts with the file at this path, if there is one. One that has the bytes already that it is
/// given is left alone if `spares` is true.
pub fn files_of<'a, R>(rt: &'a R, path: &Option<Bytes>, spares: bool) -> Watched<DiskFiles<&'a R>>
where
    R: Files<File = File> + AllocGlobal,
{
    let files = if spares {
        DiskFiles::sparing(rt.alloc(), rt)
    } else {
        DiskFiles::new(rt.alloc(), rt)
    };
    Watched::new(rt.alloc(), files, path.is_some())
}
