//! A task whose writes are held back until its run has ended.
ghost use Rattle.std.specs.Prelude.{◌≡◌, ◌≤◌, [], nat_eq};
ghost use Rattle.whole.specs.SeenDeeds.{deeds_seen};
ghost use Rattle.ed_calls.specs.HeldBack.{status_held};
ghost use Rattle.ed_main.specs.Program.{Comes, IsTrusted, Somehow};
ghost use Rattle.ed_main.specs.declared.writing.Writing.TheVariants as writings;

use crate::suffix::Suffix;
use crate::task::{Task, do_over};
use ed_base::Fault;
use ed_calls::{Watched, show_unput};
use std::fs::File;
use std::rt::Files;
use whole::{DiskDrafts, Outcome, Whole};

/// The status of a run that came to its end.
const DONE_STATUS: u8 = 0;

/// Does a task over the system's files, each of which is replaced whole when the script has come to its end, and shows which couldn't be. The
/// old ones are kept under their names with this suffix, if there is one.
pub fn replace_whole<R>(rt: &R, task: Task<'_>, suffix: Option<Suffix>) -> u8
where
    R: Files<File = File> + Print + Eprint + AllocGlobal,
    requires trusted { IsTrusted task.trust }
    ensures status { result ≤ 5 }
    ensures came { Somehow (Comes (writings.AtTheEnd suffix) task.entry) result }
{
    let alloc = rt.alloc();
    let whole = Whole::new(alloc, drafts_of(rt, suffix));
    let mut files = Watched::new(alloc, whole, task.options.path.is_some());
    let ran = do_over(rt, task, &mut files);
    let whole = files.into_files();
    whole.nothing_is_put();
    whole.reads_show_what_is_held();
    let well = is_done(ran);
    let end = whole.finish(well);
    let reason = end.drafts.reason();
    show_unput(alloc, rt, end.paths.as_slice(), end.outcome, reason);
    status_after(ran, end.outcome)
}

/// The system's files, without drafts. Those that are replaced are kept under their names with this suffix, if there is one.
fn drafts_of<'a, R>(rt: &'a R, suffix: Option<Suffix>) -> DiskDrafts<&'a R>
where
    R: Files<File = File> + AllocGlobal,
    ensures log { deeds_seen result.log.deeds.items ≡ [] }
{
    match suffix {
        Some(suffix) => DiskDrafts::with_backups(rt.alloc(), rt, suffix.into_text()),
        None => DiskDrafts::new(rt.alloc(), rt),
    }
}

/// Whether a run with this status came to its end.
fn is_done(status: u8) -> bool
    ensures value { result ≡ nat_eq status 0 }
{
    status == DONE_STATUS
}

/// The status of a run that came to this one by itself, when its writes have ended so.
fn status_after(ran: u8, outcome: Outcome) -> u8
    requires status { ran ≤ 5 }
    ensures status { result ≤ 5 }
    ensures value { result ≡ status_held ran outcome }
{
    match outcome {
        Outcome::Put => ran,
        Outcome::Discarded => {
            if ran == DONE_STATUS {
                Fault::File.status()
            } else {
                ran
            }
        }
        Outcome::Unready(_) | Outcome::Stopped(_) => Fault::File.status(),
    }
}
