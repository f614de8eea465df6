//! Scripts that are judged one after another, each as `vouch` judges one, without their certificates.
ghost use Rattle.std.specs.Prelude.{◌≡◌, ◌≤◌, ℕ, length};
ghost use Rattle.ed_calls.specs.Judging.{IsJudgement};
ghost use Rattle.ed_main.specs.Starts.{AreStarts};
ghost use Rattle.ed_main.specs.Several as meaning;
ghost use Rattle.ed_main.specs.Several.{AreJudged, IsJudged, IsOutcome, Judges};

use crate::inputs::{Unread, read_at, status_of_read};
use crate::letters::refusal_for;
use crate::paths::Paths;
use crate::stderr::usage::VOUCH_USAGE;
use ed_base::{Bytes, Fault};
use ed_calls::{Aside, Detail, Starts, judge_text, show_unjudged};
use std::alloc::AllocError;
use std::fs::File;
use std::rt::Files;

/// The status of a script that is vouched for.
const VOUCHED_STATUS: u8 = 0;

/// Judges the scripts in the files at these paths, or where there is none the one of these bytes, and gives the status.
pub fn judge_scripts<R>(
    rt: &R,
    script: &[u8],
    starts: Starts,
    scripts: &Paths,
    detail: Detail,
) -> u8
where
    R: Files<File = File> + Eprint + AllocGlobal,
    requires given { AreStarts starts }
    ensures status { result ≤ 4 }
    ensures judged { Judges script.now starts scripts.now result }
{
    if scripts.are_none() {
        judge_bytes(rt, None, script, starts, detail)
    } else {
        judge_each(rt, scripts.as_slice(), &starts, detail)
    }
}

/// Judges the scripts in the files at these paths, and gives the greatest of their statuses. Of each that isn't vouched for a person is told
/// why, and of each that can't be read, or judged for want of memory, that; the others are judged all the same. The last line counts those that
/// are vouched for.
fn judge_each<R>(rt: &R, paths: &[Bytes], starts: &Starts, detail: Detail) -> u8
where
    R: Files<File = File> + Eprint + AllocGlobal,
    requires given { AreStarts starts.now }
    ensures status { result ≤ 4 }
    ensures judged { AreJudged starts.now (length paths.now) result }
{
    let mut status = VOUCHED_STATUS;
    let mut vouched: usize = 0;
    for path in paths {
        let one = judge_at(rt, path, starts, detail);
        show_no_memory(rt, path, one, detail);
        vouched = counted(vouched, one);
        status = greater(one, status);
    }
    show_count(rt, vouched, paths.len(), detail);
    status
}

fn greater(one: u8, other: u8) -> u8
    ensures value { result ≡ meaning.greater one other }
    ensures within { (limit : ℕ) → one ≤ limit → other ≤ limit → result ≤ limit }
{
    if one < other { other } else { one }
}

/// How many scripts are vouched for, with one that has this status.
fn counted(vouched: usize, status: u8) -> usize {
    if status == VOUCHED_STATUS {
        vouched.saturating_add(1)
    } else {
        vouched
    }
}

/// Judges the script in the file at this path, or tells that it can't be read.
fn judge_at<R>(rt: &R, path: &Bytes, starts: &Starts, detail: Detail) -> u8
where
    R: Files<File = File> + Eprint + AllocGlobal,
    requires given { AreStarts starts.now }
    ensures status { result ≤ 4 }
    ensures came { IsOutcome starts.now result }
{
    match read_at(rt, path) {
        Ok(script) => judge_named(rt, path, script.as_slice(), starts, detail),
        Err(unread) => {
            show_unread(rt, path, &unread, detail);
            status_of_read(unread.fault)
        }
    }
}

/// Judges the script of these bytes, whose lines are told under this name. The starts are needed for others too.
fn judge_named<R>(rt: &R, name: &Bytes, script: &[u8], starts: &Starts, detail: Detail) -> u8
where
    R: Eprint + AllocGlobal,
    requires given { AreStarts starts.now }
    ensures status { result ≤ 4 }
    ensures judged { IsJudged script.now starts.now result }
{
    match starts.try_copy() {
        Ok(starts) => judge_bytes(rt, Some(name), script, starts, detail),
        Err(AllocError) => Fault::Memory.status(),
    }
}

/// Judges the script of these bytes, and tells a person why it isn't vouched for: under its name, where it has one.
fn judge_bytes<R>(rt: &R, name: Option<&Bytes>, script: &[u8], starts: Starts, detail: Detail) -> u8
where
    R: Eprint + AllocGlobal,
    requires given { AreStarts starts }
    ensures status { result ≤ 4 }
    ensures judged { IsJudged script.now starts result }
{
    let is_quiet = detail == Detail::Nothing;
    match refusal_for(rt, name, script, &starts, VOUCH_USAGE, is_quiet) {
        Some(status) => status,
        None => judge_lettered(rt, name, script, starts, detail),
    }
}

/// The same of a script that leaves letters for the landmarks that are given.
fn judge_lettered<R>(
    rt: &R,
    name: Option<&Bytes>,
    script: &[u8],
    starts: Starts,
    detail: Detail,
) -> u8
where
    R: Eprint + AllocGlobal,
    requires given { AreStarts starts }
    ensures status { result ≤ 4 }
    ensures judged { IsJudgement script.now starts result }
{
    let mut aside = Aside::new(rt.alloc(), script, b"");
    let status = judge_text(rt.alloc(), script, starts, detail, &mut aside);
    show(rt, name, &aside, status);
    status
}

fn show(rt: &impl Eprint, name: Option<&Bytes>, aside: &Aside<'_>, status: u8) {
    match name {
        Some(name) => aside.show_under(rt, name.as_slice()),
        None => aside.show(rt, status),
    }
}

/// Shows that the script at a path can't be read, where something is to be told.
fn show_unread<R: Eprint + AllocGlobal>(rt: &R, path: &Bytes, unread: &Unread, detail: Detail) {
    if detail != Detail::Nothing {
        unread.show(rt, path);
    }
}

/// Shows that there was no memory to judge the script at a path, where that is its status and something is to be told.
fn show_no_memory<R: Eprint + AllocGlobal>(rt: &R, path: &Bytes, status: u8, detail: Detail) {
    if status == Fault::Memory.status() && detail != Detail::Nothing {
        show_unjudged(rt.alloc(), rt, path.as_slice());
    }
}

/// Shows how many of so many scripts are vouched for, where something is to be told.
fn show_count(rt: &impl Eprint, vouched: usize, count: usize, detail: Detail) {
    if detail != Detail::Nothing {
        let _ = eprintln!(rt; "{vouched} of {count} scripts are vouched for");
    }
}
