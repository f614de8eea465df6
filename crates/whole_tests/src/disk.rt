//! Runs over files on a disk. What the system answers, no clause says.
use crate::asserting::{answers, reads, same, writes};
use ed_syntax::Answer;
use std::alloc::Global;
use std::fs::File;
use std::os::unix::fs::{MetadataExt, PermissionsExt, symlink};
use std::path::PathBuf;
use std::process::Abort;
use std::rt::{Env, Files};
use std::{env, fs};
use whole::{DiskDrafts, Outcome, Whole};

/// A path in the folder for files that don't last, at which there is nothing.
pub(crate) fn free_path<R: Abort + AllocGlobal + Env + Files>(
    rt: &R,
    alloc: Global,
    name: &str,
) -> PathBuf {
    let folder = env::temp_dir(rt).expect(rt, "a folder");
    let path = folder.join(alloc, name).expect(rt, "memory");
    let _ = fs::remove_file(rt, path.as_str());
    path
}

/// The name of the first draft beside a path of the same folder.
pub(crate) fn draft_of<R: Abort + AllocGlobal + Env + Files>(
    rt: &R,
    alloc: Global,
    name: &str,
) -> PathBuf {
    let draft = format!(in alloc; ".{name}.edv-0").expect(rt, "memory");
    free_path(rt, alloc, draft.as_str())
}

pub(crate) fn is_there(rt: &(impl Abort + Files), path: &PathBuf) -> bool {
    fs::exists(rt, path.as_str()).expect(rt, "a path that can be looked up")
}

#[test]
fn a_file_is_replaced_once_the_run_has_ended(rt: HostRuntime) {
    let alloc = rt.alloc();
    let path = free_path(&rt, alloc, "whole_tests_replaced");
    let draft = draft_of(&rt, alloc, "whole_tests_replaced");
    fs::write(&rt, path.as_str(), "old\n").expect(&rt, "written");
    let mode = fs::Permissions::from_mode(0o640);
    fs::set_permissions(&rt, path.as_str(), mode).expect(&rt, "a mode");
    let name = path.as_str().as_bytes();
    let mut files = Whole::new(alloc, DiskDrafts::new(alloc, &rt));
    writes(&rt, alloc, &mut files, name, b"new\n", Answer::Done);
    writes(&rt, alloc, &mut files, name, b"newer\n", Answer::Done);
    reads(&rt, alloc, &mut files, name, b"newer\n");
    same(&rt, is_there(&rt, &draft), true, "a draft");
    let text = fs::read_to_string(&rt, path.as_str()).expect(&rt, "read");
    same(&rt, text.as_str(), "old\n", "before the end");
    ends(&rt, files, Outcome::Put);
    let text = fs::read_to_string(&rt, path.as_str()).expect(&rt, "read");
    same(&rt, text.as_str(), "newer\n", "after the end");
    let found = fs::metadata(&rt, path.as_str()).expect(&rt, "there");
    same(&rt, found.mode() & 0o777, 0o640, "the mode");
    same(&rt, is_there(&rt, &draft), false, "no draft");
    fs::remove_file(&rt, path.as_str()).expect(&rt, "removed");
}

#[test]
fn a_new_file_is_made_at_the_end_alone(rt: HostRuntime) {
    let alloc = rt.alloc();
    let path = free_path(&rt, alloc, "whole_tests_new");
    let draft = draft_of(&rt, alloc, "whole_tests_new");
    let name = path.as_str().as_bytes();
    let mut files = Whole::new(alloc, DiskDrafts::new(alloc, &rt));
    writes(&rt, alloc, &mut files, name, b"new\n", Answer::Done);
    same(&rt, is_there(&rt, &path), false, "before the end");
    ends(&rt, files, Outcome::Put);
    let text = fs::read_to_string(&rt, path.as_str()).expect(&rt, "read");
    same(&rt, text.as_str(), "new\n", "after the end");
    same(&rt, is_there(&rt, &draft), false, "no draft");
    fs::remove_file(&rt, path.as_str()).expect(&rt, "removed");
}

#[test]
fn a_fault_leaves_no_draft(rt: HostRuntime) {
    let alloc = rt.alloc();
    let path = free_path(&rt, alloc, "whole_tests_fault");
    let draft = draft_of(&rt, alloc, "whole_tests_fault");
    let name = path.as_str().as_bytes();
    let mut files = Whole::new(alloc, DiskDrafts::new(alloc, &rt));
    writes(&rt, alloc, &mut files, name, b"new\n", Answer::Done);
    let end = files.finish(false);
    same(&rt, end.outcome, Outcome::Discarded, "the outcome");
    same(&rt, is_there(&rt, &path), false, "no file");
    same(&rt, is_there(&rt, &draft), false, "no draft");
}

#[test]
fn a_path_that_is_no_plain_file_or_has_several_links_is_refused(rt: HostRuntime) {
    let alloc = rt.alloc();
    let path = free_path(&rt, alloc, "whole_tests_links");
    let link = free_path(&rt, alloc, "whole_tests_symlink");
    let other = free_path(&rt, alloc, "whole_tests_other");
    fs::write(&rt, path.as_str(), "old\n").expect(&rt, "written");
    symlink(&rt, path.as_str(), link.as_str()).expect(&rt, "a link");
    refuses(&rt, alloc, link.as_str().as_bytes());
    fs::hard_link(&rt, path.as_str(), other.as_str()).expect(&rt, "a link");
    refuses(&rt, alloc, path.as_str().as_bytes());
    for each in [&path, &link, &other] {
        fs::remove_file(&rt, each.as_str()).expect(&rt, "removed");
    }
}

/// A run can't write the file of this name, and tells why.
fn refuses<R: Abort + Files<File = File>>(rt: &R, alloc: Global, name: &[u8]) {
    let mut files = Whole::new(alloc, DiskDrafts::new(alloc, rt));
    writes(rt, alloc, &mut files, name, b"new\n", Answer::Refused);
    same(rt, files.drafts().reason().is_some(), true, "a reason");
    ends(rt, files, Outcome::Discarded);
}

/// A run over the disk in which the file of this name was written.
pub(crate) fn written<'a, R>(rt: &'a R, alloc: Global, name: &[u8]) -> Whole<DiskDrafts<&'a R>>
where
    R: Abort + Files<File = File>,
{
    let mut files = Whole::new(alloc, DiskDrafts::new(alloc, rt));
    writes(rt, alloc, &mut files, name, b"new\n", Answer::Done);
    files
}

/// A run that has ended well ends so. Its files aren't locked any more then.
pub(crate) fn ends<'a, R>(rt: &'a R, files: Whole<DiskDrafts<&'a R>>, outcome: Outcome)
where
    R: Abort + Files<File = File>,
{
    let end = files.finish(true);
    same(rt, end.outcome, outcome, "the outcome");
}

#[test]
fn a_file_by_two_names_is_refused(rt: HostRuntime) {
    let alloc = rt.alloc();
    let path = free_path(&rt, alloc, "whole_tests_names");
    let other = free_path(&rt, alloc, "./whole_tests_names");
    let link = free_path(&rt, alloc, "whole_tests_named");
    symlink(&rt, path.as_str(), link.as_str()).expect(&rt, "a link");
    let (name, other) = (path.as_str().as_bytes(), other.as_str().as_bytes());
    let link_name = link.as_str().as_bytes();
    // First there is no file, and then one.
    for text in ["", "old\n"] {
        let mut files = written(&rt, alloc, name);
        writes(&rt, alloc, &mut files, other, b"other\n", Answer::Refused);
        same(&rt, files.drafts().reason().is_some(), true, "a reason");
        ends(&rt, files, Outcome::Discarded);
        for read in [other, link_name] {
            let mut files = written(&rt, alloc, name);
            answers(&rt, &mut files, read, Answer::Refused);
            reads(&rt, alloc, &mut files, name, b"new\n");
            ends(&rt, files, Outcome::Discarded);
        }
        let there = fs::read_to_string(&rt, path.as_str());
        same(&rt, there.as_deref().unwrap_or(""), text, "the file");
        fs::write(&rt, path.as_str(), "old\n").expect(&rt, "written");
    }
    for each in [&path, &link] {
        fs::remove_file(&rt, each.as_str()).expect(&rt, "removed");
    }
}

#[test]
fn other_files_are_read_and_written_after_a_write(rt: HostRuntime) {
    let alloc = rt.alloc();
    let path = free_path(&rt, alloc, "whole_tests_first");
    let second = free_path(&rt, alloc, "whole_tests_second");
    let draft = draft_of(&rt, alloc, "whole_tests_first");
    fs::write(&rt, second.as_str(), "old\n").expect(&rt, "written");
    let mut files = written(&rt, alloc, path.as_str().as_bytes());
    let name = second.as_str().as_bytes();
    reads(&rt, alloc, &mut files, name, b"old\n");
    writes(&rt, alloc, &mut files, name, b"newer\n", Answer::Done);
    // A draft is no file of the run.
    answers(&rt, &mut files, draft.as_str().as_bytes(), Answer::Refused);
    ends(&rt, files, Outcome::Discarded);
    let text = fs::read_to_string(&rt, second.as_str()).expect(&rt, "read");
    same(&rt, text.as_str(), "old\n", "the second file");
    fs::remove_file(&rt, second.as_str()).expect(&rt, "removed");
}

#[test]
fn a_path_that_names_no_plain_file_is_refused(rt: HostRuntime) {
    let alloc = rt.alloc();
    for name in ["whole_tests_none/", "whole_tests_none/."] {
        let path = free_path(&rt, alloc, name);
        let mut files = Whole::new(alloc, DiskDrafts::new(alloc, &rt));
        let path = path.as_str().as_bytes();
        writes(&rt, alloc, &mut files, path, b"new\n", Answer::Refused);
    }
}
