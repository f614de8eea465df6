//! Files on a disk that stay as they are, that others have changed, and that are kept as backups.
use crate::asserting::{answers, reads, same, writes};
use crate::disk::{draft_of, ends, free_path, is_there, written};
use ed_syntax::Answer;
use std::fs;
use std::os::unix::fs::{MetadataExt, symlink};
use whole::{DiskDrafts, Lookahead, Outcome, Whole};

#[test]
fn a_look_tells_what_is_refused(rt: HostRuntime) {
    let alloc = rt.alloc();
    let path = free_path(&rt, alloc, "whole_tests_looked");
    let link = free_path(&rt, alloc, "whole_tests_looked_link");
    let draft = draft_of(&rt, alloc, "whole_tests_looked");
    symlink(&rt, path.as_str(), link.as_str()).expect(&rt, "a link");
    let name = path.as_str().as_bytes();
    let mut ahead = Lookahead::new(alloc, None);
    same(&rt, ahead.look(&rt, name).is_ok(), true, "a new file");
    same(&rt, is_there(&rt, &path), false, "no file");
    fs::write(&rt, path.as_str(), "old\n").expect(&rt, "written");
    same(&rt, ahead.look(&rt, name).is_ok(), true, "once more");
    let mut ahead = Lookahead::new(alloc, None);
    same(&rt, ahead.look(&rt, name).is_ok(), true, "a file");
    same(&rt, is_there(&rt, &draft), false, "no draft");
    for other in [
        link.as_str(),
        "/",
        "whole_tests_none/file",
        "whole_tests_none/",
    ] {
        let found = ahead.look(&rt, other.as_bytes());
        same(&rt, found.is_ok(), false, other);
    }
    for each in [&path, &link] {
        fs::remove_file(&rt, each.as_str()).expect(&rt, "removed");
    }
}

#[test]
fn a_look_ahead_tells_of_other_names_and_of_backups(rt: HostRuntime) {
    let alloc = rt.alloc();
    let path = free_path(&rt, alloc, "whole_tests_ahead");
    let other = free_path(&rt, alloc, "./whole_tests_ahead");
    let backup = free_path(&rt, alloc, "whole_tests_ahead.orig");
    let second = free_path(&rt, alloc, "whole_tests_ahead_second");
    let kept = free_path(&rt, alloc, "whole_tests_ahead_second.orig");
    fs::create_dir(&rt, kept.as_str()).expect(&rt, "a folder");
    // First there is no file, and then one.
    for text in ["", "old\n"] {
        let suffix = String::from_str(alloc, ".orig").expect(&rt, "memory");
        let mut ahead = Lookahead::new(alloc, Some(suffix));
        for (path, is_free) in [
            (&path, true),
            (&other, false),
            (&backup, false),
            (&second, false),
            (&path, true),
        ] {
            let found = ahead.look(&rt, path.as_str().as_bytes());
            same(&rt, found.is_ok(), is_free, path.as_str());
        }
        same(&rt, is_there(&rt, &path), !text.is_empty(), "the file");
        fs::write(&rt, path.as_str(), "old\n").expect(&rt, "written");
    }
    fs::remove_file(&rt, path.as_str()).expect(&rt, "removed");
    fs::remove_dir(&rt, kept.as_str()).expect(&rt, "removed");
}

#[test]
fn a_file_that_has_the_bytes_is_left_alone(rt: HostRuntime) {
    let alloc = rt.alloc();
    let path = free_path(&rt, alloc, "whole_tests_same");
    let draft = draft_of(&rt, alloc, "whole_tests_same");
    fs::write(&rt, path.as_str(), "old\n").expect(&rt, "written");
    let before = fs::metadata(&rt, path.as_str()).expect(&rt, "there");
    let mut files = Whole::new(alloc, DiskDrafts::new(alloc, &rt));
    let name = path.as_str().as_bytes();
    writes(&rt, alloc, &mut files, name, b"new\n", Answer::Done);
    writes(&rt, alloc, &mut files, name, b"old\n", Answer::Done);
    ends(&rt, files, Outcome::Put);
    let after = fs::metadata(&rt, path.as_str()).expect(&rt, "there");
    same(&rt, after.ino(), before.ino(), "the file");
    same(&rt, after.ctime_nsec(), before.ctime_nsec(), "its time");
    same(&rt, is_there(&rt, &draft), false, "no draft");
    fs::remove_file(&rt, path.as_str()).expect(&rt, "removed");
}

#[test]
fn a_file_that_others_have_changed_is_refused(rt: HostRuntime) {
    let alloc = rt.alloc();
    let path = free_path(&rt, alloc, "whole_tests_changed");
    fs::write(&rt, path.as_str(), "old\n").expect(&rt, "written");
    let name = path.as_str().as_bytes();
    let mut files = Whole::new(alloc, DiskDrafts::new(alloc, &rt));
    reads(&rt, alloc, &mut files, name, b"old\n");
    fs::write(&rt, path.as_str(), "other\n").expect(&rt, "written");
    writes(&rt, alloc, &mut files, name, b"new\n", Answer::Refused);
    ends(&rt, files, Outcome::Discarded);
    // After its draft was made, too.
    let files = written(&rt, alloc, name);
    fs::write(&rt, path.as_str(), "another\n").expect(&rt, "written");
    ends(&rt, files, Outcome::Unready(0));
    let text = fs::read_to_string(&rt, path.as_str()).expect(&rt, "read");
    same(&rt, text.as_str(), "another\n", "the file");
    fs::remove_file(&rt, path.as_str()).expect(&rt, "removed");
}

#[test]
fn the_backup_is_the_old_file(rt: HostRuntime) {
    let alloc = rt.alloc();
    let path = free_path(&rt, alloc, "whole_tests_kept");
    let backup = free_path(&rt, alloc, "whole_tests_kept.orig");
    fs::write(&rt, path.as_str(), "old\n").expect(&rt, "written");
    for [new, old] in [["new\n", "old\n"], ["newer\n", "new\n"]] {
        let before = fs::metadata(&rt, path.as_str()).expect(&rt, "there");
        let suffix = String::from_str(alloc, ".orig").expect(&rt, "memory");
        let drafts = DiskDrafts::with_backups(alloc, &rt, suffix);
        let mut files = Whole::new(alloc, drafts);
        let (name, other) = (path.as_str().as_bytes(), backup.as_str().as_bytes());
        writes(&rt, alloc, &mut files, name, new.as_bytes(), Answer::Done);
        answers(&rt, &mut files, other, Answer::Refused);
        ends(&rt, files, Outcome::Discarded);
        let suffix = String::from_str(alloc, ".orig").expect(&rt, "memory");
        let drafts = DiskDrafts::with_backups(alloc, &rt, suffix);
        let mut files = Whole::new(alloc, drafts);
        writes(&rt, alloc, &mut files, name, new.as_bytes(), Answer::Done);
        ends(&rt, files, Outcome::Put);
        let kept = fs::metadata(&rt, backup.as_str()).expect(&rt, "there");
        same(&rt, kept.ino(), before.ino(), "the old file");
        same(&rt, kept.nlink(), 1, "its links");
        let text = fs::read_to_string(&rt, backup.as_str()).expect(&rt, "read");
        same(&rt, text.as_str(), old, "the backup");
        let text = fs::read_to_string(&rt, path.as_str()).expect(&rt, "read");
        same(&rt, text.as_str(), new, "the file");
    }
    for each in [&path, &backup] {
        fs::remove_file(&rt, each.as_str()).expect(&rt, "removed");
    }
}

#[test]
fn a_suffix_that_names_no_other_file_is_refused(rt: HostRuntime) {
    let alloc = rt.alloc();
    let path = free_path(&rt, alloc, "whole_tests_suffix");
    for suffix in ["", "/", "/x"] {
        let suffix = String::from_str(alloc, suffix).expect(&rt, "memory");
        let drafts = DiskDrafts::with_backups(alloc, &rt, suffix);
        let mut files = Whole::new(alloc, drafts);
        let name = path.as_str().as_bytes();
        writes(&rt, alloc, &mut files, name, b"new\n", Answer::Refused);
    }
}
