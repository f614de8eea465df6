//! What a person is told of scripts that aren't vouched for, and the same in the form for tools. The lines are worked out by hand.
use crate::asserting::same;
use crate::calling::{ON_F, files_of, options_of, output};
use crate::found::{F_ALONE, Part, sought};
use ed_calls::{Aside, Detail, edit, judge_text};
use std::alloc::{AllocError, Global};
use std::process::Abort;

/// A script that is judged, and the lines that tell of it: for a person, and for tools under the name `a.ed`.
struct Row {
    script: &'static [u8],
    part: Part,
    detail: Detail,
    person: &'static str,
    tools: &'static str,
}

const SOME: Part = Part {
    min: Some(1),
    ..F_ALONE
};

const FIRST: Row = Row {
    script: b"1d\nw\nq\n",
    part: F_ALONE,
    detail: Detail::First,
    person: "",
    tools: "",
};

#[rattlefmt::skip]
static ROWS: [Row; 10] = [
    FIRST,
    Row {
        part: Part { min: Some(0), ..F_ALONE },
        person: "error: line 1, command 1: `1d`: invalid address: the file may have as few as 0 lines\n\
                 known: at least 0 lines, the current line at least 0\n\
                 hint: vouched for with --min 1\n",
        tools: "a.ed:1: cannot: invalid address: command 1: `1d`: the file may have as few as 0 lines\n\
                a.ed:1: known: at least 0 lines, the current line at least 0\n\
                a.ed:1: hint: vouched for with --min 1\n",
        ..FIRST
    },
    Row { part: Part { min: Some(0), ..F_ALONE }, detail: Detail::Nothing, ..FIRST },
    Row {
        script: b"1p\nw H\xff\nq\n",
        person: "error: line 2, command 2: `w H\\xff`: file refused: the name of its file isn't UTF-8\n",
        tools: "a.ed:2: cannot: file refused: command 2: `w H\\xff`: the name of its file isn't UTF-8\n",
        ..FIRST
    },
    Row {
        script: b"$d\n",
        part: SOME,
        person: "error: the script ends after line 1, command 1: `$d`: buffer modified: there may be changes that no w has written\n\
                 hint: write first (w)\n\
                 note: line 1: the script changes lines, and writes them neither to a file nor to standard output: `w` writes the file\n",
        tools: "a.ed:1: cannot: buffer modified: the script ends after line 1, command 1: `$d`: there may be changes that no w has written\n\
                a.ed:1: hint: write first (w)\n\
                a.ed:1: note: the script changes lines, and writes them neither to a file nor to standard output: `w` writes the file\n",
        ..FIRST
    },
    Row {
        script: b"g/a\\+/s//b/\nw\nq\n",
        part: Part { min: Some(0), ..F_ALONE },
        person: "error: line 1, command 1: `g/a\\+/s//b/`: invalid command: the pattern has a backslash that means nothing where it stands\n\
                 hint: POSIX has no `\\+`: write `\\{1,\\}`\n",
        tools: "a.ed:1: cannot: invalid command: command 1: `g/a\\+/s//b/`: the pattern has a backslash that means nothing where it stands\n\
                a.ed:1: hint: POSIX has no `\\+`: write `\\{1,\\}`\n",
        ..FIRST
    },
    // That a script can't be read to its end comes first.
    Row {
        script: b"3p\nwq\n",
        part: SOME,
        person: "error: line 2, command 2: `wq`: invalid command\n\
                 hint: POSIX has no `wq`: write `w` and `q` on two lines\n\
                 error: line 1, command 1: `3p`: invalid address: the file may have as few as 1 line\n\
                 known: at least 1 line, the current line at least 1\n\
                 hint: gets further with --min 3\n",
        tools: "a.ed:2: cannot: invalid command: command 2: `wq`\n\
                a.ed:2: hint: POSIX has no `wq`: write `w` and `q` on two lines\n\
                a.ed:1: cannot: invalid address: command 1: `3p`: the file may have as few as 1 line\n\
                a.ed:1: known: at least 1 line, the current line at least 1\n\
                a.ed:1: hint: gets further with --min 3\n",
        ..FIRST
    },
    // What can't be seen is escaped: a byte-order mark here, and then a mark that turns what follows.
    Row {
        script: b"\xef\xbb\xbf1d\nw\nq\n",
        person: "error: line 1, command 1: `\\xef\\xbb\\xbf1d`: invalid command\n\
                 hint: a byte-order mark stands before the first command: leave it out\n",
        tools: "a.ed:1: cannot: invalid command: command 1: `\\xef\\xbb\\xbf1d`\n\
                a.ed:1: hint: a byte-order mark stands before the first command: leave it out\n",
        ..FIRST
    },
    Row {
        script: b"w \xe2\x80\xae\xff\n",
        person: "error: line 1, command 1: `w \\xe2\\x80\\xae\\xff`: file refused: the name of its file isn't UTF-8\n",
        tools: "a.ed:1: cannot: file refused: command 1: `w \\xe2\\x80\\xae\\xff`: the name of its file isn't UTF-8\n",
        ..FIRST
    },
    Row {
        script: b"3p\nQ\n",
        part: SOME,
        detail: Detail::Each,
        person: "error: line 1, command 1: `3p`: invalid address: the file may have as few as 1 line\n\
                 known: at least 1 line, the current line at least 1\n\
                 hint: vouched for with --min 3\n\
                 note: with the first hint of each, the script is vouched for\n",
        tools: "a.ed:1: cannot: invalid address: command 1: `3p`: the file may have as few as 1 line\n\
                a.ed:1: known: at least 1 line, the current line at least 1\n\
                a.ed:1: hint: vouched for with --min 3\n\
                a.ed:1: note: with the first hint of each, the script is vouched for\n",
        ..FIRST
    },
];

/// The lines of the row's script, for a person and for tools; None where its bounds are none.
fn told(alloc: Global, row: &Row) -> Result<Option<(String, String)>, AllocError> {
    let Some(starts) = sought(alloc, row.part)? else {
        return Ok(None);
    };
    let mut aside = Aside::new(alloc, row.script, b"");
    judge_text(alloc, row.script, starts, row.detail, &mut aside);
    Ok(Some((aside.lines(), aside.lines_under(b"a.ed"))))
}

fn check(rt: &impl Abort, alloc: Global, row: &Row) {
    let (person, tools) = told(alloc, row).expect(rt, "memory").expect(rt, "bounds");
    same(rt, person.as_str(), row.person, row.script);
    same(rt, tools.as_str(), row.tools, row.script);
}

#[test]
fn what_is_told_has_two_forms(rt: HostRuntime) {
    for row in &ROWS {
        check(&rt, rt.alloc(), row);
    }
}

/// A script that is run over three lines, and where it stopped.
struct Stopped {
    script: &'static [u8],
    person: &'static str,
}

#[rattlefmt::skip]
static STOPPED: [Stopped; 7] = [
    Stopped { script: b"1p\n9p\nw\nq\n", person: "error: line 2: `9p`: invalid address\n" },
    Stopped { script: b"2d\n,p\n", person: "error: the script ends after line 2: `,p`: buffer modified\n" },
    Stopped { script: b"g/./p\\\n+1p\n", person: "error: line 2: `+1p`: in the list of `g/./p\\`: invalid address\n" },
    Stopped { script: b"1p\nwq\n", person: "error: line 2: `wq`: invalid command\nhint: POSIX has no `wq`: write `w` and `q` on two lines\n" },
    Stopped { script: b"# a\n1p\nQ\n", person: "error: line 1: `# a`: invalid command\nhint: POSIX has no `#`: leave the line out\n" },
    Stopped { script: b"1d\xc2\xa0\nQ\n", person: "error: line 1: `1d\\xc2\\xa0`: invalid command\n" },
    Stopped { script: b"1p\nQ\n", person: "" },
];

/// What is told of a run over the file `F`.
fn told_of_run(alloc: Global, script: &[u8]) -> Result<String, AllocError> {
    let mut files = files_of(alloc, &ON_F)?;
    let mut sink = output(alloc, 0)?;
    let mut aside = Aside::new(alloc, script, b"");
    let options = options_of(alloc, &ON_F)?;
    edit(alloc, script, options, &mut files, &mut sink, &mut aside);
    Ok(aside.lines())
}

#[test]
fn where_a_run_stopped_is_told(rt: HostRuntime) {
    for row in &STOPPED {
        let told = told_of_run(rt.alloc(), row.script).expect(&rt, "memory");
        same(&rt, told.as_str(), row.person, row.script);
    }
}
