//! Starts with landmarks: whether some file may have them, whether a script leaves letters for them, what is told of a script over such a
//! start, and what its certificate allows.
ghost use Rattle.std.specs.Prelude.{IfOk, IfSome};
ghost use Rattle.ed_calls.specs.Starts.{AreAllowed};

use crate::asserting::same;
use crate::calling::{Came, Case, ON_F, OUTSIDE, files_of, output, ran};
use ed_base::Bytes;
use ed_calls::{Aside, Starts, TooFewLetters, too_few_letters, vouch_text};
use ed_session::MemFiles;
use hints::{Given, no_file_has};
use landmarks::{LandmarkChain, LandmarkChains};
use std::alloc::{AllocError, Global};
use std::process::Abort;

/// A certificate tells of at most 10^12 lines.
const MOST_LINES: u64 = 1_000_000_000_000;

/// The chains that these texts spell; None where one spells none.
fn chains_of(alloc: Global, texts: &[&[u8]]) -> Result<Option<LandmarkChains>, AllocError> {
    let mut chains = Vec::new(alloc);
    for text in texts {
        let text = Bytes::from_slice(alloc, text)?;
        match LandmarkChain::read(alloc, text) {
            Ok(chain) => chains.push(chain)?,
            Err(_) => return Ok(None),
        }
    }
    Ok(Some(LandmarkChains::from_vec(chains)))
}

/// Chains, and whether it is seen that no file of so many lines at most has their landmarks.
struct Somewhere {
    texts: &'static [&'static [u8]],
    most: Option<u64>,
    none: bool,
}

#[rattlefmt::skip]
static SOMEWHERE: [Somewhere; 14] = [
    Somewhere { texts: &[], most: Some(0), none: false },
    Somewhere { texts: &[b"/a/; /b/"], most: Some(2), none: false },
    Somewhere { texts: &[b"/a/; /b/"], most: Some(1), none: true },
    Somewhere { texts: &[b"5; 3"], most: None, none: true },
    Somewhere { texts: &[b"3; 5"], most: None, none: false },
    Somewhere { texts: &[b"3; /a/ gap 3 tail 2"], most: Some(7), none: true },
    Somewhere { texts: &[b"3; /a/ gap 3 tail 2"], most: Some(8), none: false },
    Somewhere { texts: &[b"/a/; only /a/"], most: None, none: true },
    Somewhere { texts: &[b"only /a/", b"/b/; /c/"], most: None, none: false },
    Somewhere { texts: &[b"/a/; no /c/ /b/"], most: None, none: false },
    Somewhere { texts: &[b"5 & /c/", b"no /c/ 7"], most: None, none: true },
    Somewhere { texts: &[b"5 & not /c/", b"no /c/ 7"], most: None, none: false },
    Somewhere { texts: &[b"5 & /c/; no /c/ 7"], most: None, none: false },
    Somewhere { texts: &[b"5", b"4"], most: None, none: false },
];

/// Whether it is seen; None where a text spells no chain.
fn is_nowhere(alloc: Global, row: &Somewhere) -> Result<Option<bool>, AllocError> {
    let most = row.most.filter(|lines| *lines <= MOST_LINES);
    match chains_of(alloc, row.texts)? {
        Some(chains) => Ok(Some(no_file_has(alloc, chains.as_slice(), most)?)),
        None => Ok(None),
    }
}

#[test]
fn landmarks_that_contradict_each_other_are_in_no_file(rt: HostRuntime) {
    for row in &SOMEWHERE {
        let found = is_nowhere(rt.alloc(), row).expect(&rt, "memory");
        same(&rt, found, Some(row.none), row.texts);
    }
}

/// Starts at the file `F` with these landmarks, of any number of lines; None where a text spells no chain.
fn starts_at(alloc: Global, texts: &[&[u8]]) -> Result<Option<Starts>, AllocError>
    ensures allowed { IfOk result (λ found. IfSome found AreAllowed) }
{
    let path = Some(Bytes::from_slice(alloc, b"F")?);
    match chains_of(alloc, texts)? {
        Some(chains) => Ok(Some(Starts::Widest(Given {
            path,
            min: None,
            max: None,
            has: None,
            landmarks: Some(chains),
        }))),
        None => Ok(None),
    }
}

/// A script, the landmarks of its start, and the letters that are too few for them, where they are.
struct Letters {
    script: &'static [u8],
    texts: &'static [&'static [u8]],
    few: Option<TooFewLetters>,
}

const ALL_LETTERS: &[u8] = b"1;2;3;4;5;6;7;8;9;10;11;12;13;14;15;16;17;18;19;20;21;22;23;24;25;26";

/// A script that names each letter.
const ALL_MARKED: &[u8] =
    b"ka\nkb\nkc\nkd\nke\nkf\nkg\nkh\nki\nkj\nkk\nkl\nkm\nkn\nko\nkp\nkq\nkr\nks\nkt\nku\nkv\nkw\nkx\nky\nkz\nQ\n";

#[rattlefmt::skip]
static LETTERS: [Letters; 8] = [
    Letters { script: b"Q\n", texts: &[ALL_LETTERS], few: None },
    Letters { script: b"Q\n", texts: &[ALL_LETTERS, b"/a/"], few: Some(TooFewLetters { lines: 27, letters: 26 }) },
    Letters { script: b"1ka\nQ\n", texts: &[ALL_LETTERS], few: Some(TooFewLetters { lines: 26, letters: 25 }) },
    Letters { script: b"1ka\n'ap\ng/x/'bp\nQ\n", texts: &[ALL_LETTERS], few: Some(TooFewLetters { lines: 26, letters: 24 }) },
    Letters { script: b"1ka\nQ\n", texts: &[b"/a/; /b/", b"/c/"], few: None },
    Letters { script: b"1ka\nQ\n", texts: &[], few: None },
    Letters { script: ALL_MARKED, texts: &[b"/a/"], few: Some(TooFewLetters { lines: 1, letters: 0 }) },
    Letters { script: ALL_MARKED, texts: &[], few: None },
];

/// The letters that are too few for the row's landmarks; None where a text spells no chain.
fn few_of(alloc: Global, row: &Letters) -> Result<Option<Option<TooFewLetters>>, AllocError> {
    match starts_at(alloc, row.texts)? {
        Some(starts) => Ok(Some(too_few_letters(alloc, row.script, &starts)?)),
        None => Ok(None),
    }
}

#[test]
fn each_landmark_takes_a_letter_that_the_script_leaves(rt: HostRuntime) {
    for row in &LETTERS {
        let few = few_of(rt.alloc(), row).expect(&rt, "memory");
        same(&rt, few, Some(row.few), row.script);
    }
}

/// A script over a start with landmarks: the first lines of its certificate, what a person is told, and the file `F` before and after a run,
/// if it is one that the certificate allows.
struct Row {
    script: &'static [u8],
    texts: &'static [&'static [u8]],
    begins: &'static [u8],
    person: &'static str,
    before: &'static [u8],
    after: Option<&'static [u8]>,
}

const BLOCK: Row = Row {
    script: b"/BEGIN/;/END/d\nw\nq\n",
    texts: &[b"/BEGIN/; /END/"],
    begins: b"ed-certificate 3\npath =F\nstart 0 any\nhas\nat =/BEGIN/;%20/END/\nnote\n",
    person: "vouched for: any F in which a line matches `BEGIN`, and a line below it matches `END`\n",
    before: b"END\na\nBEGIN\nb\nEND\nc\n",
    after: Some(b"END\na\nc\n"),
};

#[rattlefmt::skip]
static ROWS: [Row; 3] = [
    BLOCK,
    Row { before: b"END\nBEGIN\n", after: None, ..BLOCK },
    Row { before: b"BEGIN\nb\nEND", after: Some(b""), ..BLOCK },
];

/// What is told of the row's script, and of the run over the row's file by its certificate; None where a text spells no chain.
fn told(
    alloc: Global,
    files: &mut MemFiles,
    case: &Case,
    row: &Row,
) -> Result<Option<(Came, String, Came)>, AllocError> {
    let Some(starts) = starts_at(alloc, row.texts)? else {
        return Ok(None);
    };
    let mut sink = output(alloc, 0)?;
    let mut aside = Aside::new(alloc, row.script, b"");
    let status = vouch_text(alloc, row.script, starts, false, &mut sink, &mut aside);
    let vouched = Came { status, sink };
    let run = ran(alloc, files, case, row.script, vouched.sink.taken())?;
    Ok(Some((vouched, aside.lines(), run)))
}

fn check(rt: &impl Abort, alloc: Global, row: &Row) {
    let case = Case {
        f: Some(row.before),
        ..ON_F
    };
    let mut files = files_of(alloc, &case).expect(rt, "memory");
    let told = told(alloc, &mut files, &case, row).expect(rt, "memory");
    let (vouched, person, run) = told.expect(rt, "chains");
    same(rt, vouched.status, 0, row.script);
    let taken = vouched.sink.taken();
    let front = &taken[..taken.len().min(row.begins.len())];
    same(rt, front, row.begins, row.script);
    same(rt, person.as_str(), row.person, row.script);
    match row.after {
        Some(after) => {
            same(rt, run.status, 0, row.before);
            same(rt, files.file(b"F"), Some(after), row.before);
        }
        None => {
            same(rt, run.status, 4, row.before);
            same(rt, run.sink.taken(), OUTSIDE, row.before);
            same(rt, files.file(b"F"), Some(row.before), row.before);
        }
    }
}

#[test]
fn a_script_is_vouched_for_over_files_that_have_the_landmarks(rt: HostRuntime) {
    for row in &ROWS {
        check(&rt, rt.alloc(), row);
    }
}
