//! Verdicts on certificates whose start has landmarks. What they note is what the rules give from a start that is put together here, with
//! the letters that the landmarks should have.

use crate::walking::{Start, lines, state_of};
use cert_check::{CertFault, Certificate, Note, Place, Verdict, Version, check};
use ed_base::{Bytes, Letter};
use ed_rules::{State, Texts, Watch, outcome_into};
use ed_syntax::{Command, Script, Verb, read_script};
use landmarks::{LandmarkChain, know_landmarks};
use std::alloc::{AllocError, Global};
use std::test::Fail;
use zones::Name;

/// A script, the chains that its certificate states, those of which its notes know and by which letters, the version, and the verdict;
/// `None` where a need of the script fails.
#[derive(Drop)]
struct Row {
    script: &'static [u8],
    stated: &'static [&'static [u8]],
    known: &'static [&'static [u8]],
    letters: &'static [u8],
    version: Version,
    verdict: Option<Verdict>,
}

/// Refused at a place.
macro_rules! refused {
    ($command:expr) => {
        Some(Verdict::Refused(Place {
            command: $command,
            inner: None,
        }))
    };
}

const ACCEPTED: Option<Verdict> = Some(Verdict::Accepted);

const BLOCK: &[u8] = b"/A/;/B/d\nQ\n";

/// A script that names z.
const NAMING: &[u8] = b"/A/;/B/kz\nQ\n";

/// A block's two lines.
const ENDS: &[&[u8]] = &[b"/A/; /B/"];

const NONE: &[&[u8]] = &[];

const FROM_1_TO_26: &[u8] =
    b"1; 2; 3; 4; 5; 6; 7; 8; 9; 10; 11; 12; 13; 14; 15; 16; 17; 18; 19; 20; 21; 22; 23; 24; 25; 26";

#[rattlefmt::skip]
static ROWS: [Row; 7] = [
    Row { script: BLOCK, stated: ENDS, known: ENDS, letters: b"zy", version: Version::Three, verdict: ACCEPTED },
    Row { script: BLOCK, stated: ENDS, known: ENDS, letters: b"zy", version: Version::Two, verdict: refused!(1) },
    // No other letters.
    Row { script: BLOCK, stated: ENDS, known: ENDS, letters: b"yz", version: Version::Three, verdict: refused!(1) },
    Row { script: BLOCK, stated: ENDS, known: ENDS, letters: b"yx", version: Version::Three, verdict: refused!(1) },
    // None that the script names.
    Row { script: NAMING, stated: ENDS, known: ENDS, letters: b"zy", version: Version::Three, verdict: refused!(1) },
    Row { script: b"'zp\nQ\n", stated: ENDS, known: ENDS, letters: b"zy", version: Version::Three, verdict: refused!(1) },
    // In version 2 they don't count.
    Row { script: b"=\nQ\n", stated: &[FROM_1_TO_26, b"1"], known: NONE, letters: b"", version: Version::Two, verdict: ACCEPTED },
];

/// A certificate over the file F without notes, of which the end is to be put in.
const OVER_FILE: &[u8] = b"ed-certificate 1
path =F
start 0 any
end
zone
marks
patterns -
replacements none
names =F
changed no
undo nothing
final 0 any
writes =F
";

fn add_note(state: &State, notes: &mut Vec<Note>) -> Result<(), AllocError> {
    notes.push(Note {
        state: state.try_keep()?,
        looped: None,
    })?;
    Ok(())
}

/// Notes what is known before each command up to the first `Q`, and at the end, with `left` for room; it tells whether all needs hold.
fn add_notes(
    commands: &[Command],
    state: &mut State,
    left: &mut State,
    watch: &Watch,
    certificate: &mut Certificate,
) -> Result<bool, AllocError> {
    for command in commands {
        add_note(state, &mut certificate.notes)?;
        if outcome_into(command, state, left, watch)?.is_some() {
            return Ok(false);
        }
        state.try_copy_from(left)?;
        if matches!(command.verb, Verb::QuitAnyway) {
            break;
        }
    }
    certificate.last = state.try_keep()?;
    Ok(true)
}

/// A file of any number of lines.
const FILE: Start = lines!(0, None);

fn add_chains(
    alloc: Global,
    rows: &[&[u8]],
    chains: &mut Vec<LandmarkChain>,
) -> Result<(), AllocError> {
    for row in rows {
        let text = Bytes::from_slice(alloc, row)?;
        let Ok(chain) = LandmarkChain::read(alloc, text) else {
            return Err(AllocError);
        };
        chains.push(chain)?;
    }
    Ok(())
}

/// The names of letters, which become sure.
fn names_of(alloc: Global, letters: &[u8], state: &mut State) -> Result<Vec<Name>, AllocError> {
    let mut names = Vec::new(alloc);
    for byte in letters {
        if let Some(letter) = Letter::new(*byte) {
            state.marks.add(letter);
            names.push(Name::of(letter))?;
        }
    }
    Ok(names)
}

/// A start that knows of the landmarks by these letters, where there are some, and follows single lines then.
fn begin(
    alloc: Global,
    row: &Row,
    chains: &[LandmarkChain],
    state: &mut State,
) -> Result<(), AllocError> {
    let names = names_of(alloc, row.letters, state)?;
    if !row.letters.is_empty() {
        state.facts = know_landmarks(alloc, &mut state.zone, names.as_slice(), chains)?;
        state.follows = true;
    }
    Ok(())
}

/// What the commands of a script ask of lines.
fn watched(alloc: Global, script: &Script, follows: bool) -> Result<Watch, AllocError> {
    let has = Texts::none(alloc);
    if follows {
        Watch::of_lines(script, &has)
    } else {
        Watch::of(script, &has)
    }
}

fn note(
    script: &Script,
    watch: &Watch,
    state: &mut State,
    certificate: &mut Certificate,
) -> Result<bool, AllocError> {
    let mut left = state.try_copy()?;
    add_notes(
        script.commands.as_slice(),
        state,
        &mut left,
        watch,
        certificate,
    )
}

fn note_from(
    alloc: Global,
    script: &Script,
    row: &Row,
    known: &[LandmarkChain],
    state: &mut State,
    certificate: &mut Certificate,
) -> Result<bool, AllocError> {
    begin(alloc, row, known, state)?;
    let watch = watched(alloc, script, state.follows)?;
    note(script, &watch, state, certificate)
}

/// Puts in the notes of a row.
fn fill(
    alloc: Global,
    script: &Script,
    row: &Row,
    known: &[LandmarkChain],
    certificate: &mut Certificate,
) -> Result<bool, AllocError> {
    let mut state = state_of(alloc, FILE)?;
    note_from(alloc, script, row, known, &mut state, certificate)
}

fn state_landmarks(
    alloc: Global,
    row: &Row,
    certificate: &mut Certificate,
) -> Result<(), AllocError> {
    certificate.version = row.version;
    add_chains(alloc, row.stated, &mut certificate.landmarks)
}

fn verdict_over(
    alloc: Global,
    script: &Script,
    row: &Row,
    known: &[LandmarkChain],
    certificate: &mut Certificate,
) -> Result<Option<Verdict>, AllocError> {
    state_landmarks(alloc, row, certificate)?;
    if fill(alloc, script, row, known, certificate)? {
        Ok(Some(check(script, certificate)?))
    } else {
        Ok(None)
    }
}

fn chains_of(alloc: Global, rows: &[&[u8]]) -> Result<Vec<LandmarkChain>, AllocError> {
    let mut chains = Vec::new(alloc);
    add_chains(alloc, rows, &mut chains)?;
    Ok(chains)
}

/// The verdict on a row's certificate; `None` where a need fails.
fn judged(
    alloc: Global,
    script: &Script,
    row: &Row,
    certificate: &mut Certificate,
) -> Result<Option<Verdict>, AllocError> {
    let known = chains_of(alloc, row.known)?;
    verdict_over(alloc, script, row, known.as_slice(), certificate)
}

fn verdict_of(
    alloc: Global,
    script: &Script,
    row: &Row,
) -> Result<Result<Option<Verdict>, AllocError>, CertFault> {
    let mut certificate = Certificate::read(alloc, OVER_FILE)?;
    Ok(judged(alloc, script, row, &mut certificate))
}

fn row_verdict(alloc: Global, row: &Row) -> Result<Result<Option<Verdict>, AllocError>, CertFault> {
    let script = read_script(alloc, row.script)?;
    verdict_of(alloc, &script, row)
}

/// The first row that gets another verdict.
fn first_otherwise(
    alloc: Global,
    rows: &[Row],
) -> Result<Result<Option<usize>, AllocError>, CertFault> {
    for (index, row) in rows.iter().enumerate() {
        match row_verdict(alloc, row)? {
            Ok(verdict) => {
                if verdict != row.verdict {
                    return Ok(Ok(Some(index)));
                }
            }
            Err(refusal) => return Ok(Err(refusal)),
        }
    }
    Ok(Ok(None))
}

#[test]
fn certificates_with_landmarks_get_their_verdicts(rt: HostRuntime) -> Result<(), Fail> {
    assert_eq!(rt; first_otherwise(rt.alloc(), &ROWS)??, None);
    Ok(())
}
