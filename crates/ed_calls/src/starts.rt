//! The start that a script is judged over.
ghost use Rattle.std.specs.Prelude.{◌≡◌, ◌≤◌, [], IfOk, IfSome, unwrap_or};
ghost use Rattle.ed_rules.specs.LineBounds.{most_lines};
ghost use Rattle.hints.specs.Like as meaning;
ghost use Rattle.hints.specs.Like.{lines_in};
ghost use Rattle.ed_syntax.specs.reading.Reading.{script_of};
ghost use Rattle.hints.specs.Passing.{IsAllowed, IsVouched};
ghost use Rattle.hints.specs.Widest.{fullest};
ghost use Rattle.ed_calls.specs.Starts.{AreAllowed, IsJudgedFor, IsLandmarkedLike, IsPartOfStart, chains_given, path_of, with_landmarks};

use analyser::Start;
use ed_base::{Bytes, count_lines};
use ed_rules::Texts;
use ed_syntax::read_script;
use hints::{
    Given, Like, allows_file, copy_of, fullest_like, fullest_start, given_like, landmark_start,
    like_start, widest_start,
};
use landmarks::{LandmarkChain, LandmarkChains};
use std::alloc::{AllocError, Global};

/// The start that a script is judged over.
#[derive(Debug, Drop)]
pub enum Starts {
    /// This one.
    Given(Start),
    /// The widest one of what is given of it, which is found (`hints::widest_start`), or one with landmarks beside that, where there is no other
    /// (`hints::landmark_start`).
    Widest(Given),
    /// The widest one that a file is one of, which is proposed (`hints::like_start`), or one with landmarks that the file has, where there is no
    /// other.
    Like(Like),
}

impl Starts {
    /// The path of the start file; with none the buffer is empty.
    pub fn path(&self) -> &Option<Bytes>
        ensures value { result.now ≡ path_of self.now }
    {
        match self {
            Starts::Given(start) => &start.path,
            Starts::Widest(given) => &given.path,
            Starts::Like(like) => &like.path,
        }
    }

    /// The chains of landmarks that are given.
    pub fn landmarks(&self) -> &[LandmarkChain]
        ensures value { result.now ≡ chains_given self.now }
    {
        match self {
            Starts::Given(start) => chains_in(&start.landmarks),
            Starts::Widest(given) => chains_in(&given.landmarks),
            Starts::Like(_) => &[],
        }
    }

    /// The same with these landmarks in place of those that are given. To one that is proposed from a file none can be given.
    pub fn with_landmarks(self, landmarks: LandmarkChains) -> Starts
        ensures value { result ≡ with_landmarks landmarks self }
    {
        match self {
            Starts::Given(start) => Starts::Given(Start {
                path: start.path,
                min: start.min,
                max: start.max,
                has: start.has,
                landmarks: Some(landmarks),
            }),
            Starts::Widest(given) => Starts::Widest(Given {
                path: given.path,
                min: given.min,
                max: given.max,
                has: given.has,
                landmarks: Some(landmarks),
            }),
            Starts::Like(like) => Starts::Like(like),
        }
    }

    /// Equal starts.
    pub fn try_copy(&self) -> Result<Starts, AllocError>
        ensures value { IfOk result (λ copy. copy ≡ self.now) }
    {
        match self {
            Starts::Given(start) => Ok(Starts::Given(copy_of(start)?)),
            Starts::Widest(given) => Ok(Starts::Widest(copy_of_given(given)?)),
            Starts::Like(like) => Ok(Starts::Like(copy_of_like(like)?)),
        }
    }

    /// Whether it is the empty buffer of a run without a file.
    pub fn are_empty(&self) -> bool {
        match self {
            Starts::Given(start) => start.path.is_none() && start.max == Some(0),
            Starts::Widest(given) => given.path.is_none() && given.max == Some(0),
            Starts::Like(_) => false,
        }
    }

    /// Whether the start is to be found, so that a person is told which one it is.
    pub fn are_sought(&self) -> bool {
        match self {
            Starts::Widest(_) | Starts::Like(_) => !self.are_empty(),
            Starts::Given(_) => false,
        }
    }

    /// The file that it is proposed from, if it is.
    pub(crate) fn file(&self) -> Option<&Bytes> {
        match self {
            Starts::Like(like) => Some(&like.file),
            Starts::Given(_) | Starts::Widest(_) => None,
        }
    }

    /// Whether its least number of lines is, with nothing but a limit to go by.
    pub(crate) fn least_sought(&self) -> bool {
        match self {
            Starts::Widest(given) => given.min.is_none() && given.max != Some(0),
            Starts::Given(_) | Starts::Like(_) => false,
        }
    }

    /// Whether nothing is given of which lines it has, but patterns.
    pub(crate) fn are_unbounded(&self) -> bool {
        match self {
            // Where landmarks are given, no file may be that has as many lines as are meant.
            Starts::Widest(given) => {
                given.min.is_none() && given.max.is_none() && given.landmarks.is_none()
            }
            Starts::Given(_) | Starts::Like(_) => false,
        }
    }
}

/// The chains of landmarks, where some are given.
fn chains_in(landmarks: &Option<LandmarkChains>) -> &[LandmarkChain]
    ensures value { result.now ≡ unwrap_or landmarks.now [] }
{
    match landmarks {
        Some(landmarks) => landmarks.as_slice(),
        None => &[],
    }
}

/// What is given of a start, once more.
fn copy_of_given(given: &Given) -> Result<Given, AllocError>
    ensures value { IfOk result (λ copy. copy ≡ given.now) }
{
    Ok(Given {
        path: copy_of_path(&given.path)?,
        min: given.min,
        max: given.max,
        has: copy_of_has(&given.has)?,
        landmarks: copy_of_landmarks(&given.landmarks)?,
    })
}

/// A file to propose a start from, once more.
fn copy_of_like(like: &Like) -> Result<Like, AllocError>
    ensures value { IfOk result (λ copy. copy ≡ like.now) }
{
    Ok(Like {
        path: copy_of_path(&like.path)?,
        patterns: like.patterns,
        file: like.file.try_copy()?,
    })
}

fn copy_of_path(path: &Option<Bytes>) -> Result<Option<Bytes>, AllocError>
    ensures value { IfOk result (λ copy. copy ≡ path.now) }
{
    match path {
        Some(path) => Ok(Some(path.try_copy()?)),
        None => Ok(None),
    }
}

fn copy_of_has(has: &Option<Texts>) -> Result<Option<Texts>, AllocError>
    ensures value { IfOk result (λ copy. copy ≡ has.now) }
{
    match has {
        Some(has) => Ok(Some(has.try_copy()?)),
        None => Ok(None),
    }
}

fn copy_of_landmarks(
    landmarks: &Option<LandmarkChains>,
) -> Result<Option<LandmarkChains>, AllocError>
    ensures value { IfOk result (λ copy. copy ≡ landmarks.now) }
{
    match landmarks {
        Some(landmarks) => Ok(Some(landmarks.try_copy()?)),
        None => Ok(None),
    }
}

/// The start that a script is judged over. Where none is found it is the fullest one, over which the script isn't vouched for.
pub(crate) fn start_of(alloc: Global, script: &[u8], starts: &Starts) -> Result<Start, AllocError>
    requires allowed { AreAllowed starts.now }
    ensures judged { IfOk result (IsJudgedFor script.now starts.now) }
    ensures allowed { IfOk result IsAllowed }
{
    match starts {
        Starts::Given(start) => copy_of(start),
        Starts::Widest(given) => widest_of(alloc, script, given),
        Starts::Like(like) => proposed_from(alloc, script, like),
    }
}

/// The widest start of what is given with which a script is vouched for, or else one with landmarks, or else the fullest one.
fn widest_of(alloc: Global, script: &[u8], given: &Given) -> Result<Start, AllocError>
    requires allowed { IsPartOfStart given.now.min given.now.max }
    ensures judged { IfOk result (IsJudgedFor script.now (Starts.Widest given.now)) }
    ensures allowed { IfOk result IsAllowed }
{
    let found = widest_start(alloc, script, given)?;
    match found {
        Some(start) => Ok(start),
        None => landmarked_of(alloc, script, given),
    }
}

/// The start with landmarks that is found for a script which isn't vouched for with those that are given, or else the fullest one.
fn landmarked_of(alloc: Global, script: &[u8], given: &Given) -> Result<Start, AllocError>
    requires allowed { IsPartOfStart given.now.min given.now.max }
    requires refused { ¬ IsVouched (script_of script.now) (fullest (script_of script.now) given.now) }
    ensures judged { IfOk result (IsJudgedFor script.now (Starts.Widest given.now)) }
    ensures allowed { IfOk result IsAllowed }
{
    let found = landmark_start(alloc, script, given)?;
    match found {
        Some(start) => Ok(start),
        None => fullest_start(alloc, script, given),
    }
}

/// The start that is proposed for a script from a file, or else one with landmarks that the file has, or else the fullest one.
fn proposed_from(alloc: Global, script: &[u8], like: &Like) -> Result<Start, AllocError>
    requires few { lines_in like.now ≤ most_lines }
    ensures judged { IfOk result (IsJudgedFor script.now (Starts.Like like.now)) }
    ensures allowed { IfOk result IsAllowed }
{
    let found = like_start(alloc, script, like)?;
    match found {
        Some(start) => Ok(start),
        None => landmarked_or_fullest(alloc, script, like),
    }
}

/// The start with landmarks that is found for a script and that a file is one of, where none is proposed without; or else the fullest one.
fn landmarked_or_fullest(alloc: Global, script: &[u8], like: &Like) -> Result<Start, AllocError>
    requires few { lines_in like.now ≤ most_lines }
    requires refused { ¬ IsVouched (script_of script.now) (meaning.fullest_like (script_of script.now) like.now) }
    ensures judged { IfOk result (IsJudgedFor script.now (Starts.Like like.now)) }
    ensures allowed { IfOk result IsAllowed }
{
    let found = landmarked_like(alloc, script, like)?;
    match found {
        Some(start) => Ok(start),
        None => fullest_like(alloc, script, like),
    }
}

/// The start with landmarks that is found for a script of what a file gives of it; none, too, where the file isn't one that it allows.
fn landmarked_like(alloc: Global, script: &[u8], like: &Like) -> Result<Option<Start>, AllocError>
    requires few { lines_in like.now ≤ most_lines }
    ensures landmarked { IfOk result (λ found. IfSome found (IsLandmarkedLike (script_of script.now) like.now)) }
{
    let given = given_by(alloc, script, like)?;
    let Some(start) = landmark_start(alloc, script, &given)? else {
        return Ok(None);
    };
    if !allows_file(alloc, &start, like.file.as_slice())? {
        return Ok(None);
    }
    Ok(Some(start))
}

/// What a file gives of the start of a script: its number of lines, where the script takes lines by their numbers.
fn given_by(alloc: Global, script: &[u8], like: &Like) -> Result<Given, AllocError>
    requires few { lines_in like.now ≤ most_lines }
    ensures value { IfOk result (λ given. given ≡ meaning.given_like (script_of script.now) like.now) }
    ensures part { IfOk result (λ given. IsPartOfStart given.min given.max) }
{
    let read = read_script(alloc, script)?;
    let lines = count_lines(like.file.as_slice()) as u64;
    given_like(alloc, &read, like, lines)
}
