//! The starts that words ask for: bounds on the number of lines, patterns and landmarks, or a file that one is proposed from.
ghost use Rattle.std.specs.Prelude.{◌≡◌, ◌≢◌, ◌≤◌, true, false, Some, None, if◌then◌else◌, codes, map, IfOk, IfErr, IfSome, option_map};
ghost use Rattle.clap.specs.Words.{found_of, rows_of};
ghost use Rattle.ed_rules.specs.LineBounds.{is_few, most_lines};
ghost use Rattle.ed_main.specs.Chains.{AreHad};
ghost use Rattle.ed_main.specs.Words as meaning;
ghost use Rattle.ed_main.specs.Wanted.{IsWanted};
ghost use Rattle.ed_main.specs.Words.{AreHadIn, IsAsked, may_state};

use crate::any_start::any_start;
use crate::chains::Chains;
use crate::patterns::stated_of;
use crate::stderr::usage::{
    AT_ALONE, HAS_ALONE, HAS_NOWHERE, LIKE_ALONE, LIKE_BESIDE, NO_FILE, NO_MAX, NO_MIN,
};
use crate::wanted::Wanted;
use crate::words::WordsFault;
use crate::words::texts::{
    bytes_of, has_text, is_given, may_have, may_match, may_propose, text_of,
};
use analyser::Start;
use clap::ArgMatches;
use ed_base::Bytes;
use ed_calls::Starts;
use ed_rules::{LineBounds, Texts};
use hints::Given;
use std::alloc::Global;

/// The start for the file at this path that is asked for: one that is stated, as far as it is, or one that is proposed from another file. What is
/// wrong is shown with this usage.
pub fn wanted_in(
    alloc: Global,
    given: &ArgMatches<'_>,
    path: Option<&str>,
    usage: &str,
) -> Result<Wanted, WordsFault>
    requires named { meaning.is_path (option_map (λ text. text.now) path) ≡ true }
    ensures value { IfOk result (λ wanted. meaning.wanted_in (option_map (λ text. text.now) path.entry) (rows_of (found_of given.now)) ≡ Some wanted) }
    ensures only_if_refused { IfErr result (λ fault. fault ≢ WordsFault.Memory →
        AreHadIn (rows_of (found_of given.now)) →
        meaning.wanted_in (option_map (λ text. text.now) path.entry) (rows_of (found_of given.now)) ≡ None) }
    ensures unasked { IfErr result (λ fault. ¬ IsAsked fault) }
    ensures given { IfOk result IsWanted }
{
    match text_of(given, "like") {
        Some(like) => proposed_in(alloc, given, path, like, usage),
        None => stated_in(alloc, given, path, usage),
    }
}

/// The start for the file at this path that is proposed from the file of this name.
fn proposed_in(
    alloc: Global,
    given: &ArgMatches<'_>,
    path: Option<&str>,
    like: &str,
    usage: &str,
) -> Result<Wanted, WordsFault>
    requires named { meaning.is_path (option_map (λ text. text.now) path) ≡ true }
    ensures value { IfOk result (λ wanted. meaning.proposed_in (option_map (λ text. text.now) path.entry) like.now (rows_of (found_of given.now)) ≡ Some wanted) }
    ensures only_if_refused { IfErr result (λ fault. fault ≢ WordsFault.Memory →
        meaning.proposed_in (option_map (λ text. text.now) path.entry) like.now (rows_of (found_of given.now)) ≡ None) }
    ensures unasked { IfErr result (λ fault. ¬ IsAsked fault) }
    ensures given { IfOk result IsWanted }
{
    let sought = !states_start(given);
    if !may_propose(sought, path, Some(like)) {
        let wrong = wrong_proposal(sought, LIKE_BESIDE, path);
        return Err(WordsFault::of(alloc, wrong, usage));
    }
    let file = bytes_of(alloc, path)?;
    Ok(Wanted::Like {
        path: file,
        patterns: is_given(text_of(given, "patterns")),
        like: Bytes::from_slice(alloc, like.as_bytes())?,
    })
}

/// What is wrong where no start may be proposed from a file: it isn't sought, there is no file that it is for, or the one that it is proposed
/// from has no name.
pub fn wrong_proposal(sought: bool, unsought: &'static str, path: Option<&str>) -> &'static str {
    if !sought {
        unsought
    } else if path.is_none() {
        LIKE_ALONE
    } else {
        NO_FILE
    }
}

/// The start for the file at this path that is stated, as far as it is.
fn stated_in(
    alloc: Global,
    given: &ArgMatches<'_>,
    path: Option<&str>,
    usage: &str,
) -> Result<Wanted, WordsFault>
    requires named { meaning.is_path (option_map (λ text. text.now) path) ≡ true }
    ensures value { IfOk result (λ wanted. meaning.stated_in (option_map (λ text. text.now) path.entry) (rows_of (found_of given.now)) ≡ Some wanted) }
    ensures only_if_refused { IfErr result (λ fault. fault ≢ WordsFault.Memory →
        AreHadIn (rows_of (found_of given.now)) →
        meaning.stated_in (option_map (λ text. text.now) path.entry) (rows_of (found_of given.now)) ≡ None) }
    ensures unasked { IfErr result (λ fault. ¬ IsAsked fault) }
    ensures given { IfOk result IsWanted }
{
    let Some(least) = least_in(text_of(given, "min")) else {
        return Err(WordsFault::of(alloc, NO_MIN, usage));
    };
    let Some(most) = most_in(text_of(given, "max")) else {
        return Err(WordsFault::of(alloc, NO_MAX, usage));
    };
    if !are_in_order(least, most) {
        return Err(WordsFault::of(alloc, "error: --min is above --max", usage));
    }
    let asked = is_given(text_of(given, "patterns"));
    let has = patterns_in(alloc, path, given, most, asked, usage)?;
    let at = chains_in(alloc, path, given, most.unwrap_or(None), usage)?;
    let file = bytes_of(alloc, path)?;
    Ok(Wanted::Stated(starts_of(file, least, most, has), at))
}

/// The start of these bounds where both are given, and else what is given of the widest one.
fn starts_of(
    path: Option<Bytes>,
    least: Option<u64>,
    most: Option<Option<u64>>,
    has: Option<Texts>,
) -> Starts
    ensures value { result ≡ meaning.starts_of path least most has }
{
    match (least, most) {
        (Some(min), Some(max)) => Starts::Given(Start {
            path,
            min,
            max,
            has,
            landmarks: None,
        }),
        (Some(min), None) => Starts::Widest(Given {
            path,
            min: Some(min),
            max: None,
            has,
            landmarks: None,
        }),
        (None, Some(max)) => Starts::Widest(Given {
            path,
            min: None,
            max,
            has,
            landmarks: None,
        }),
        (None, None) => any_start(path, has),
    }
}

/// Whether a bound of the start is stated, a pattern or a landmark.
pub fn states_start(given: &ArgMatches<'_>) -> bool
    ensures value { result ≡ meaning.states_start (rows_of (found_of given.now)) }
{
    has_text(given, "min")
        || has_text(given, "max")
        || has_text(given, "has")
        || has_text(given, "at")
}

/// The chains that are given for the file at this path, which has so many lines at most. What is wrong is shown with this usage.
fn chains_in(
    alloc: Global,
    path: Option<&str>,
    given: &ArgMatches<'_>,
    most: Option<u64>,
    usage: &str,
) -> Result<Chains, WordsFault>
    requires few { IfSome most (λ lines. lines ≤ most_lines) }
    ensures named { IfOk result (λ _. meaning.may_have (option_map (λ text. text.now) path.entry) (meaning.chains_in (rows_of (found_of given.now))) ≡ true) }
    ensures value { IfOk result (λ chains. chains ≡ meaning.chains_in (rows_of (found_of given.now))) }
    ensures only_if_refused { IfErr result (λ fault. fault ≢ WordsFault.Memory → AreHad most (meaning.chains_in (rows_of (found_of given.now))) →
        meaning.may_have (option_map (λ text. text.now) path.entry) (meaning.chains_in (rows_of (found_of given.now))) ≡ false) }
    ensures unasked { IfErr result (λ fault. ¬ IsAsked fault) }
{
    match given.get_strs("at") {
        Some(texts) => chains_for(alloc, path, texts, most, usage),
        None => chains_for(alloc, path, &[], most, usage),
    }
}

/// The chains that these texts spell, for the file at this path, which has so many lines at most. What is wrong is shown with this usage.
fn chains_for(
    alloc: Global,
    path: Option<&str>,
    texts: &[&str],
    most: Option<u64>,
    usage: &str,
) -> Result<Chains, WordsFault>
    requires few { IfSome most (λ lines. lines ≤ most_lines) }
    ensures named { IfOk result (λ _. meaning.may_have (option_map (λ text. text.now) path.entry) (map (λ text. text.now) texts.now) ≡ true) }
    ensures value { IfOk result (λ chains. chains ≡ map (λ text. text.now) texts.now) }
    ensures only_if_refused { IfErr result (λ fault. fault ≢ WordsFault.Memory → AreHad most (map (λ text. text.now) texts.now) →
        meaning.may_have (option_map (λ text. text.now) path.entry) (map (λ text. text.now) texts.now) ≡ false) }
    ensures unasked { IfErr result (λ fault. ¬ IsAsked fault) }
{
    if !may_have(path, texts) {
        return Err(WordsFault::of(alloc, AT_ALONE, usage));
    }
    Chains::read(alloc, texts, most, usage)
}

/// The patterns that a start states, where they are asked for or given, for the file at this path, which has so many lines at most.
fn patterns_in(
    alloc: Global,
    path: Option<&str>,
    given: &ArgMatches<'_>,
    most: Option<Option<u64>>,
    asked: bool,
    usage: &str,
) -> Result<Option<Texts>, WordsFault>
    ensures patterns { IfOk result (λ _. may_state (option_map (λ text. text.now) path.entry) most (meaning.texts_in (codes "has") (rows_of (found_of given.now))) ≡ true) }
    ensures value { IfOk result (λ has. has ≡ meaning.stated asked (meaning.texts_in (codes "has") (rows_of (found_of given.now)))) }
    ensures only_if_refused { IfErr result (λ fault. fault ≢ WordsFault.Memory →
        may_state (option_map (λ text. text.now) path.entry) most (meaning.texts_in (codes "has") (rows_of (found_of given.now))) ≡ false) }
    ensures unasked { IfErr result (λ fault. ¬ IsAsked fault) }
{
    match given.get_strs("has") {
        Some(texts) => patterns_for(alloc, path, texts, most, asked, usage),
        None => patterns_for(alloc, path, &[], most, asked, usage),
    }
}

/// The same of these texts.
fn patterns_for(
    alloc: Global,
    path: Option<&str>,
    texts: &[&str],
    most: Option<Option<u64>>,
    asked: bool,
    usage: &str,
) -> Result<Option<Texts>, WordsFault>
    ensures patterns { IfOk result (λ _. may_state (option_map (λ text. text.now) path.entry) most (map (λ text. text.now) texts.now) ≡ true) }
    ensures value { IfOk result (λ has. has ≡ meaning.stated asked (map (λ text. text.now) texts.now)) }
    ensures only_if_refused { IfErr result (λ fault. fault ≢ WordsFault.Memory →
        may_state (option_map (λ text. text.now) path.entry) most (map (λ text. text.now) texts.now) ≡ false) }
    ensures unasked { IfErr result (λ fault. ¬ IsAsked fault) }
{
    if !may_match(path, most, texts) {
        let wrong = if path.is_none() {
            HAS_ALONE
        } else {
            HAS_NOWHERE
        };
        return Err(WordsFault::of(alloc, wrong, usage));
    }
    stated_of(alloc, asked, texts, usage)
}

/// The fewest lines, where they are given; none for a text that is no number of lines.
fn least_in(text: Option<&str>) -> Option<Option<u64>>
    ensures value { result ≡ meaning.least_in (option_map (λ text. text.now) text.entry) }
    ensures few { IfSome result (λ least. IfSome least (λ lines. lines ≤ most_lines)) }
{
    match text {
        Some(text) => Some(Some(lines_in(text)?)),
        None => Some(None),
    }
}

/// The limit on lines, where one is given; none for a text that is none.
fn most_in(text: Option<&str>) -> Option<Option<Option<u64>>>
    ensures value { result ≡ meaning.most_in (option_map (λ text. text.now) text.entry) }
    ensures few { IfSome result (λ most. IfSome most (λ limit. IfSome limit (λ lines. lines ≤ most_lines))) }
{
    match text {
        Some(text) => Some(Some(limit_in(text)?)),
        None => Some(None),
    }
}

/// Whether some number of lines is within these bounds, of which either may be missing.
fn are_in_order(least: Option<u64>, most: Option<Option<u64>>) -> bool
    ensures value { result ≡ meaning.are_in_order least most }
{
    let bounds = LineBounds {
        min: least.unwrap_or(0),
        max: most.unwrap_or(None),
    };
    bounds.in_order()
}

fn lines_in(text: &str) -> Option<u64>
    ensures value { result ≡ meaning.lines_in text.now }
    ensures few { IfSome result (λ lines. lines ≤ most_lines) }
{
    match text.parse::<u64>() {
        Ok(lines) => few(lines),
        Err(_) => None,
    }
}

fn few(lines: u64) -> Option<u64>
    ensures value { result ≡ (if is_few lines then Some lines else None) }
    ensures few { IfSome result (λ lines. lines ≤ most_lines) }
{
    if lines <= LineBounds::MOST {
        Some(lines)
    } else {
        None
    }
}

fn limit_in(text: &str) -> Option<Option<u64>>
    ensures value { result ≡ meaning.limit_in text.now }
    ensures few { IfSome result (λ limit. IfSome limit (λ lines. lines ≤ most_lines)) }
{
    if text == "any" {
        return Some(None);
    }
    Some(Some(lines_in(text)?))
}
