//! The patterns that a start has to state, so that a script gets past its searches.

ghost use Rattle.std.specs.Prelude.{◌≡◌, ◌≤◌, ◌⊎◌, All, IfOk, IfSome, IsSome, IsSomeAnd};
ghost use Rattle.ed_syntax.specs.reading.Reading.{script_of};
ghost use Rattle.ed_rules.specs.LineBounds.{most_lines, IsAtMost};
ghost use Rattle.analyser.specs.Following.{stated_of};
ghost use Rattle.hints.specs.Passing.{MoreLinesHelp};
ghost use Rattle.hints.specs.Sought.{IsTypable, GetsPastAll, stating};
ghost use Rattle.hints.specs.Hints.{IsTried, States};

use crate::advising::{at_least, past_by};
use crate::drafts::drafted;
use crate::further::with_more_lines;
use crate::hint::{Advice, Hint};
use crate::starts::copy_of;
use crate::words::shell_word;
use analyser::Start;
use cert_check::Place;
use ed_base::Bytes;
use ed_rules::Texts;
use std::alloc::{AllocError, Global};

/// The patterns that are stated.
pub(crate) fn stated_of(alloc: Global, has: &Option<Texts>) -> Result<Texts, AllocError>
    ensures value { IfOk result (λ stated. stated ≡ stated_of has.now) }
{
    match has {
        Some(has) => has.try_copy(),
        None => Ok(Texts::none(alloc)),
    }
}

/// A start that states these patterns too.
fn with_patterns(alloc: Global, start: &Start, patterns: &Texts) -> Result<Start, AllocError>
    ensures value { IfOk result (λ opened. opened ≡ stating start.now patterns.now) }
{
    let mut all = stated_of(alloc, &start.has)?;
    'patterns: for pattern in patterns.members() {
        all.add(pattern.as_slice())?;
    }
    let Start {
        path,
        min,
        max,
        landmarks,
        ..
    } = copy_of(start)?;
    Ok(Start {
        path,
        min,
        max,
        has: Some(all),
        landmarks,
    })
}

/// How many bytes of options are shown at most, and then the option that goes beyond them.
const MOST_OPTIONS: usize = 200;

/// The option that states a pattern, with a space before it. What begins with a hyphen isn't read as the word of an option that stands before it.
pub(crate) fn has_option(pattern: &[u8]) -> &'static str {
    match pattern {
        [b'-', ..] => " --has=",
        _ => " --has ",
    }
}

/// The options that state these patterns, each with a space before it. None where one of them can't be typed.
fn options_of(alloc: Global, patterns: &Texts) -> Result<Option<String>, AllocError>
    ensures typable { IfOk result (λ options. All IsTypable patterns.now → IsSome options) }
{
    let mut options = String::new(alloc);
    for pattern in patterns.members() {
        let Some(word) = shell_word(alloc, pattern.as_slice())? else {
            return Ok(None);
        };
        if options.len() < MOST_OPTIONS {
            options.push_str(has_option(pattern.as_slice()))?;
            options.push_str(word.as_str())?;
        } else if !options.as_str().ends_with(" ..") {
            options.push_str(" ..")?;
        }
    }
    Ok(Some(options))
}

/// The hint to take a start that states patterns, by these options: with as many lines as it needs to be vouched for, or as it is. Where
/// it stands alone, it may only get further with more lines.
fn over_stated(
    alloc: Global,
    script: &[u8],
    opened: &Start,
    place: Place,
    line: usize,
    options: &str,
    alone: bool,
) -> Result<Option<Hint>, AllocError>
    requires ordered { IsAtMost opened.now.min opened.now.max }
    requires low { opened.now.min ≤ most_lines }
    requires high { IfSome opened.now.max (λ most. most ≤ most_lines) }
    ensures tried { IfOk result (λ found. IfSome found (IsTried script.now opened.now place)) }
    ensures states { IfOk result (λ found. GetsPastAll (script_of script.now) opened.now place ⊎ MoreLinesHelp (script_of script.now) opened.now →
        IsSomeAnd found (λ hint. (hint.script ≡ script.now) × (hint.start.has ≡ opened.now.has))) }
{
    let fewest = at_least(alloc, script, opened, place, line, options)?;
    if fewest.is_some() {
        return Ok(fewest);
    }
    let text = format!(in alloc; "vouch with{options}, which run then tests")?;
    let same = Bytes::from_slice(alloc, script)?;
    let draft = drafted(Advice::State, text, same, 1, 1);
    let past = past_by(alloc, script, opened, place, line, draft)?;
    if past.is_some() || !alone {
        return Ok(past);
    }
    with_more_lines(alloc, script, opened, place, line, options)
}

/// The hint to state these patterns too, where the script gets past the place by that.
pub(crate) fn with_stated(
    alloc: Global,
    script: &[u8],
    start: &Start,
    place: Place,
    line: usize,
    patterns: &Texts,
    alone: bool,
) -> Result<Option<Hint>, AllocError>
    requires ordered { IsAtMost start.now.min start.now.max }
    requires low { start.now.min ≤ most_lines }
    requires high { IfSome start.now.max (λ most. most ≤ most_lines) }
    ensures tried { IfOk result (λ found. IfSome found (IsTried script.now start.now place)) }
    ensures states { IfOk result (λ found. All IsTypable patterns.now →
        GetsPastAll (script_of script.now) (stating start.now patterns.now) place ⊎ MoreLinesHelp (script_of script.now) (stating start.now patterns.now) →
        IsSomeAnd found (States script.now start.now patterns.now)) }
{
    let Some(options) = options_of(alloc, patterns)? else {
        return Ok(None);
    };
    let opened = with_patterns(alloc, start, patterns)?;
    over_stated(alloc, script, &opened, place, line, options.as_str(), alone)
}
