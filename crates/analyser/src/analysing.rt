//! The analyser.

ghost use Rattle.std.specs.Prelude.{◌≡◌, ◌≤◌, All, IfOk, IfSome, IsTrue};
ghost use Rattle.ed_syntax.specs.PublicTypes.{steps_value};
ghost use Rattle.ed_syntax.specs.PublicScript.{script_value};
ghost use Rattle.ed_rules.specs.LineBounds.{IsAtMost};
ghost use Rattle.analyser.specs.Following.{do_count, version_by, chains_by, stated_of, sight_over, knowing, begun, end_fault};
ghost use Rattle.analyser.specs.Analysis.{most_lines, IsAnswer, IsValid, HasTextIfVouched};
ghost use Rattle.analyser.specs.Checked.{IsChecked};
ghost use Rattle.analyser.specs.Exactness.{IsExactAnswer};
ghost use Rattle.analyser.specs.Walking.{IsWalk, StepIsBytes};

use crate::analysis::{Analysis, Start};
use crate::bounds::{high_of, low_of};
use crate::fact_texts::{chains_have_text, told_are_bytes};
use crate::laws::exact_scripts_are_foretold;
use crate::texts::{has_is_formed, path_is_bytes, paths_are_bytes, steps_are_bytes};
use crate::walk::{Outcome, Walk, go_through, place_of};
use cert_check::{Certificate, Sight, Version, covering_is_decided, know_chains};
use ed_base::Fault;
use ed_rules::{
    KeptState, State, Texts, joined_states_are_covered, matches_stay_formed, states_stay_formed,
};
use ed_syntax::Script;
use landmarks::{LandmarkChain, LandmarkChains};
use std::alloc::{AllocError, Global};

/// The fault that may come at the end of a script.
pub(crate) fn end_fault(quit: bool, fault: Option<usize>, last: &KeptState) -> Option<Fault>
    ensures value { result ≡ end_fault quit fault last.now }
{
    if quit {
        None
    } else if fault.is_some() {
        Some(Fault::Syntax)
    } else if last.changed().yes {
        Some(Fault::Unsaved)
    } else {
        None
    }
}

/// The version of the certificate that is asked for, by whether landmarks count.
fn version_of(counts: bool, has: &Option<Texts>) -> Version
    ensures value { result ≡ version_by counts has.now }
{
    if counts {
        return Version::Three;
    }
    match has {
        None => Version::One,
        Some(_) => Version::Two,
    }
}

/// The chains of landmarks that count.
fn chains_of(alloc: Global, counts: bool, landmarks: Option<LandmarkChains>) -> Vec<LandmarkChain>
    ensures value { result.items ≡ chains_by counts landmarks }
{
    match landmarks {
        Some(chains) if counts => chains.into_vec(),
        _ => Vec::new(alloc),
    }
}

/// The patterns that some line of the start matches, as far as it is told.
fn stated_of(alloc: Global, has: Option<Texts>) -> Texts
    ensures value { result ≡ stated_of has }
{
    match has {
        None => Texts::none(alloc),
        Some(has) => has,
    }
}

/// From now on the state knows of the landmarks, if they count, as is answered.
fn know(state: &mut State, script: &Script, start: &Start) -> Result<bool, AllocError>
    ensures value { IfOk result (λ counts. (counts ≡ do_count (script_value script.now) start.now.landmarks)
        × (state.new ≡ knowing (script_value script.now) start.now state.old)) }
{
    match &start.landmarks {
        None => Ok(false),
        Some(chains) => know_chains(state, script, chains.as_slice()),
    }
}

/// Whether landmarks count, what the script is judged by beside what is known, and what is known at the start, where some of its lines
/// match these patterns.
fn opened(
    alloc: Global,
    script: &Script,
    start: &Start,
    has: &Texts,
) -> Result<(bool, Sight, State), AllocError>
    requires stated { has.now ≡ stated_of start.now.has }
    ensures value { IfOk result (λ (counts, sight, begins). (counts ≡ do_count (script_value script.now) start.now.landmarks)
        × (sight ≡ sight_over (script_value script.now) start.now) × (begins ≡ begun (script_value script.now) start.now)) }
{
    let mut begins = State::start(alloc, &start.path, start.min, start.max, has)?;
    let counts = know(&mut begins, script, start)?;
    let sight = Sight::of(script, version_of(counts, &start.has), has)?;
    sight.tell(&mut begins);
    Ok((counts, sight, begins))
}

/// Whether landmarks count, what the script is judged by beside what is known, and what is known at the start.
pub(crate) fn begin(
    alloc: Global,
    script: &Script,
    start: &Start,
) -> Result<(bool, Sight, State), AllocError>
    ensures value { IfOk result (λ (counts, sight, begins). (counts ≡ do_count (script_value script.now) start.now.landmarks)
        × (sight ≡ sight_over (script_value script.now) start.now) × (begins ≡ begun (script_value script.now) start.now)) }
{
    match &start.has {
        None => opened(alloc, script, start, &Texts::none(alloc)),
        Some(has) => opened(alloc, script, start, has),
    }
}

/// The answer, by what the walk over the counted commands came to.
fn answer(script: &Script, start: Start, counts: bool, walk: Walk) -> Analysis
    requires counted { counts ≡ do_count (script_value script.now) start.landmarks }
    requires walked { IsWalk (sight_over (script_value script.now) start) (steps_value script.now.commands.items) (begun (script_value script.now) start) walk }
    requires ordered { IsAtMost start.min start.max }
    requires low { start.min ≤ most_lines }
    requires high { IfSome start.max (λ most. most ≤ most_lines) }
    requires bytes { All StepIsBytes (steps_value script.now.commands.items) }
    ensures exact { IsAnswer (script_value script.now) start result }
    ensures valid { IsValid (script_value script.now) result }
    ensures checked { IsChecked (script_value script.now) start result }
    ensures texts { HasTextIfVouched result }
{
    states_stay_formed();
    matches_stay_formed();
    covering_is_decided();
    joined_states_are_covered();
    let Walk {
        notes,
        writes,
        quit,
        outcome,
    } = walk;
    path_is_bytes(&start.path);
    has_is_formed(&start.has);
    chains_have_text(&start.landmarks);
    paths_are_bytes(writes.as_slice());
    match outcome {
        Outcome::Fails { place, why } => Analysis::Cannot { place, why, notes },
        Outcome::Left(last) => match end_fault(quit, script.fault, &last) {
            Some(why) => Analysis::Cannot {
                place: place_of(notes.len() + 1, None),
                why,
                notes,
            },
            None => {
                told_are_bytes(counts, notes.as_slice(), &last);
                Analysis::Vouched(Certificate {
                    version: version_of(counts, &start.has),
                    path: start.path,
                    min: start.min,
                    max: start.max,
                    has: stated_of(*script.commands.allocator(), start.has),
                    landmarks: chains_of(*script.commands.allocator(), counts, start.landmarks),
                    notes,
                    low: low_of(&last.zone()),
                    high: high_of(&last.zone()),
                    last,
                    writes,
                })
            }
        },
    }
}

/// Makes the certificate that a script can't fail over any start of these bounds in which some line matches each of the patterns and
/// the landmarks are, if they count, or tells the first need that fails. It goes through the script once, and through the list of a global
/// command in rounds.
pub fn analyse(script: &Script, start: Start) -> Result<Analysis, AllocError>
    requires ordered { IsAtMost start.min start.max }
    requires low { start.min ≤ most_lines }
    requires high { IfSome start.max (λ most. most ≤ most_lines) }

    // Whether a script is vouched for is determined: it is just where no need fails.
    ensures exact { IfOk result (λ answer. IsAnswer (script_value script.now) start answer) }

    // What is vouched for the checker accepts.
    ensures valid { IfOk result (λ answer. IsValid (script_value script.now) answer) }

    // Where a need fails, all checks at the places before it hold of the notes.
    ensures checked { IfOk result (λ answer. IsChecked (script_value script.now) start answer) }

    // What is vouched for has a text.
    ensures texts { IfOk result (λ answer. HasTextIfVouched answer) }

    // No false alarm on exact scripts: the answer foretells each of their runs.
    ensures foretold { IfOk result (λ answer. IsExactAnswer (script_value script.now) start answer) }
{
    exact_scripts_are_foretold();
    let alloc = *script.commands.allocator();
    steps_are_bytes(script.commands.as_slice());
    let (counts, sight, begins) = begin(alloc, script, &start)?;
    let walk = go_through(alloc, &sight, script.commands.as_slice(), begins)?;
    Ok(answer(script, start, counts, walk))
}
