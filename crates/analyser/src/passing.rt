//! The walk over the counted commands that keeps nothing but the state that comes in.

ghost use Rattle.std.specs.Prelude.{◌≡◌, ◌≤◌, length, IfOk};
ghost use Rattle.ed_syntax.specs.PublicTypes.{steps_value};
ghost use Rattle.analyser.specs.Passing.{IsPassage};

use crate::walk::{End, Outcome, place_of, take};
use cert_check::Sight;
use ed_rules::State;
use ed_syntax::Command;
use std::alloc::{AllocError, Global};
use std::mem;

/// What the counted commands come to.
#[derive(Drop)]
pub(crate) struct Passage {
    /// How many were gone through.
    pub count: usize,
    /// Whether the last of them ends the run.
    pub quit: bool,
    pub outcome: Outcome,
}

impl Passage {
    fn of(count: usize, quit: bool, outcome: Outcome) -> Passage
        ensures value { result ≡ record { count = count; quit = quit; outcome = outcome } }
    {
        Passage {
            count,
            quit,
            outcome,
        }
    }
}

/// Goes through the counted commands, from the state at the start.
pub(crate) fn pass_through(
    alloc: Global,
    sight: &Sight,
    commands: &[Command],
    start: State,
) -> Result<Passage, AllocError>
    ensures value { IfOk result (λ passage. IsPassage sight.now (steps_value commands.now) start passage) }
    ensures within { IfOk result (λ passage. passage.count ≤ length commands.now) }
{
    let mut coming = Box::new(alloc, start)?;
    // Room for the result of each command. A state is large, so the boxes are exchanged and not what they hold.
    let mut left = Box::new(alloc, coming.try_copy()?)?;
    for (index, command) in commands.iter().enumerate() {
        match take(alloc, sight, command, &coming, &mut left)?.end {
            End::Stops { inner, why } => {
                let place = place_of(index + 1, inner);
                let outcome = Outcome::Fails { place, why };
                return Ok(Passage::of(index, false, outcome));
            }
            End::Leaves => mem::swap(&mut coming, &mut left),
        }
        if command.verb.takes().ends.is_some() {
            let outcome = Outcome::Left(coming.try_keep()?);
            return Ok(Passage::of(index + 1, true, outcome));
        }
    }
    let outcome = Outcome::Left(coming.try_keep()?);
    Ok(Passage::of(commands.len(), false, outcome))
}
