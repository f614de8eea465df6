//! Landmarks that take more letters than a script leaves for them.
ghost use Rattle.std.specs.Prelude.{◌≤◌, IfNone, IfSome};
ghost use Rattle.ed_calls.specs.Landmarked.{LeavesLetters};
ghost use Rattle.ed_main.specs.Letters.{IsRefused};

use ed_base::{Bytes, Fault};
use ed_calls::{Aside, Starts, too_few_letters};
use std::alloc::AllocError;

/// The status of words that aren't understood, such as landmarks that are too many for a script.
pub const USAGE_STATUS: u8 = 4;

/// The status of a script that leaves too few letters for the landmarks of a start; none where it leaves enough. What is wrong is shown, unless
/// nothing is to be told: under the script's name, where it is one of several, and else with this usage.
pub fn refusal_for<R>(
    rt: &R,
    name: Option<&Bytes>,
    script: &[u8],
    starts: &Starts,
    usage: &str,
    is_quiet: bool,
) -> Option<u8>
where
    R: Eprint + AllocGlobal,
    ensures enough { IfNone result (LeavesLetters script.now starts.now) }
    ensures refused { IfSome result (IsRefused script.now starts.now) }
    ensures status { IfSome result (λ status. status ≤ 4) }
{
    let few = match too_few_letters(rt.alloc(), script, starts) {
        Ok(Some(few)) => few,
        Ok(None) => return None,
        Err(AllocError) => return Some(Fault::Memory.status()),
    };
    if is_quiet {
        return Some(USAGE_STATUS);
    }
    let mut aside = Aside::new(rt.alloc(), script, b"");
    aside.too_few_letters(starts, few);
    match name {
        Some(name) => aside.show_under(rt, name.as_slice()),
        None => {
            aside.show(rt, USAGE_STATUS);
            let _ = rt.eprint(usage);
        }
    }
    Some(USAGE_STATUS)
}
