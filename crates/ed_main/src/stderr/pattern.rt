//! A pattern of the command line that is none, as a person reads it.
ghost use Rattle.std.specs.Prelude.{◌≡◌};
ghost use Rattle.ed_main.specs.Words.{IsAsked};

use crate::words::WordsFault;
use bre_parse::fault::BreFault;
use ed_calls::{quoted, wrong_in_pattern};
use std::alloc::{AllocError, Global};

/// What is shown of a text that isn't a pattern for this reason.
pub fn wrong_pattern(alloc: Global, text: &[u8], fault: BreFault, usage: &str) -> WordsFault
    ensures memory { fault ≡ BreFault.Memory → result ≡ WordsFault.Memory }
    ensures unasked { ¬ IsAsked result }
{
    if fault == BreFault::Memory {
        return WordsFault::Memory;
    }
    match pattern_text(alloc, text, fault) {
        Ok(wrong) => WordsFault::of(alloc, wrong.as_str(), usage),
        Err(AllocError) => WordsFault::Memory,
    }
}

fn pattern_text(alloc: Global, text: &[u8], fault: BreFault) -> Result<String, AllocError> {
    let text = quoted(alloc, text)?;
    let text = text.as_str();
    let why = wrong_in_pattern(fault);
    Ok(format!(in alloc; "error: --has {text} isn't a pattern: it {why}")?)
}
