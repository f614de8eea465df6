//! The patterns that some line of a start has to match, as `vouch` is given them.
ghost use Rattle.std.specs.Prelude.{◌≡◌, ◌≢◌, true, false, [], map, IfOk, IfErr};
ghost use Rattle.ed_rules.specs.Texts.{with_texts};
ghost use Rattle.ed_main.specs.Words as meaning;

use crate::stderr::pattern::wrong_pattern;
use crate::words::WordsFault;
use bre_parse::Bre;
use ed_rules::Texts;
use std::alloc::Global;

/// The patterns that a start states: the set of these texts, each of which has to be a pattern. There is none where it isn't asked for and no
/// text is given. What is wrong is shown with this usage.
pub(crate) fn stated_of(
    alloc: Global,
    asked: bool,
    texts: &[&str],
    usage: &str,
) -> Result<Option<Texts>, WordsFault>
    ensures patterns { IfOk result (λ _. meaning.are_patterns (map (λ text. text.now) texts.now) ≡ true) }
    ensures value { IfOk result (λ has. has ≡ meaning.stated asked (map (λ text. text.now) texts.now)) }
    ensures only_if_refused { IfErr result (λ fault. fault ≢ WordsFault.Memory →
        meaning.are_patterns (map (λ text. text.now) texts.now) ≡ false) }
    ensures unasked { IfErr result (λ fault. ¬ meaning.IsAsked fault) }
{
    let set = set_of(alloc, texts, usage)?;
    if asked {
        return Ok(Some(set));
    }
    if texts.is_empty() {
        return Ok(None);
    }
    Ok(Some(set))
}

/// The set of these texts.
fn set_of(alloc: Global, texts: &[&str], usage: &str) -> Result<Texts, WordsFault>
    ensures patterns { IfOk result (λ _. meaning.are_patterns (map (λ text. text.now) texts.now) ≡ true) }
    ensures value { IfOk result (λ set. set ≡ with_texts (map (λ text. text.now) texts.now) []) }
    ensures only_if_refused { IfErr result (λ fault. fault ≢ WordsFault.Memory →
        meaning.are_patterns (map (λ text. text.now) texts.now) ≡ false) }
    ensures unasked { IfErr result (λ fault. ¬ meaning.IsAsked fault) }
{
    let mut set = Texts::none(alloc);
    for text in texts {
        let pattern = text.as_bytes();
        if let Err(fault) = Bre::read(alloc, pattern) {
            return Err(wrong_pattern(alloc, pattern, fault, usage));
        }
        set.add(pattern)?;
    }
    Ok(set)
}
