//! What is wrong with a pattern, as a person reads it.

use bre_parse::fault::BreFault;

/// What is wrong with a text that isn't a pattern for this reason, after its name.
pub fn wrong_in_pattern(fault: BreFault) -> &'static str {
    match fault {
        BreFault::Bracket => "has no ]",
        BreFault::Class => "has a class of characters that is none",
        BreFault::Range => "has a range that is none",
        BreFault::Group => "has `\\(` and `\\)` that don't pair",
        BreFault::Interval => {
            "has an interval that is none, is too large, or has nothing before it"
        }
        BreFault::Escape => "has a backslash that means nothing where it stands",
        BreFault::BackRef => "has a back-reference to no group that ends before it",
        BreFault::Depth => "has groups and repeats more than 64 deep",
        BreFault::Memory => "takes more memory than there is",
    }
}
