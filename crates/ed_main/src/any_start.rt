//! The start that a script is judged over where no bounds are given.
ghost use Rattle.std.specs.Prelude.{◌≡◌};
ghost use Rattle.ed_main.specs.Starts as meaning;

use ed_base::Bytes;
use ed_calls::Starts;
use ed_rules::Texts;
use hints::Given;

/// Any start with the file at this path that states these patterns, which is found with others that it has to state. Without a file it is
/// the empty buffer, over which a certificate is found in the same way.
pub fn any_start(path: Option<Bytes>, has: Option<Texts>) -> Starts
    ensures value { result ≡ meaning.any_start path has }
{
    let max = match path {
        None => Some(0),
        Some(_) => None,
    };
    Starts::Widest(Given {
        path,
        min: None,
        max,
        has,
        landmarks: None,
    })
}
