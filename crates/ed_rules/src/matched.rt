//! Whether some line of a file matches the pattern of a text.

ghost use Rattle.std.specs.Prelude.{◌≡◌, IfOk};
ghost use Rattle.std.specs.List.{list_any};
ghost use Rattle.std.specs.Option.{is_some};
ghost use Rattle.bre_parse.specs.Bre.{bre_tree};
ghost use Rattle.bre_parse.specs.Match.{match_from};
ghost use Rattle.ed_base.specs.Lines.{lines_of};
ghost use Rattle.ed_syntax.specs.meaning.Values.{matches};

use bre_match::Searcher;
use bre_parse::Bre;
use bre_parse::fault::BreFault;
use ed_base::next_line;
use std::alloc::{AllocError, Global};

/// Whether some line of these bytes matches the pattern of this text; a text that is no pattern matches none.
pub fn some_line_matches(alloc: Global, pattern: &[u8], file: &[u8]) -> Result<bool, AllocError>
    ensures value { IfOk result (λ some. some ≡ list_any (matches pattern.now) (lines_of file.now)) }
{
    match Bre::read(alloc, pattern) {
        Ok(bre) => any_matches(alloc, &bre, file),
        Err(fault) => match fault {
            BreFault::Memory => Err(AllocError),
            _ => Ok(false),
        },
    }
}

/// The same of a pattern that was read. One searcher looks through all lines.
fn any_matches(alloc: Global, pattern: &Bre, file: &[u8]) -> Result<bool, AllocError>
    ensures value { IfOk result (λ some. some ≡
        list_any (λ line. is_some (match_from (bre_tree pattern.now) line 0)) (lines_of file.now)) }
{
    let mut searcher = Searcher::new(alloc, pattern);
    let mut left = file;
    while let Some((line, rest)) = next_line(left) {
        if searcher.matches(line)? {
            return Ok(true);
        }
        left = rest;
    }
    Ok(false)
}
