//! Ways whose order doesn't count, of those that are alike only one.

ghost use Rattle.std.specs.Prelude.{◌≡◌, ◌++◌, map, true, slice_index_or, IfOk};
ghost use Rattle.bre_parse.specs.Tree.{tree_of};
ghost use Rattle.bre_match.specs.Spreads.{AreKnown, begun};

use crate::alike::{has_alike, number_of};
use crate::asked::Asked;
use crate::index::Index;
use crate::run::Way;
use bre_parse::tree::Node;
use std::alloc::{AllocError, Global};

/// Puts those of some ways after others that aren't known to be like one of them, and says which these are.
pub(crate) fn push_new(
    all: &mut Vec<Way>,
    index: &mut Index,
    alloc: Global,
    asked: &Asked,
    found: &[Way],
) -> Result<Vec<Way>, AllocError>
    ensures value { IfOk result (λ added. all.new.items ≡ all.old.items ++ added.items) }
    ensures known { IfOk result (λ added. AreKnown asked.now all.new.items found.now) }
{
    let mut added = Vec::new(alloc);
    for way in found {
        if !has_alike(all, index, asked, way) {
            index.add(number_of(asked, way))?;
            all.push(*way)?;
            added.push(*way)?;
        }
    }
    Ok(added)
}

/// The ways with the groups inside a part unset.
pub(crate) fn begun_all(alloc: Global, content: &Node, ways: &[Way]) -> Result<Vec<Way>, AllocError>
    ensures value { IfOk result (λ v. v.items ≡ map (begun (tree_of content.now)) ways.now) }
{
    let mut all = Vec::new(alloc);
    for way in ways {
        let mut groups = way.1;
        content.clear(&mut groups);
        all.push((way.0, groups))?;
    }
    Ok(all)
}

/// Whether a group tells ways apart: it is asked for, or past the ninth.
pub(crate) fn is_told_apart(group: usize, asked: &Asked) -> bool
    ensures value { result ≡ slice_index_or asked.now group true }
{
    if group < 9 { asked[group] } else { true }
}
