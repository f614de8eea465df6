//! The groups to which parts of a pattern refer.

ghost use Rattle.std.specs.Prelude.{◌≡◌, replicate, false};
ghost use Rattle.bre_parse.specs.Tree.{tree_of, sequence_of};
ghost use Rattle.bre_match.specs.Alike.{RefersWithin};
ghost use Rattle.bre_match.specs.Keeping.{asked_by};

use bre_parse::tree::Node;

/// For each of the first nine groups, whether some part refers to it.
pub(crate) type Asked = [bool; 9];

/// Asks for the groups to which a part refers, too.
#[tactic(auto, using(crate::proofs::Asking::asking_laws))]
#[cycle(ask)]
fn ask(part: &Node, asked: &mut Asked)
    ensures value { asked.new ≡ asked_by (tree_of part.now) asked.old }
{
    match part {
        Node::Sequence(items) => ask_all(items, asked),
        Node::BackReference(group) => {
            if *group < 9 {
                asked[*group] = true;
            }
        }
        Node::Group(_, content) => ask(content, asked),
        Node::Repeat(_, _, content) => ask(content, asked),
        _ => {}
    }
}

#[tactic(auto, using(crate::proofs::Asking::asking_laws))]
#[cycle(ask)]
fn ask_all(items: &[Node], asked: &mut Asked)
    ensures value { asked.new ≡ asked_by (sequence_of items.now) asked.old }
{
    for item in items {
        ask(item, asked);
    }
}

/// The groups to which some of the parts refer.
#[tactic(auto, using(crate::proofs::Asking::asked_within))]
pub(crate) fn asked_groups(items: &[Node]) -> Asked
    ensures value { result ≡ asked_by (sequence_of items.now) (replicate 9 false) }
    ensures sound { RefersWithin result (sequence_of items.now) }
{
    let mut asked = [false; 9];
    ask_all(items, &mut asked);
    asked
}

/// A law: what refers to no other groups, as a whole, doesn't as its items.
pub(crate) fn items_refer_as_whole(part: &Node, items: &[Node], asked: &Asked)
    requires same { tree_of part.now ≡ sequence_of items.now }
    requires asked { RefersWithin asked.now (tree_of part.now) }
    ensures asked { RefersWithin asked.now (sequence_of items.now) }
{}
