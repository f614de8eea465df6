//! Basic regular expressions: what a pattern means, and its tree.
#![tactic(auto)]

ghost use Rattle.std.specs.Prelude.{◌≡◌, option_map};
ghost use Rattle.bre_parse.specs.Tree.{sequence_of};
ghost use Rattle.bre_parse.specs.Groups.{number_of_groups, refers as has_reference};
ghost use Rattle.bre_parse.specs.Literal.{literal as word_of};
ghost use Rattle.bre_parse.specs.WellFormed.{IsRead};

mod always;
mod bracket;
pub mod fault;
mod head;
mod interval;
mod item;
mod laws;
mod literal;
mod refusal;
mod repeat;
mod spelling;
mod text_heads;
pub mod tree;
mod words;

pub use always::always_matches;
pub use bracket::after_bracket;
use fault::BreFault;
use item::whole;
pub use laws::{
    ends_ignore_groups, heads_tell, literals_match_themselves, matches_lie_within,
    order_keeps_first, readings_ignore_counts, ways_end_within, ways_ignore_count,
    words_match_themselves,
};
use literal::copied;
use refusal::Refusal;
pub use spelling::{
    brackets_are_read_as_spelled, intervals_are_read_as_spelled, patterns_are_read_as_spelled,
};
use std::alloc::{AllocError, Global};
use tree::{Node, any_refers, copies_of};

/// A basic regular expression (XBD 9.3).
#[derive(Drop)]
pub struct Bre {
    items: Vec<Node>,
    groups: usize,
    refers: bool,
    literal: Option<Vec<u8>>,
    ghost read: { IsRead (sequence_of items.items) },
    ghost counted: { groups ≡ number_of_groups (sequence_of items.items) },
    ghost referring: { refers ≡ has_reference (sequence_of items.items) },
    ghost word: { option_map (λ word. word.items) literal ≡ word_of (sequence_of items.items) },
}

impl Bre {
    ghost use Rattle.std.specs.Prelude.{◌≢◌, ◌≤◌, ℕ, List, true, IfOk, IfErr, IsTrue, IsSome};
    ghost use Rattle.bre_parse.specs.declared.fault.BreFault.TheVariants.{Memory};
    ghost use Rattle.bre_parse.specs.Grammar.{pattern, nesting, deepest};
    ghost use Rattle.bre_parse.specs.WellFormed.{repeats_in_order};
    ghost use Rattle.bre_parse.specs.Always.{always};
    ghost use Rattle.bre_parse.specs.TextHeads.{untouched, head_asked, head_matches, head_clashes};
    ghost use Rattle.bre_parse.specs.Words.{keeps_word};
    ghost use Rattle.bre_parse.specs.Match.{match_from};
    ghost use Rattle.bre_parse.specs.Bre.{bre_tree};

    /// Reads a pattern: all of the text.
    pub fn read(alloc: Global, text: &[u8]) -> Result<Bre, BreFault>
        ensures value { IfOk result (λ bre. pattern text.now ≡ Ok (bre_tree bre)) }
        ensures first_fault { IfErr result (λ fault. fault ≢ Memory → pattern text.now ≡ Err fault) }
    {
        match whole(alloc, text) {
            Ok((items, groups)) => {
                let refers = any_refers(&items);
                let Ok(literal) = literal::literal(alloc, &items) else {
                    return Err(BreFault::Memory);
                };
                Ok(Bre {
                    items,
                    groups,
                    refers,
                    literal,
                })
            }
            Err(Refusal::Memory) => Err(BreFault::Memory),
            Err(Refusal::Fault(fault)) => Err(fault),
        }
    }

    /// The items of the pattern, one after another.
    pub fn items(&self) -> &[Node]
        ensures value { sequence_of result.now ≡ bre_tree self.now }
        ensures in_order { repeats_in_order (sequence_of result.now) ≡ true }
        ensures read { IsRead (bre_tree self.now) }
        ensures depth { nesting (bre_tree self.now) ≤ deepest }
    {
        self.items.as_slice()
    }

    /// How many groups the pattern has.
    pub fn groups(&self) -> usize
        ensures value { result ≡ number_of_groups (bre_tree self.now) }
    {
        self.groups
    }

    /// The one word that the pattern matches, where it is a sequence of sets of one byte each.
    pub fn literal(&self) -> Option<&[u8]>
        ensures value { option_map (λ word. word.now) result ≡ word_of (bre_tree self.now) }
    {
        match &self.literal {
            Some(word) => Some(word.as_slice()),
            None => None,
        }
    }

    /// Whether a back-reference stands in the pattern.
    pub fn refers(&self) -> bool
        ensures value { result ≡ has_reference (bre_tree self.now) }
    {
        self.refers
    }

    /// Whether the pattern has a match in every text.
    pub fn always(&self) -> bool
        ensures value { result ≡ always (bre_tree self.now) }
        ensures matched { IsTrue result → (text : List ℕ) → IsSome (match_from (bre_tree self.now) text 0) }
    {
        always::always(&self.items)
    }

    /// The head up to the first place where a match of the pattern may start.
    pub fn untouched<'a>(&self, head: &'a [u8]) -> &'a [u8]
        ensures value { result.now ≡ untouched (bre_tree self.now) head.now }
    {
        text_heads::untouched(&self.items, head)
    }

    /// The bytes with which each text begins that the pattern matches, as far as they are known.
    pub fn head_asked(&self) -> Result<Vec<u8>, AllocError>
        ensures value { IfOk result (λ head. head.items ≡ head_asked (bre_tree self.now)) }
    {
        text_heads::head_asked(*self.items.allocator(), &self.items)
    }

    /// Whether the pattern is `^` and then bytes with which the head begins, so that it matches each text with this head.
    pub fn matches_head(&self, head: &[u8]) -> bool
        ensures value { result ≡ head_matches head.now (bre_tree self.now) }
    {
        text_heads::head_matches(head, &self.items)
    }

    /// Whether the pattern begins with `^` and can't start at the head, so that it matches no text with it.
    pub fn clashes_with_head(&self, head: &[u8]) -> bool
        ensures value { result ≡ head_clashes head.now (bre_tree self.now) }
    {
        text_heads::head_clashes(head, &self.items)
    }

    /// Whether the pattern is a word, or a word and `$`, and matches each text that it matched where matches of the other are replaced.
    pub fn keeps_word(&self, replaced: &Bre) -> Result<bool, AllocError>
        ensures value { IfOk result (λ keeps. keeps ≡ keeps_word (bre_tree replaced.now) (bre_tree self.now)) }
    {
        words::keeps_word(*self.items.allocator(), &replaced.items, &self.items)
    }

    /// An equal pattern, made by the same allocator.
    pub fn try_copy(&self) -> Result<Bre, AllocError>
        ensures value { IfOk result (λ copy. bre_tree copy ≡ bre_tree self.now) }
    {
        let alloc = *self.items.allocator();
        let items = copies_of(alloc, &self.items)?;
        let literal = copied(alloc, &self.literal)?;
        Ok(Bre {
            items,
            groups: self.groups,
            refers: self.refers,
            literal,
        })
    }
}
