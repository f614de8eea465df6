//! Whether anything comes of a start, asked before the ways from it are put in order: what led nowhere from one start, a turn of a repeat
//! among it, isn't taken up from a later one.

ghost use Rattle.std.specs.Prelude.{◌≡◌, ℕ, ◌<◌, ◌≤◌, ◌++◌, ◌∷◌, [], List, None, IfOk, map, reverse, length, true};
ghost use Rattle.bre_parse.specs.Tree.{sequence_of};
ghost use Rattle.bre_parse.specs.Match.{longest_from};
ghost use Rattle.bre_match.specs.Alike.{RefersWithin};
ghost use Rattle.bre_match.specs.Meeting.{LeadNowhere};
ghost use Rattle.bre_match.specs.Outlooks.{NothingComes, LeftTells};
ghost use Rattle.bre_match.specs.Runs.{at_item, tasks, ways_of};

use crate::ahead::push_others;
use crate::asked::Asked;
use crate::join::{any_sets_asked, may_meet};
use crate::left::{Left, next_ahead};
use crate::run::{Ahead, Run, Way, groups_at};
use crate::search::{follow, push_turns};
use crate::seen::Seen;
use crate::start::longest_from;
use crate::turn::{Bounds, Turn};
use bre_parse::tree::Node;
use std::alloc::{AllocError, Global};

// Whether something comes of so many ways and turns nobody waits to see.
const MOST_STEPS: usize = 1_000_000_000;

// No more ways that met an item, and turns, than these are kept in mind, which costs memory.
const MOST_SEEN: usize = 100_000;

/// The ways and turns that are left to take up, and those that were taken up from starts of which nothing came.
#[derive(Drop)]
pub(crate) struct Outlook {
    /// The place among the items of the repeat whose turns are taken up one by one.
    at: usize,
    left: Vec<Left>,
    turns: Vec<Turn>,
    met: Seen,
    begun: Seen,
}

/// Whether a part is a repeat of more than a byte set.
pub(crate) fn is_turned(part: &Node) -> bool {
    match part {
        Node::Repeat(_, _, content) => match &**content {
            Node::Set(_) => false,
            Node::Sequence(_) => true,
            _ => true,
        },
        Node::Sequence(_) => false,
        _ => false,
    }
}

/// The place of the first item that is such a repeat, or their number where there is none, or where a group that is asked for stands before
/// it, whose span tells the turns of each start from those of any other.
pub(crate) fn first_turned(items: &[Node], asked: &Asked) -> usize {
    for at in 0..items.len() {
        if is_turned(&items[at]) {
            if any_sets_asked(&items[..at], asked) {
                return items.len();
            }
            return at;
        }
    }
    items.len()
}

/// The numbers of a repeat that may begin anywhere.
fn uncounted(least: u8, most: Option<u8>) -> Bounds
    ensures least { result.least ≡ least }
    ensures most { result.most ≡ most }
    ensures unbounded { result.unbounded ≡ true → most ≡ None }
{
    Bounds {
        least,
        most,
        enough: usize::MAX,
        unbounded: most.is_none(),
    }
}

impl Outlook {
    pub(crate) fn new(alloc: Global, items: &[Node], asked: &Asked) -> Self
        ensures seen { (text : List ℕ) → NothingComes items.now text result }
    {
        Outlook {
            at: first_turned(items, asked),
            left: Vec::new(alloc),
            turns: Vec::new(alloc),
            met: Seen::new(alloc),
            begun: Seen::new(alloc),
        }
    }

    /// As `longest_from` of one start alone answers: but where nothing comes of the start, its ways aren't put in order.
    pub(crate) fn longest_from(
        &mut self,
        left: &mut Vec<Left>,
        seen: &mut Seen,
        alloc: Global,
        items: &[Node],
        asked: &Asked,
        met: usize,
        text: &[u8],
        start: usize,
    ) -> Result<Option<Way>, AllocError>
        requires place { start ≤ length text.now }
        requires asked { RefersWithin asked.now (sequence_of items.now) }
        requires seen { LeadNowhere items.now text.now seen.old.marks.items }
        requires nothing { NothingComes items.now text.now self.old }
        ensures value { IfOk result (λ way. way ≡ longest_from (sequence_of items.now) text.now start) }
        ensures seen { IfOk result (λ way. way ≡ None → LeadNowhere items.now text.now seen.new.marks.items) }
        ensures nothing { IfOk result (λ way. NothingComes items.now text.now self.new) }
    {
        if self.is_hopeless(alloc, items, asked, met, text, start)? {
            return Ok(None);
        }
        let way = longest_from(left, seen, alloc, items, asked, met, text, start)?;
        Ok(way)
    }

    /// Whether nothing comes of a start, where an item is a repeat of more than a byte set; of others it isn't told. Ways may meet after
    /// `met` items.
    fn is_hopeless(
        &mut self,
        alloc: Global,
        items: &[Node],
        asked: &Asked,
        met: usize,
        text: &[u8],
        start: usize,
    ) -> Result<bool, AllocError>
        requires asked { RefersWithin asked.now (sequence_of items.now) }
        requires seen { NothingComes items.now text.now self.old }
        ensures sound { IfOk result (λ is_hopeless. is_hopeless ≡ true → longest_from (sequence_of items.now) text.now start ≡ None) }
        ensures seen { IfOk result (λ is_hopeless. NothingComes items.now text.now self.new) }
    {
        if self.at >= items.len() {
            return Ok(false);
        }
        self.met.keep_at_most(MOST_SEEN);
        self.begun.keep_at_most(MOST_SEEN);
        let is_hopeless = self.nothing_comes(alloc, items, asked, met, text, start)?;
        if !is_hopeless {
            self.met.clear();
            self.begun.clear();
        }
        Ok(is_hopeless)
    }

    /// Takes up the ways from a start, one after another, until one has met all items.
    fn nothing_comes(
        &mut self,
        alloc: Global,
        items: &[Node],
        asked: &Asked,
        met: usize,
        text: &[u8],
        start: usize,
    ) -> Result<bool, AllocError>
        requires place { self.old.at < length items.now }
        requires asked { RefersWithin asked.now (sequence_of items.now) }
        requires seen { NothingComes items.now text.now self.old }
        ensures sound { IfOk result (λ is_hopeless. is_hopeless ≡ true → longest_from (sequence_of items.now) text.now start ≡ None) }
        ensures seen { IfOk result (λ is_hopeless. is_hopeless ≡ true → NothingComes items.now text.now self.new) }
    {
        self.left.clear();
        self.turns.clear();
        let run = Run::of(start, [None; 9]);
        self.left.push(Left::Run(Ahead { item: 0, run }))?;
        for passed in 0..MOST_STEPS {
            if let Some(next) = next_ahead(&mut self.left)? {
                if next.item >= items.len() {
                    return Ok(false);
                }
                self.take_way(alloc, items, asked, met, text, &next)?;
            } else if let Some(turn) = self.turns.pop() {
                if !self.take_turn(alloc, items, asked, text, turn)? {
                    return Ok(false);
                }
            } else {
                return Ok(true);
            }
        }
        Ok(false)
    }

    /// Takes up the first of some ways: its next item, or the first turn of it, and the other ways are left.
    fn take_way(
        &mut self,
        alloc: Global,
        items: &[Node],
        asked: &Asked,
        met: usize,
        text: &[u8],
        next: &Ahead,
    ) -> Result<(), AllocError>
        requires item { next.now.item < length items.now }
        requires asked { RefersWithin asked.now (sequence_of items.now) }
        ensures same { self.new.at ≡ self.old.at }
        ensures left { IfOk result (λ unit. (start : ℕ) → LeftTells items.now text.now start self.old (map (at_item next.now.item) (ways_of next.now.run) ++ tasks self.old.left.items) (reverse self.old.turns.items) → LeftTells items.now text.now start self.new (tasks self.new.left.items) (reverse self.new.turns.items)) }
    {
        if next.item == self.at {
            push_others(&mut self.left, next)?;
            let way = (next.run.end, groups_at(&next.run, next.run.end));
            self.turns.push(Turn::Next(0, way))?;
            return Ok(());
        }
        // Right after the repeat its turns tell ways apart already.
        let is_told_apart = next.item.saturating_sub(1) == self.at;
        let may_mark = !is_told_apart && self.met.marks.len() < MOST_SEEN;
        let meets = may_mark && may_meet(items, met, next.item, &next.run, asked);
        follow(
            &mut self.left,
            &mut self.met,
            alloc,
            &items[next.item],
            text,
            next,
            asked,
            meets,
        )?;
        Ok(())
    }

    /// Takes up a turn, unless more were done than can be counted, or hands a way on to the item after the repeat.
    fn take_turn(
        &mut self,
        alloc: Global,
        items: &[Node],
        asked: &Asked,
        text: &[u8],
        turn: Turn,
    ) -> Result<bool, AllocError>
        requires place { self.old.at < length items.now }
        requires asked { RefersWithin asked.now (sequence_of items.now) }
        ensures same { self.new.at ≡ self.old.at }
        ensures left { IfOk result (λ is_taken. is_taken ≡ true → (start : ℕ) → LeftTells items.now text.now start self.old (tasks self.old.left.items) (turn ∷ reverse self.old.turns.items) → LeftTells items.now text.now start self.new (tasks self.new.left.items) (reverse self.new.turns.items)) }
    {
        let Node::Repeat(least, most, content) = &items[self.at] else {
            return Ok(false);
        };
        match turn {
            Turn::Ended(way) => {
                let run = Run::of(way.0, way.1);
                let item = self.at + 1;
                self.left.push(Left::Run(Ahead { item, run }))?;
            }
            Turn::Next(done, way) => {
                let bounds = uncounted(*least, *most);
                if done >= bounds.enough {
                    return Ok(false);
                }
                push_turns(
                    &mut self.turns,
                    &mut self.begun,
                    alloc,
                    content,
                    text,
                    bounds,
                    asked,
                    done,
                    way,
                )?;
            }
        }
        Ok(true)
    }
}
