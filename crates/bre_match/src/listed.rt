//! Lists of ways, most of them in a few words: a repeat may have a way for each span that its group can have.

ghost use Rattle.std.specs.Prelude.{◌≡◌, ◌⊎◌, ◌++◌, ◌∷◌, [], IsTrue, OnOk, length, get_or, slice_set};
ghost use Rattle.bre_match.specs.Alike.{HasAlike};
ghost use Rattle.bre_match.specs.Listed.{listed, nowhere, short_span, short_way};

use crate::alike::{alike, number_of};
use crate::asked::Asked;
use crate::index::Index;
use crate::run::{Way, group_at};
use bre_parse::tree::{Groups, Node};
use std::alloc::{AllocError, Global};

/// The numbers of up to three groups; 9 stands for none.
#[derive(Clone, Copy)]
pub(crate) struct Three {
    pub one: usize,
    pub two: usize,
    pub three: usize,
}

/// A way by its end and the spans of three groups. Where a span begins at the greatest number, its group isn't set.
#[derive(Clone, Copy)]
pub(crate) struct ShortWay {
    pub end: u32,
    pub one: (u32, u32),
    pub two: (u32, u32),
    pub three: (u32, u32),
}

/// Ways in their order. The first of them are short ones as long as these tell all: their other groups are the same.
#[derive(Drop)]
pub(crate) struct WayList {
    pub same: Groups,
    pub told: Three,
    pub short: Vec<ShortWay>,
    pub long: Vec<Way>,
}

/// The span that a short way tells.
fn span_of(span: (u32, u32)) -> Option<(usize, usize)>
    ensures value { result ≡ short_span span }
{
    if span.0 == u32::MAX {
        None
    } else {
        Some((span.0 as usize, span.1 as usize))
    }
}

fn set_span(groups: &mut Groups, group: usize, span: (u32, u32))
    ensures value { groups.new ≡ slice_set groups.old group (short_span span) }
{
    if group < 9 {
        groups[group] = span_of(span);
    }
}

/// The way that a short one tells.
fn way_of(same: &Groups, told: Three, short: &ShortWay) -> Way
    ensures value { result ≡ short_way same.now told short.now }
{
    let mut groups = *same;
    set_span(&mut groups, told.one, short.one);
    set_span(&mut groups, told.two, short.two);
    set_span(&mut groups, told.three, short.three);
    (short.end as usize, groups)
}

fn short_number(number: usize) -> u32 {
    number.min(u32::MAX as usize) as u32
}

fn shortened_span(span: Option<(usize, usize)>) -> (u32, u32) {
    match span {
        Some(span) => (short_number(span.0), short_number(span.1)),
        None => (u32::MAX, 0),
    }
}

/// A way in short, which may tell another one.
fn shortened(told: Three, way: &Way) -> ShortWay {
    ShortWay {
        end: short_number(way.0),
        one: shortened_span(group_at(&way.1, told.one)),
        two: shortened_span(group_at(&way.1, told.two)),
        three: shortened_span(group_at(&way.1, told.three)),
    }
}

/// Whether two ways are the same, with all their groups.
fn is_same(one: &Way, other: &Way) -> bool
    ensures sound { IsTrue result → one.now ≡ other.now }
{
    alike(&[true; 9], one, other)
}

/// Puts a group among those that are told, if one of the three is left.
fn tell_group(told: &mut Three, group: usize) {
    if told.one == 9 {
        told.one = group;
    } else if told.two == 9 {
        told.two = group;
    } else if told.three == 9 {
        told.three = group;
    }
}

/// Has the groups of a part told, as far as there are not more than three.
#[cycle(tell)]
fn tell_groups(told: &mut Three, part: &Node) {
    match part {
        Node::Sequence(items) => tell_all_groups(told, items),
        Node::Group(group, content) => {
            tell_group(told, *group);
            tell_groups(told, content);
        }
        Node::Repeat(_, _, content) => tell_groups(told, content),
        _ => {}
    }
}

#[cycle(tell)]
fn tell_all_groups(told: &mut Three, items: &[Node]) {
    for item in items {
        tell_groups(told, item);
    }
}

impl WayList {
    /// No way yet, of a part that is begun with these groups.
    pub(crate) fn new(alloc: Global, groups: Groups, part: &Node) -> Self
        ensures value { listed result ≡ [] }
    {
        let mut told = Three {
            one: 9,
            two: 9,
            three: 9,
        };
        tell_groups(&mut told, part);
        WayList {
            same: groups,
            told,
            short: Vec::new(alloc),
            long: Vec::new(alloc),
        }
    }

    /// These ways.
    pub(crate) fn of(alloc: Global, ways: Vec<Way>) -> Self
        ensures value { listed result ≡ ways.items }
    {
        WayList {
            same: [None; 9],
            told: Three {
                one: 9,
                two: 9,
                three: 9,
            },
            short: Vec::new(alloc),
            long: ways,
        }
    }

    /// No way yet, but to be told as those of this list are.
    pub(crate) fn new_like(&self, alloc: Global) -> Self
        ensures value { listed result ≡ [] }
    {
        WayList {
            same: self.same,
            told: self.told,
            short: Vec::new(alloc),
            long: Vec::new(alloc),
        }
    }

    pub(crate) fn len(&self) -> usize
        ensures value { result ≡ length (listed self.now) }
    {
        self.short.len() + self.long.len()
    }

    /// The way at a place of the list, counted from 0; past its end the empty way at 0.
    pub(crate) fn way_at(&self, at: usize) -> Way
        ensures value { result ≡ get_or (listed self.now) at nowhere }
    {
        if at < self.short.len() {
            return way_of(&self.same, self.told, &self.short[at]);
        }
        match self.long.get(at - self.short.len()) {
            Some(way) => *way,
            None => (0, [None; 9]),
        }
    }

    /// Where the way at a place of the list ends; past its end 0.
    pub(crate) fn end_at(&self, at: usize) -> usize
        ensures value { result ≡ (get_or (listed self.now) at nowhere).0 }
    {
        if at < self.short.len() {
            return self.short[at].end as usize;
        }
        match self.long.get(at - self.short.len()) {
            Some(way) => way.0,
            None => 0,
        }
    }

    /// Puts a way after the others.
    pub(crate) fn push(&mut self, way: Way) -> Result<(), AllocError>
        ensures value { OnOk result (listed self.new ≡ listed self.old ++ way ∷ []) }
    {
        if self.long.is_empty() {
            let short = shortened(self.told, &way);
            if is_same(&way_of(&self.same, self.told, &short), &way) {
                self.short.push(short)?;
                return Ok(());
            }
        }
        self.long.push(way)?;
        Ok(())
    }
}

/// Puts the ways of a list after others.
pub(crate) fn push_list(out: &mut Vec<Way>, ways: &WayList) -> Result<(), AllocError>
    ensures value { OnOk result (out.new.items ≡ out.old.items ++ listed ways.now) }
{
    for at in 0..ways.len() {
        out.push(ways.way_at(at))?;
    }
    Ok(())
}

/// Whether one of the ways is like this one, as far as the index has them.
fn has_alike(ways: &WayList, index: &Index, asked: &Asked, way: &Way) -> bool
    ensures sound { IsTrue result → HasAlike asked.now (listed ways.now) way.now }
{
    let mut after = index.last(number_of(asked, way));
    while after > 0 {
        if after <= ways.len() && alike(asked, &ways.way_at(after - 1), way) {
            return true;
        }
        after = index.before(after);
    }
    false
}

/// Puts a way after others, unless it is known to be like one of them. The index, which has all of them, gets it too.
pub(crate) fn push_unlike(
    ways: &mut WayList,
    index: &mut Index,
    asked: &Asked,
    way: Way,
) -> Result<(), AllocError>
    ensures value { OnOk result ((listed ways.new ≡ listed ways.old ++ way ∷ []) ⊎ ((listed ways.new ≡ listed ways.old) × HasAlike asked.now (listed ways.old) way)) }
{
    if !has_alike(ways, index, asked, &way) {
        index.add(number_of(asked, &way))?;
        ways.push(way)?;
    }
    Ok(())
}
