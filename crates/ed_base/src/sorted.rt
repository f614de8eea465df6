//! Sorted sets, of texts or of whatever else has an order.

ghost use Rattle.std.specs.Prelude.{◌≡◌, ◌↔◌, true, false, [], ◌∷◌, IsTrue, IfSome, IfNone, IfOk, OnOk, OnErr};
ghost use Rattle.std.specs.List.{filter};
ghost use Rattle.std.specs.Ordering.{nat_cmp};
ghost use Rattle.std.specs.Cmp.Lexicographic.{slice_cmp};
ghost use Rattle.ed_base.specs.Sorted.{rises, has_member, has_members, with_member, with_members, IsPlace};

use crate::bytes::Bytes;
use crate::member::Member;
use std::alloc::{AllocError, Global};
use std::cmp::Ordering;
use std::marker::Model;

/// A set whose members rise by their order, and none of which stands twice. It keeps the allocator that made it, and takes no memory while
/// it has no member.
#[derive(Debug, Drop)]
pub struct Sorted<T: Member> {
    members: Vec<T>,
}

impl<T: Member> Model for Sorted<T> {
    ghost use Rattle.std.specs.Prelude.{◌≡◌, true, List};
    ghost use Rattle.ed_base.specs.Sorted.{rises};

    ghost Value = { List T };

    ghost view = { λ set. set.members.items };

    ghost invariant = { λ set. rises T.cmp set.members.items ≡ true };
}

/// A set of texts, which rise by their bytes.
pub type Texts = Sorted<Bytes>;

/// Whether each member stands before those after it.
pub fn do_rise<T: Member>(members: &[T]) -> bool
    ensures value { result ≡ rises T.cmp members.now }
{
    for next in 1..members.len() {
        if members[next - 1].cmp(&members[next]) != Ordering::Less {
            return false;
        }
    }
    true
}

/// The place of an item, or where it goes.
fn place_of<T: Member>(members: &[T], item: &T) -> Result<usize, usize>
    requires rising { rises T.cmp members.now ≡ true }
    ensures place { IsPlace T.cmp item.now members.now result }
{
    members.binary_search(item)
}

/// The place of a text, or where it goes.
fn place_of_text(members: &[Bytes], text: &[u8]) -> Result<usize, usize>
    requires rising { rises (slice_cmp nat_cmp) members.now ≡ true }
    ensures place { IsPlace (slice_cmp nat_cmp) text.now members.now result }
{
    members.binary_search_by(|member| member.as_slice().cmp(&text))
}

impl<T: Member> Sorted<T> {
    /// The set without a member.
    pub fn none(alloc: Global) -> Self
        ensures value { result ≡ [] }
    {
        Sorted {
            members: Vec::new(alloc),
        }
    }

    /// The set of one member.
    pub fn only(alloc: Global, member: T) -> Result<Self, AllocError>
        ensures value { IfOk result (λ set. set ≡ member ∷ []) }
    {
        let mut members = Vec::with_capacity(alloc, 1)?;
        members.push(member)?;
        Ok(Sorted { members })
    }

    /// The set of these members; `None` where they don't rise, or one stands twice. It takes no memory.
    pub fn from_rising(members: Vec<T>) -> Option<Self>
        ensures value { IfSome result (λ set. set ≡ members.items) }
        ensures rising { IfSome result (λ set. rises T.cmp set ≡ true) }
        ensures refused { IfNone result (rises T.cmp members.items ≡ false) }
    {
        if do_rise(members.as_slice()) {
            Some(Sorted { members })
        } else {
            None
        }
    }

    /// The set of these members, which are known to rise. It takes no memory.
    pub fn of(members: Vec<T>) -> Self
        requires rising { rises T.cmp members.items ≡ true }
        ensures value { result ≡ members.items }
    {
        Sorted { members }
    }

    /// The members in their order.
    pub fn members(&self) -> &[T]
        ensures value { result.now ≡ self.now }
        ensures rising { rises T.cmp result.now ≡ true }
    {
        self.members.as_slice()
    }

    /// The members in their order, without the set. It takes no memory.
    pub fn into_members(self) -> Vec<T>
        ensures value { result.items ≡ self }
    {
        let Sorted { members } = self;
        members
    }

    /// The allocator that made it.
    pub fn allocator(&self) -> Global {
        *self.members.allocator()
    }

    /// Whether an item is one of the set.
    pub fn includes(&self, item: &T) -> bool
        ensures value { result ≡ has_member T.cmp self.now item.now }
    {
        place_of(self.members(), item).is_ok()
    }

    /// Puts a copy of an item in its place, where it isn't there already. After an `Err` the set is as it was.
    pub fn put(&mut self, item: &T) -> Result<(), AllocError>
        ensures value { OnOk result (self.new ≡ with_member T.cmp item.now self.old) }
        ensures unchanged { OnErr result (self.new ≡ self.old) }
    {
        if let Err(place) = place_of(self.members.as_slice(), item) {
            self.members.insert(place, item.try_copy()?)?;
        }
        Ok(())
    }

    /// Whether each member here is one of the other set.
    pub fn are_among(&self, many: &Self) -> bool
        ensures value { result ≡ has_members T.cmp self.now many.now }
    {
        for member in &self.members {
            if !many.includes(member) {
                return false;
            }
        }
        true
    }

    /// The set with the members of another too.
    pub fn with_all(&self, more: &Self) -> Result<Self, AllocError>
        ensures value { IfOk result (λ all. all ≡ with_members T.cmp more.now self.now) }
    {
        let mut all = self.try_copy()?;
        for member in &more.members {
            all.put(member)?;
        }
        Ok(all)
    }

    /// The members that are in both sets.
    pub fn both(&self, other: &Self) -> Result<Self, AllocError>
        ensures value { IfOk result (λ both. both ≡ filter (has_member T.cmp other.now) self.now) }
    {
        let mut members = Vec::new(self.allocator());
        for member in &self.members {
            if other.includes(member) {
                members.push(member.try_copy()?)?;
            }
        }
        Ok(Sorted { members })
    }

    /// An equal set, made by the same allocator, with no more room than it needs.
    pub fn try_copy(&self) -> Result<Self, AllocError>
        ensures value { IfOk result (λ copy. copy ≡ self.now) }
    {
        let mut members = Vec::with_capacity(self.allocator(), self.members.len())?;
        for member in &self.members {
            members.push(member.try_copy()?)?;
        }
        Ok(Sorted { members })
    }

    /// Whether both are one set.
    fn is(&self, other: &Self) -> bool
        ensures exact { IsTrue result ↔ (self.now ≡ other.now) }
    {
        self.members() == other.members()
    }

    /// Becomes an equal set. Where it is one already, no memory is asked for. After an `Err` it is as it was.
    pub fn try_copy_from(&mut self, other: &Self) -> Result<(), AllocError>
        ensures value { OnOk result (self.new ≡ other.now) }
        ensures unchanged { OnErr result (self.new ≡ self.old) }
    {
        if !self.is(other) {
            *self = other.try_copy()?;
        }
        Ok(())
    }
}

impl Sorted<Bytes> {
    /// Whether a text is one of the set.
    pub fn has(&self, text: &[u8]) -> bool
        ensures value { result ≡ has_member (slice_cmp nat_cmp) self.now text.now }
    {
        place_of_text(self.members(), text).is_ok()
    }

    /// Puts a text in its place, where it isn't there already. After an `Err` the set is as it was.
    pub fn add(&mut self, text: &[u8]) -> Result<(), AllocError>
        ensures value { OnOk result (self.new ≡ with_member (slice_cmp nat_cmp) text.now self.old) }
        ensures unchanged { OnErr result (self.new ≡ self.old) }
    {
        if let Err(place) = place_of_text(self.members.as_slice(), text) {
            let copy = Bytes::from_slice(self.allocator(), text)?;
            self.members.insert(place, copy)?;
        }
        Ok(())
    }
}

impl<T: Member> PartialEq for Sorted<T> {
    ghost use Rattle.std.specs.Cmp.Lexicographic.{pointwise, lists_per};

    ghost eq = { λ a b. pointwise T.eq a b };

    ghost laws = { lists_per T.PartialEq.laws };

    fn eq(&self, other: &Self) -> bool {
        self.members() == other.members()
    }
}

impl<T: Member> Eq for Sorted<T> {
    ghost use Rattle.std.specs.Cmp.Lexicographic.{lists_equiv};

    ghost laws = { lists_equiv T.Eq.laws };
}
