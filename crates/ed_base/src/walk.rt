//! A way through bytes in pieces.
ghost use Rattle.std.specs.Prelude.{◌≡◌, ◌<◌, ◌++◌, [], ◌∷◌, length, IfNone, IfSome};
ghost use Rattle.std.specs.List.{concat};

use crate::part::Part;
use std::marker::Model;
use std::mem::replace;

/// What is left of bytes in pieces when some were gone through. A contract sees the bytes that are left.
#[derive(Drop)]
pub struct Walk<'a> {
    closed: &'a [Part],
    own: &'a [u8],
    last: &'a [u8],
}

impl<'a> Model for Walk<'a> {
    ghost use Rattle.std.specs.Prelude.{◌++◌, ℕ, List};
    ghost use Rattle.std.specs.List.{concat};

    ghost Value = { List ℕ };

    ghost view = { λ w. concat w.closed.now ++ (w.own.now ++ w.last.now) };
}

impl<'a> Walk<'a> {
    /// All of these bytes are left.
    pub(crate) fn new(closed: &'a [Part], own: &'a [u8], last: &'a [u8]) -> Self
        ensures value { result ≡ concat closed.now ++ (own.now ++ last.now) }
    {
        Walk { closed, own, last }
    }

    /// The next piece, which isn't empty; none after the last one.
    pub fn next_piece(&mut self) -> Option<&'a [u8]>
        ensures ended { IfNone result (self.old ≡ []) }
        ensures some { IfSome result (λ piece. 0 < length piece.now) }
        ensures first { IfSome result (λ piece. self.old ≡ piece.now ++ self.new) }
    {
        if let [first, rest @ ..] = self.closed {
            self.closed = rest;
            return Some(first.as_slice());
        }
        if !self.own.is_empty() {
            return Some(replace(&mut self.own, &[]));
        }
        if !self.last.is_empty() {
            return Some(replace(&mut self.last, &[]));
        }
        None
    }
}

/// The same, byte by byte.
#[derive(Drop)]
pub(crate) struct ByteWalk<'a> {
    // What is left of the piece that was begun,
    piece: &'a [u8],
    // and the pieces after it.
    walk: Walk<'a>,
}

impl<'a> Model for ByteWalk<'a> {
    ghost use Rattle.std.specs.Prelude.{◌++◌, ℕ, List};

    ghost Value = { List ℕ };

    ghost view = { λ w. w.piece.now ++ w.walk };
}

impl<'a> ByteWalk<'a> {
    /// All bytes of this way are left.
    pub(crate) fn new(walk: Walk<'a>) -> Self
        ensures value { result ≡ walk.entry }
    {
        ByteWalk { piece: &[], walk }
    }

    /// The next byte; none after the last one.
    pub(crate) fn next_byte(&mut self) -> Option<u8>
        ensures ended { IfNone result (self.old ≡ []) }
        ensures first { IfSome result (λ byte. self.old ≡ byte ∷ self.new) }
    {
        if self.piece.is_empty() {
            self.piece = self.walk.next_piece()?;
        }
        match self.piece {
            [first, rest @ ..] => {
                self.piece = rest;
                Some(*first)
            }
            [] => None,
        }
    }
}
