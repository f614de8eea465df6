//! Lists of lines, as the text that a command enters.
ghost use Rattle.std.specs.Prelude.{◌≡◌, ◌≢◌, ◌↔◌, [], length, IsTrue, IfOk, IfSome, MatchOption};
ghost use Rattle.ed_base.specs.Lines.{AreLines, lines_of, bytes_of};

use crate::{Bytes, count_lines};
use std::alloc::{AllocError, Global};
use std::fmt;
use std::fmt::{Debug, Formatter, Write};
use std::marker::Model;
use std::rc::Rc;

/// Lines in order, without their newlines: those of a file, or the text that a command enters. They stand in one block of bytes,
/// each with its newline after it, which others may share and which goes with the last of them.
#[derive(Drop)]
pub struct Text {
    // `None` where there are no lines.
    block: Option<Rc<Bytes>>,
    count: usize,
}

impl Model for Text {
    ghost use Rattle.std.specs.Prelude.{◌≡◌, ◌<◌, ℕ, List, length, option_map, IfSome};
    ghost use Rattle.std.specs.Rc.{rc_value};
    ghost use Rattle.ed_base.specs.Lines.{lines_of, bytes_of};
    ghost use Rattle.ed_base.specs.Pieces.{bytes_or_none};

    ghost Value = { List (List ℕ) };

    ghost view = { λ t. lines_of (bytes_or_none (option_map rc_value t.block)) };

    ghost invariant = { λ t. let bytes = bytes_or_none (option_map rc_value t.block) in
        (bytes_of (lines_of bytes) ≡ bytes) × (t.count ≡ length (lines_of bytes)) × IfSome t.block (λ _. 0 < t.count) };
}

impl Text {
    /// No lines. It takes no memory.
    pub fn new() -> Self
        ensures value { result ≡ [] }
    {
        Text {
            block: None,
            count: 0,
        }
    }

    /// The lines of a file, whose bytes become the block. The last line may lack its newline, and then gets it.
    pub fn of_file(alloc: Global, bytes: Bytes) -> Result<Self, AllocError>
        ensures value { IfOk result (λ text. text ≡ lines_of bytes) }
    {
        let bytes = completed(bytes)?;
        let count = count_lines(bytes.as_slice());
        if count == 0 {
            return Ok(Text::new());
        }
        Ok(Text {
            block: Some(Rc::new(alloc, bytes)?),
            count,
        })
    }

    /// The bytes of the lines, each with its newline after it.
    pub fn as_bytes(&self) -> &[u8]
        ensures value { result.now ≡ bytes_of self.now }
        ensures read_back { lines_of result.now ≡ self.now }
        ensures lines { AreLines self.now }
    {
        match &self.block {
            Some(block) => block.as_slice(),
            None => &[],
        }
    }

    /// The block that the lines stand in; `None` where there are none.
    pub fn block(&self) -> Option<&Rc<Bytes>>
        ensures value { MatchOption result (self.now ≡ []) (λ block. block.now.value ≡ bytes_of self.now) }
        ensures read_back { IfSome result (λ block. lines_of block.now.value ≡ self.now) }
        ensures some { IfSome result (λ block. self.now ≢ []) }
    {
        self.block.as_ref()
    }

    /// How many lines there are.
    pub fn len(&self) -> usize
        ensures value { result ≡ length self.now }
    {
        self.count
    }

    pub fn is_empty(&self) -> bool
        ensures value { IsTrue result ↔ (self.now ≡ []) }
    {
        self.count == 0
    }

    /// The same lines once more, in the block that both share. An `Err` comes only where more share it than can be counted.
    pub fn try_copy(&self) -> Result<Self, AllocError>
        ensures value { IfOk result (λ copy. copy ≡ self.now) }
    {
        let block = match &self.block {
            Some(block) => Some(block.clone()?),
            None => None,
        };
        Ok(Text {
            block,
            count: self.count,
        })
    }
}

/// The bytes, with a newline after a last line that lacks it.
fn completed(mut bytes: Bytes) -> Result<Bytes, AllocError>
    ensures value { IfOk result (λ completed. completed ≡ bytes_of (lines_of bytes)) }
{
    let [.., last] = bytes.as_slice() else {
        return Ok(bytes);
    };
    if *last == b'\n' {
        return Ok(bytes);
    }
    bytes.push(b'\n')?;
    Ok(bytes)
}

/// The block is printed.
impl Debug for Text {
    fn fmt<W: Write>(&self, f: &mut Formatter<W>) -> fmt::Result {
        self.as_bytes().fmt(f)
    }
}

impl PartialEq for Text {
    ghost use Rattle.std.specs.Prelude.{nat_eq};
    ghost use Rattle.std.specs.Cmp.Lexicographic.{pointwise, lists_per, nat_list_eq_equiv};
    ghost use Rattle.std.specs.Cmp.{partial_equiv_from_equiv};

    ghost eq = { λ a b. pointwise (pointwise nat_eq) a b };

    ghost laws = { lists_per (partial_equiv_from_equiv nat_list_eq_equiv) };

    fn eq(&self, other: &Self) -> bool {
        self.as_bytes() == other.as_bytes()
    }
}

impl Eq for Text {
    ghost use Rattle.std.specs.Cmp.Lexicographic.{lists_equiv, nat_list_eq_equiv};

    ghost laws = { lists_equiv nat_list_eq_equiv };
}
