//! Where to look in a list for a thing, by a number that like things have in common. It only says where to look.

ghost use Rattle.std.specs.Prelude.{◌≡◌, ℕ, ◌<◌};

use std::alloc::{AllocError, Global};

/// The things of a list by their numbers. Things in one row are looked at one after the other, from the last to the first.
/// Each is told by the place after its own, and 0 says that there is none.
#[derive(Drop)]
pub(crate) struct Index {
    numbers: Vec<usize>,
    before: Vec<usize>,
    rows: Vec<usize>,
}

/// One number of two.
pub(crate) fn mixed(number: usize, more: usize) -> usize {
    let product = (number ^ more).wrapping_mul(0x9e37_79b9_7f4a_7c15);
    product ^ (product >> 29)
}

impl Index {
    pub(crate) fn new(alloc: Global) -> Self {
        Index {
            numbers: Vec::new(alloc),
            before: Vec::new(alloc),
            rows: Vec::new(alloc),
        }
    }

    /// Takes all out.
    pub(crate) fn clear(&mut self) {
        self.numbers.clear();
        self.before.clear();
        self.rows.clear();
    }

    /// The row of a number.
    fn row(&self, number: usize) -> usize {
        if self.rows.is_empty() {
            return 0;
        }
        mixed(number, 0) % self.rows.len()
    }

    /// The last thing in the row of a number.
    pub(crate) fn last(&self, number: usize) -> usize {
        match self.rows.get(self.row(number)) {
            Some(after) => *after,
            None => 0,
        }
    }

    /// The thing in a row before this one.
    pub(crate) fn before(&self, after: usize) -> usize
        ensures falls { 0 < after → result < after }
    {
        match self.before.get(after.saturating_sub(1)) {
            Some(earlier) => if *earlier < after { *earlier } else { 0 },
            None => 0,
        }
    }

    /// Puts the thing that is told by this place at the end of its row.
    fn link(&mut self, number: usize, after: usize) -> Result<(), AllocError>
        ensures same { self.new.numbers.items ≡ self.old.numbers.items }
    {
        let row = self.row(number);
        let last = self.last(number);
        self.before.push(last)?;
        if row < self.rows.len() {
            self.rows[row] = after;
        }
        Ok(())
    }

    /// Makes more rows, and puts each thing into its own again.
    fn widen(&mut self) -> Result<(), AllocError> {
        let wanted = self.rows.len().saturating_mul(4).max(64);
        self.rows.clear();
        self.rows.resize(wanted, 0)?;
        self.before.clear();
        for at in 0..self.numbers.len() {
            let number = self.numbers[at];
            self.link(number, at + 1)?;
        }
        Ok(())
    }

    /// Takes the next thing of the list up, by its number.
    pub(crate) fn add(&mut self, number: usize) -> Result<(), AllocError> {
        if self.rows.len() <= self.numbers.len() {
            self.widen()?;
        }
        self.numbers.push(number)?;
        let after = self.numbers.len();
        self.link(number, after)
    }
}
