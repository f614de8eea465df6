//! The lines and commands of a script that was mended, by their numbers in the script as it was given. No clause speaks of them.

use ed_base::next_line;
use std::alloc::{AllocError, Global};

/// From which line of the script that was given each line of a mended one comes, and how many commands in front of it were passed over.
#[derive(Debug, Drop)]
pub(crate) struct Numbering {
    /// None where they are the same lines.
    lines: Option<Vec<usize>>,
    passed: usize,
}

/// The lines of a script, without their newlines.
fn lines_in(alloc: Global, script: &[u8]) -> Result<Vec<&[u8]>, AllocError> {
    let mut lines = Vec::new(alloc);
    let mut left = script;
    'lines: while let Some((line, rest)) = next_line(left) {
        lines.push(line)?;
        left = rest;
    }
    Ok(lines)
}

/// How many lines in front of two scripts are the same.
fn count_in_front(old: &[&[u8]], new: &[&[u8]]) -> usize {
    let mut count: usize = 0;
    for (one, other) in old.iter().zip(new) {
        if *one != *other {
            return count;
        }
        count = count.saturating_add(1);
    }
    count
}

/// How many lines at the ends of two scripts are the same.
fn count_at_end(old: &[&[u8]], new: &[&[u8]]) -> usize {
    let mut count: usize = 0;
    for (one, other) in old.iter().rev().zip(new.iter().rev()) {
        if *one != *other {
            return count;
        }
        count = count.saturating_add(1);
    }
    count
}

/// The place between two others at which this line stands.
fn place_between(lines: &[&[u8]], low: usize, high: usize, line: &[u8]) -> Option<usize> {
    for (place, other) in lines.iter().enumerate() {
        if low <= place && place < high && *other == line {
            return Some(place);
        }
    }
    None
}

/// Where each line of a new script stood in the old one, counted from 0. A line that was written comes from the one in whose place it stands.
/// The lines before `changed` are those of the old script; of those from there on that are alike it was the first ones that were left out.
fn places_of(
    alloc: Global,
    old: &[&[u8]],
    new: &[&[u8]],
    changed: usize,
) -> Result<Vec<usize>, AllocError> {
    let front = count_in_front(old, new).min(changed);
    let shorter = old.len().min(new.len()).saturating_sub(front);
    let end = count_at_end(old, new).min(shorter);
    let high = old.len().saturating_sub(end);
    let mut low = front;
    let mut places = Vec::new(alloc);
    for (index, line) in new.iter().enumerate() {
        let after = new.len().saturating_sub(index);
        if index < front || old.len() == new.len() {
            places.push(index)?;
        } else if after <= end {
            places.push(old.len().saturating_sub(after))?;
        } else {
            match place_between(old, low, high, line) {
                Some(place) => {
                    places.push(place)?;
                    low = place.saturating_add(1);
                }
                None => places.push(low.min(old.len().saturating_sub(1)))?,
            }
        }
    }
    Ok(places)
}

impl Numbering {
    /// The lines are those of the script that was given.
    pub(crate) fn same() -> Self {
        Numbering {
            lines: None,
            passed: 0,
        }
    }

    /// The number of a line in the script that was given, by its number in this one; both count from 1.
    pub(crate) fn line(&self, number: usize) -> usize {
        let Some(lines) = &self.lines else {
            return number;
        };
        match lines.as_slice().get(number.saturating_sub(1)) {
            Some(line) => *line,
            None => number,
        }
    }

    /// The number of a command with those that were passed over.
    pub(crate) fn command(&self, number: usize) -> usize {
        number.saturating_add(self.passed)
    }

    /// That of a script which comes from this one by a change on a line, which counts from 1, or on later ones. Whether by that a command was
    /// passed over.
    pub(crate) fn changed(
        &self,
        alloc: Global,
        old: &[u8],
        new: &[u8],
        line: usize,
        is_passed: bool,
    ) -> Result<Self, AllocError> {
        let before = lines_in(alloc, old)?;
        let after = lines_in(alloc, new)?;
        let changed = line.saturating_sub(1);
        let mut lines = Vec::new(alloc);
        for place in places_of(alloc, before.as_slice(), after.as_slice(), changed)? {
            lines.push(self.line(place.saturating_add(1)))?;
        }
        Ok(Numbering {
            lines: Some(lines),
            passed: self.passed.saturating_add(usize::from(is_passed)),
        })
    }
}
