//! Landmarks as rows write them.

use ed_base::{Bytes, Texts};
use landmarks::{Landmark, Which};
use std::alloc::{AllocError, Global};

/// Which line is looked for.
#[derive(Clone, Copy, Drop)]
pub enum Named {
    First(&'static [u8]),
    Only(&'static [u8]),
    Numbered(u32),
}

/// A landmark.
#[derive(Clone, Copy, Drop)]
pub struct Mark {
    pub which: Named,
    pub none: &'static [&'static [u8]],
    pub gap: u32,
    pub tail: u32,
    pub also: &'static [&'static [u8]],
    pub lacks: &'static [&'static [u8]],
}

/// A landmark of which nothing more is said than this.
macro_rules! mark {
    ($which:expr) => {
        mark!($which, gap 1, tail 0)
    };
    ($which:expr, gap $gap:expr, tail $tail:expr) => {
        Mark {
            which: $which,
            none: &[],
            gap: $gap,
            tail: $tail,
            also: &[],
            lacks: &[],
        }
    };
    ($which:expr, also $also:expr, lacks $lacks:expr) => {
        Mark {
            which: $which,
            none: &[],
            gap: 1,
            tail: 0,
            also: $also,
            lacks: $lacks,
        }
    };
    ($which:expr, none $none:expr) => {
        mark!($which, none $none, gap 1, tail 0, also &[], lacks &[])
    };
    ($which:expr, none $none:expr, gap $gap:expr, tail $tail:expr, also $also:expr, lacks $lacks:expr) => {
        Mark {
            which: $which,
            none: $none,
            gap: $gap,
            tail: $tail,
            also: $also,
            lacks: $lacks,
        }
    };
}

pub(crate) use mark;

fn which_of(alloc: Global, named: Named) -> Result<Which, AllocError> {
    match named {
        Named::First(pattern) => Ok(Which::First(Bytes::from_slice(alloc, pattern)?)),
        Named::Only(pattern) => Ok(Which::Only(Bytes::from_slice(alloc, pattern)?)),
        Named::Numbered(number) => Ok(Which::Numbered(number)),
    }
}

/// The set of these texts, which are put in one after another.
pub(crate) fn set_of(alloc: Global, texts: &[&[u8]]) -> Result<Texts, AllocError> {
    let mut set = Texts::none(alloc);
    for text in texts {
        set.add(text)?;
    }
    Ok(set)
}

fn landmark_of(alloc: Global, mark: &Mark) -> Result<Landmark, AllocError> {
    Ok(Landmark {
        none: set_of(alloc, mark.none)?,
        which: which_of(alloc, mark.which)?,
        gap: mark.gap,
        tail: mark.tail,
        also: set_of(alloc, mark.also)?,
        lacks: set_of(alloc, mark.lacks)?,
    })
}

/// The landmarks of a row.
pub(crate) fn chain_of(alloc: Global, marks: &[Mark]) -> Result<Vec<Landmark>, AllocError> {
    let mut chain = Vec::new(alloc);
    for mark in marks {
        chain.push(landmark_of(alloc, mark)?)?;
    }
    Ok(chain)
}
