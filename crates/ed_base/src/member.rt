//! What sorted sets are made of.

ghost use Rattle.std.specs.Prelude.{◌≡◌, IfOk};
ghost use Rattle.std.specs.declared.cmp.Ordering.TheVariants.{Equal};

use crate::bytes::Bytes;
use std::alloc::AllocError;
use std::cmp::Ordering;

/// A member of a sorted set. Members that compare as equal are the same.
pub trait Member: Ord + Drop {
    /// An equal member, made by the same allocator.
    fn try_copy(&self) -> Result<Self, AllocError>
        ensures value { IfOk result (λ copy. copy ≡ self.now) };

    ghost exact: { (one other : Self) → Self.cmp one other ≡ Equal → one ≡ other };
}

/// Bytes as in a dictionary.
impl Ord for Bytes {
    ghost use Rattle.std.specs.Ordering.{nat_cmp};
    ghost use Rattle.std.specs.Cmp.Lexicographic.{slice_cmp, nat_list_cmp_total, texts_ties};
    ghost use Rattle.std.proofs.Common.{rules};

    ghost cmp = { slice_cmp nat_cmp };

    ghost total = { nat_list_cmp_total };

    ghost matches_partial_cmp = { Prim.search rules };

    ghost matches_eq = { texts_ties };

    fn cmp(&self, other: &Bytes) -> Ordering {
        self.as_slice().cmp(&other.as_slice())
    }
}

impl PartialOrd for Bytes {
    ghost use Rattle.std.specs.Prelude.{Some};
    ghost use Rattle.std.specs.Ordering.{nat_cmp};
    ghost use Rattle.std.specs.Cmp.Lexicographic.{slice_cmp, texts_po};

    ghost partial_cmp = { λ one other. Some (slice_cmp nat_cmp one other) };

    ghost laws = { texts_po };

    fn partial_cmp(&self, other: &Bytes) -> Option<Ordering> {
        Some(self.cmp(other))
    }
}

impl Member for Bytes {
    ghost use Rattle.std.proofs.lemmas.Map.Lookups.{exact_bytes};

    fn try_copy(&self) -> Result<Self, AllocError> {
        Bytes::try_copy(self)
    }

    ghost exact = { exact_bytes };
}

impl<T: Member> Member for Option<T> {
    ghost use Rattle.ed_base.specs.OptionLaws.{exact-options};

    fn try_copy(&self) -> Result<Self, AllocError> {
        match self {
            Some(member) => Ok(Some(member.try_copy()?)),
            None => Ok(None),
        }
    }

    ghost exact = { exact-options T.exact };
}
