//! How many lines of a list have the flag, told from how many had it before.
ghost use Rattle.std.specs.Prelude.{◌≡◌, ℕ, ◌<◌, ◌-◌, ◌^◌, List, [], length, insert, remove, slice_index_or, slice_set};
ghost use Rattle.ed_base.specs.Buffer.{Line, plain_line};
ghost use Rattle.line_store.specs.Kept.{flag_count};

/// How many lines have the flag, once a line has come in.
pub(crate) fn flags_with(flags: usize, flag: bool) -> usize
    requires room { flags < 2 ^ 64 - 1 }
    ensures { (lines : List Line) (at : ℕ) (new : Line) → new.flag ≡ flag → flags ≡ flag_count lines →
        result ≡ flag_count (insert lines at new) }
{
    if flag { flags + 1 } else { flags }
}

/// The same, once a line has gone out.
pub(crate) fn flags_without(flags: usize, flag: bool) -> usize
    ensures { (lines : List Line) (i : ℕ) → i < length lines → (slice_index_or lines i (plain_line [])).flag ≡ flag →
        flags ≡ flag_count lines → result ≡ flag_count (remove lines i) }
{
    if flag { flags.saturating_sub(1) } else { flags }
}

/// The same, once a line has come in place of another.
pub(crate) fn flags_exchanged(flags: usize, before: bool, flag: bool) -> usize
    ensures { (lines : List Line) (i : ℕ) (new : Line) → i < length lines → length lines < 2 ^ 64 →
        (slice_index_or lines i (plain_line [])).flag ≡ before → new.flag ≡ flag → flags ≡ flag_count lines →
        result ≡ flag_count (slice_set lines i new) }
{
    if before == flag {
        return flags;
    }
    if flag {
        flags.saturating_add(1)
    } else {
        flags.saturating_sub(1)
    }
}
