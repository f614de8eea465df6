//! The calls that end a run: its drafts are put, or discarded.
ghost use Rattle.std.specs.Prelude.{◌≡◌, ◌<◌, ◌≤◌, ◌+◌, ◌*◌, [], ◌∷◌, ◌++◌, true, false, not, ◌&&◌, length, map, take, slice_index_or};
ghost use Rattle.whole.specs.Deeds.{Deed};
ghost use Rattle.whole.specs.Endings.{IsPlace};
ghost use Rattle.whole.specs.Insides.{last_deeds};

use crate::{Drafting, Outcome};
use ed_base::Bytes;

/// Discards the drafts of these paths.
fn discard_all<D: Drafting>(drafts: &mut D, paths: &[Bytes])
    requires room { length paths.now ≤ D.room drafts.old }
    ensures log { D.log drafts.new ≡ D.log drafts.old ++ map (λ path. Deed.Discard path) paths.now }
{
    'paths: for path in paths {
        drafts.discard(path);
    }
}

/// Settles what was put at these paths.
fn settle_all<D: Drafting>(drafts: &mut D, paths: &[Bytes])
    requires room { length paths.now ≤ D.room drafts.old }
    ensures log { D.log drafts.new ≡ D.log drafts.old ++ map (λ path. Deed.Settle path) paths.now }
    ensures room { D.room drafts.old ≤ D.room drafts.new + length paths.now }
{
    'paths: for path in paths {
        drafts.settle(path);
    }
}

/// Makes the drafts of these paths ready up to the first that can't be, and says how many are.
fn make_ready<D: Drafting>(drafts: &mut D, paths: &[Bytes]) -> usize
    requires room { length paths.now ≤ D.room drafts.old }
    ensures within { result ≤ length paths.now }
    ensures all { result ≡ length paths.now →
        D.log drafts.new ≡ D.log drafts.old ++ map (λ path. Deed.Ready path true) paths.now }
    ensures part { result < length paths.now → D.log drafts.new ≡ D.log drafts.old
        ++ (map (λ path. Deed.Ready path true) (take result paths.now) ++ Deed.Ready (slice_index_or paths.now result []) false ∷ []) }
    ensures room { D.room drafts.old ≤ D.room drafts.new + length paths.now }
{
    let mut count = 0;
    'paths: for path in paths {
        if !drafts.ready(path) {
            return count;
        }
        count += 1;
    }
    count
}

/// Puts the drafts of these paths up to the first that can't be, and says how many are put.
fn put_in_order<D: Drafting>(drafts: &mut D, paths: &[Bytes]) -> usize
    requires room { length paths.now ≤ D.room drafts.old }
    ensures within { result ≤ length paths.now }
    ensures all { result ≡ length paths.now →
        D.log drafts.new ≡ D.log drafts.old ++ map (λ path. Deed.Put path true) paths.now }
    ensures part { result < length paths.now → D.log drafts.new ≡ D.log drafts.old
        ++ (map (λ path. Deed.Put path true) (take result paths.now) ++ Deed.Put (slice_index_or paths.now result []) false ∷ []) }
    ensures room { D.room drafts.old ≤ D.room drafts.new + (result + 1) }
{
    let mut count = 0;
    'paths: for path in paths {
        if !drafts.put(path) {
            return count;
        }
        count += 1;
    }
    count
}

/// Whether the drafts of a run are to be put: it has ended well, and none of its requests was refused.
pub(crate) fn is_well(ended_well: bool, refused: bool) -> bool
    ensures value { result ≡ (ended_well && not refused) }
{
    ended_well && !refused
}

/// Ends a run whose drafts are those of these paths: if it went well, all are made ready, then each is put, and what was put is settled; else
/// all are discarded.
pub(crate) fn end<D: Drafting>(drafts: &mut D, paths: &[Bytes], well: bool) -> Outcome
    requires room { 4 * length paths.now ≤ D.room drafts.old }
    ensures log { D.log drafts.new ≡ D.log drafts.old ++ last_deeds result paths.now }
    ensures within { IsPlace result (length paths.now) }
    ensures discarded { well ≡ false → result ≡ Outcome.Discarded }
    ensures only_then { result ≡ Outcome.Discarded → well ≡ false }
{
    if !well {
        discard_all(drafts, paths);
        return Outcome::Discarded;
    }
    let ready = make_ready(drafts, paths);
    if ready < paths.len() {
        discard_all(drafts, paths);
        return Outcome::Unready(ready);
    }
    let put = put_in_order(drafts, paths);
    if put < paths.len() {
        settle_all(drafts, &paths[..put]);
        discard_all(drafts, &paths[put..]);
        return Outcome::Stopped(put);
    }
    settle_all(drafts, paths);
    Outcome::Put
}
