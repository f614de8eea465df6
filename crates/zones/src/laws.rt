//! Laws about the definitions of zones, for the proofs of other crates: contracts of functions that
//! do nothing.

ghost use Rattle.std.specs.Prelude.{◌≡◌, ◌≢◌, ℕ, ◌<◌, ◌≤◌, ℤ, ◌+ℤ◌, ◌-ℤ◌, ◌≤ℤ◌, neg_ℤ, Bool, true, false, Option, Some, None, length, get_or, All};
ghost use Rattle.zones.specs.Bound.{Obeys, IsKept, sum_of, negative_of, covers_bound};
ghost use Rattle.zones.specs.Zone.{Bounds, Numbers, bound, zone_by, Holds, ChangesOnly, updated, Covers};
ghost use Rattle.zones.specs.Steps.{any_bound, any_zone, guard_bound, after_guard, set_bound, after_set, shift_bound, after_shift, forget_bound, after_forget, join_bound, join_of, widening_bound, widening_of, put_bound, after_put};
ghost use Rattle.zones.specs.Limits.{IsZone, HasLowDiagonal, clamp, clamp_side};
ghost use Rattle.zones.specs.Known.{known, least, greatest};
ghost use Rattle.zones.specs.KnownBounds.{known_bounds};
ghost use Rattle.zones.specs.Differences.{IsDifference, Fixes, with_name};
ghost use Rattle.zones.specs.Isolated.{IsIsolated};
ghost use Rattle.zones.specs.Room.{total_room};

/// The bound of a zone that is made by a formula is the formula, and a zone is known by its bounds.
pub fn bounds_are_formulas()
    ensures size { (f : ℕ → ℕ → Option ℤ) → length (zone_by f) ≡ 1024 }
    ensures value { (f : ℕ → ℕ → Option ℤ) (p q : ℕ) → p < 32 → q < 32 →
        bound (zone_by f) p q ≡ f p q }
    ensures only { (f : ℕ → ℕ → Option ℤ) (zone : Bounds) → length zone ≡ 1024 →
        ((p q : ℕ) → p < 32 → q < 32 → bound zone p q ≡ f p q) → zone ≡ zone_by f }
{}

/// A zone is known by its known bounds too. Each of them is the bound at its place.
pub fn known_bounds_are_the_zone()
    ensures only { (one other : Bounds) → length one ≡ 1024 → length other ≡ 1024 →
        known_bounds one ≡ known_bounds other → one ≡ other }
    ensures each { (zone : Bounds) →
        All (λ b. (b.place < length zone) × (b.bound ≡ get_or zone b.place None)) (known_bounds zone) }
{}

/// Each bound after a step is the step's formula over the bounds before it.
pub fn steps_are_formulas()
    ensures any { (p q : ℕ) → p < 32 → q < 32 → bound any_zone p q ≡ any_bound p q }
    ensures guard { (zone : Bounds) (x y : ℕ) (c : ℤ) (p q : ℕ) → p < 32 → q < 32 →
        bound (after_guard zone x y c) p q ≡ guard_bound zone x y c p q }
    ensures set { (zone : Bounds) (x y : ℕ) (c : ℤ) (p q : ℕ) → p < 32 → q < 32 →
        bound (after_set zone x y c) p q ≡ set_bound zone x y c p q }
    ensures shift { (zone : Bounds) (x : ℕ) (low high : Option ℤ) (p q : ℕ) → p < 32 → q < 32 →
        bound (after_shift zone x low high) p q ≡ shift_bound zone x low high p q }
    ensures forget { (zone : Bounds) (x p q : ℕ) → p < 32 → q < 32 →
        bound (after_forget zone x) p q ≡ forget_bound zone x p q }
    ensures join { (one other : Bounds) (p q : ℕ) → p < 32 → q < 32 →
        bound (join_of one other) p q ≡ join_bound one other p q }
    ensures widen { (old new : Bounds) (p q : ℕ) → p < 32 → q < 32 →
        bound (widening_of old new) p q ≡ widening_bound old new p q }
    ensures put { (zone : Bounds) (x y : ℕ) (number : Option ℤ) (p q : ℕ) → p < 32 → q < 32 →
        bound (after_put zone x y number) p q ≡ put_bound zone x y number p q }
{}

/// Where a zone holds of the numbers before a step, the zone after it holds of those after, for
/// every change that the step allows.
pub fn steps_are_sound()
    ensures bound { (zone : Bounds) (x y : ℕ) (number : Numbers) → x < 32 → y < 32 →
        Holds zone number → Obeys (number x -ℤ number y) (bound zone x y) }
    ensures any { (number : Numbers) → Holds any_zone number }
    ensures guard { (zone : Bounds) (x y : ℕ) (c : ℤ) (number : Numbers) → x < 32 → y < 32 →
        Holds zone number → (number x -ℤ number y) ≤ℤ c → Holds (after_guard zone x y c) number }
    ensures set { (zone : Bounds) (x y : ℕ) (c : ℤ) (before after : Numbers) → x < 32 → y < 32 →
        Holds zone before → ChangesOnly x before after → after x ≡ before y +ℤ c →
        Holds (after_set zone x y c) after }
    ensures shift { (zone : Bounds) (x : ℕ) (low high : Option ℤ) (before after : Numbers) →
        x < 32 → Holds zone before → ChangesOnly x before after → Obeys (after x -ℤ before x) high →
        Obeys (before x -ℤ after x) (negative_of low) → Holds (after_shift zone x low high) after }
    ensures forget { (zone : Bounds) (x : ℕ) (before after : Numbers) → Holds zone before →
        ChangesOnly x before after → Holds (after_forget zone x) after }
    ensures join { (one other : Bounds) (number : Numbers) → Holds one number →
        Holds (join_of one other) number }
    ensures join_other { (one other : Bounds) (number : Numbers) → Holds other number →
        Holds (join_of one other) number }
    ensures widen { (old new : Bounds) (number : Numbers) → Holds old number →
        Holds (widening_of old new) number }
    ensures widen_other { (old new : Bounds) (number : Numbers) → Holds new number →
        Holds (widening_of old new) number }
    ensures put { (zone : Bounds) (x y : ℕ) (number : Option ℤ) (numbers : Numbers) →
        Holds zone numbers → Obeys (numbers x -ℤ numbers y) number →
        Holds (after_put zone x y number) numbers }
{}

/// A zone that covers another holds wherever that one holds.
pub fn covering_is_weaker()
    ensures sound { (weak strong : Bounds) (number : Numbers) → Covers weak strong →
        Holds strong number → Holds weak number }
{}

/// Covering is an order, in which a join is the strongest zone that covers both, and a widening
/// covers both.
pub fn covering_is_an_order()
    ensures same { (zone : Bounds) → Covers zone zone }
    ensures through { (a b c : Bounds) → Covers a b → Covers b c → Covers a c }
    ensures both_ways { (a b : Bounds) → IsZone a → IsZone b → Covers a b → Covers b a → a ≡ b }
    ensures join { (one other : Bounds) → Covers (join_of one other) one }
    ensures join_other { (one other : Bounds) → Covers (join_of one other) other }
    ensures join_least { (weak one other : Bounds) → Covers weak one → Covers weak other →
        Covers weak (join_of one other) }
    ensures widen { (old new : Bounds) → Covers (widening_of old new) old }
    ensures widen_other { (old new : Bounds) → Covers (widening_of old new) new }
{}

/// What a zone says it knows is true of all numbers that it holds of.
pub fn known_bounds_are_true()
    ensures known { (zone : Bounds) (number : Numbers) (x y : ℕ) (c : ℤ) →
        known zone x y c ≡ true → x < 32 → y < 32 → Holds zone number →
        (number x -ℤ number y) ≤ℤ c }
    ensures least { (zone : Bounds) (number : Numbers) (x y : ℕ) → x < 32 → y < 32 →
        Holds zone number → Obeys (number y -ℤ number x) (negative_of (least zone x y)) }
    ensures greatest { (zone : Bounds) (number : Numbers) (x y : ℕ) → x < 32 → y < 32 →
        Holds zone number → Obeys (number x -ℤ number y) (greatest zone x y) }
{}

/// How differences obey sums and negatives of bounds, from those of the parts.
pub fn differences_obey_sums()
    ensures less { (d e : ℤ) (b : Option ℤ) → Obeys d b → e ≤ℤ d → Obeys e b }
    ensures sum { (d e f : ℤ) (a b : Option ℤ) → Obeys d a → Obeys e b → f ≡ d +ℤ e →
        Obeys f (sum_of a b) }
    ensures negative_sum { (d e f : ℤ) (a b : Option ℤ) → Obeys d (negative_of a) →
        Obeys e (negative_of b) → f ≡ d +ℤ e → Obeys f (negative_of (sum_of a b)) }
    ensures twice_negative { (d e : ℤ) (b : Option ℤ) → Obeys d b → e ≡ d →
        Obeys e (negative_of (negative_of b)) }
{}

/// Numbers of which one is changed.
pub fn numbers_are_updated()
    ensures same { (number : Numbers) (x : ℕ) (n : ℤ) → updated number x n x ≡ n }
    ensures others { (number : Numbers) (x : ℕ) (n : ℤ) → ChangesOnly x number (updated number x n) }

    // A zone holds of all numbers that are equal to those that it holds of.
    ensures equal { (zone : Bounds) (before after : Numbers) → ((p : ℕ) → after p ≡ before p) →
        Holds zone before → Holds zone after }
{}

/// If nothing is known of a name, a step on other names doesn't make anything known of it.
pub fn isolated_names_stay_isolated()
    ensures any { (x : ℕ) → x < 32 → IsIsolated any_zone x }
    ensures guard { (zone : Bounds) (x y z : ℕ) (c : ℤ) → x < 32 → y < 32 → z < 32 → y ≢ x →
        z ≢ x → IsIsolated zone x → IsIsolated (after_guard zone y z c) x }
    ensures set { (zone : Bounds) (x y z : ℕ) (c : ℤ) → x < 32 → y < 32 → z < 32 → y ≢ x → z ≢ x →
        IsIsolated zone x → IsIsolated (after_set zone y z c) x }
    ensures shift { (zone : Bounds) (x y : ℕ) (low high : Option ℤ) → x < 32 → y < 32 → y ≢ x →
        IsIsolated zone x → IsIsolated (after_shift zone y low high) x }
    ensures forget { (zone : Bounds) (x y : ℕ) → x < 32 → y ≢ x → IsIsolated zone x →
        IsIsolated (after_forget zone y) x }
    ensures join { (one other : Bounds) (x : ℕ) → x < 32 → IsIsolated one x → IsIsolated other x →
        IsIsolated (join_of one other) x }
    ensures widen { (old new : Bounds) (x : ℕ) → x < 32 → IsIsolated old x → IsIsolated new x →
        IsIsolated (widening_of old new) x }

    // A name that is forgotten is isolated.
    ensures forgotten { (zone : Bounds) (x : ℕ) → x < 32 → IsIsolated (after_forget zone x) x }
{}

/// Each step gives a zone: 1024 bounds, none beyond the clip.
pub fn steps_keep_to_the_clip()
    ensures any { IsZone any_zone }
    ensures guard { (zone : Bounds) (x y : ℕ) (c : ℤ) → IsZone (after_guard zone x y c) }
    ensures set { (zone : Bounds) (x y : ℕ) (c : ℤ) → IsZone zone → IsZone (after_set zone x y c) }
    ensures shift { (zone : Bounds) (x : ℕ) (low high : Option ℤ) → IsZone zone →
        IsZone (after_shift zone x low high) }
    ensures forget { (zone : Bounds) (x : ℕ) → IsZone zone → IsZone (after_forget zone x) }
    ensures join { (one other : Bounds) → IsZone one → IsZone other → IsZone (join_of one other) }
    ensures widen { (old new : Bounds) → IsZone old → IsZone new → IsZone (widening_of old new) }
    ensures put { (zone : Bounds) (x y : ℕ) (number : Option ℤ) → IsZone zone →
        IsZone (after_put zone x y number) }
{}

/// Where each diagonal bound is a number that is at most 0, it is so after each step. `put`, which
/// is no step, isn't among them.
pub fn steps_keep_diagonals_low()
    ensures any { HasLowDiagonal any_zone }
    ensures guard { (zone : Bounds) (x y : ℕ) (c : ℤ) → HasLowDiagonal zone →
        HasLowDiagonal (after_guard zone x y c) }
    ensures set { (zone : Bounds) (x y : ℕ) (c : ℤ) → HasLowDiagonal zone →
        HasLowDiagonal (after_set zone x y c) }
    ensures shift { (zone : Bounds) (x : ℕ) (low high : Option ℤ) → x < 32 → HasLowDiagonal zone →
        HasLowDiagonal (after_shift zone x low high) }
    ensures forget { (zone : Bounds) (x : ℕ) → HasLowDiagonal zone →
        HasLowDiagonal (after_forget zone x) }
    ensures join { (one other : Bounds) → HasLowDiagonal one → HasLowDiagonal other →
        HasLowDiagonal (join_of one other) }
    ensures widen { (old new : Bounds) → HasLowDiagonal old → HasLowDiagonal new →
        HasLowDiagonal (widening_of old new) }
{}

/// A difference that both bounds of a pair say stays known when one of its names is set by a number
/// or moved by a number, as long as the new difference is within the clip: beyond it one of the two
/// bounds becomes any. Other pairs don't change.
pub fn known_differences_stay_known()
    ensures set { (zone : Bounds) (x y q : ℕ) (c d : ℤ) → x < 32 → q < 32 → q ≢ x →
        IsDifference zone y q d → IsKept (Some (d +ℤ c)) →
        IsDifference (after_set zone x y c) x q (d +ℤ c) }
    ensures set_others { (zone : Bounds) (x y p q : ℕ) (c d : ℤ) → p < 32 → q < 32 → p ≢ x → q ≢ x →
        IsDifference zone p q d → IsDifference (after_set zone x y c) p q d }
    ensures shift { (zone : Bounds) (x q : ℕ) (c d : ℤ) → x < 32 → q < 32 → q ≢ x →
        IsDifference zone x q d → IsKept (Some (d +ℤ c)) →
        IsDifference (after_shift zone x (Some c) (Some c)) x q (d +ℤ c) }
    ensures shift_others { (zone : Bounds) (x p q : ℕ) (low high : Option ℤ) (d : ℤ) → p < 32 →
        q < 32 → p ≢ x → q ≢ x → IsDifference zone p q d →
        IsDifference (after_shift zone x low high) p q d }

    // It is the difference of all numbers that the zone holds of.
    ensures meaning { (zone : Bounds) (number : Numbers) (x y : ℕ) (d : ℤ) → x < 32 → y < 32 →
        Holds zone number → IsDifference zone x y d → number x -ℤ number y ≡ d }
{}

/// Names whose differences are all known, at their numbers, stay so: each step gives the numbers
/// after it, as long as their differences are within the clip.
pub fn fixed_names_stay_fixed()
    ensures meaning { (zone : Bounds) (fixed : ℕ → Bool) (number : Numbers) (x y : ℕ) → x < 32 →
        y < 32 → Fixes zone fixed number → fixed x ≡ true → fixed y ≡ true →
        IsDifference zone x y (number x -ℤ number y) }

    // Before any step each name is fixed by itself.
    ensures any { (fixed : ℕ → Bool) (number : Numbers) →
        ((p q : ℕ) → fixed p ≡ true → fixed q ≡ true → p ≡ q) → Fixes any_zone fixed number }

    // A name that is set from a fixed one by a number becomes fixed.
    ensures set { (zone : Bounds) (x y : ℕ) (c : ℤ) (fixed : ℕ → Bool) (before after : Numbers) →
        x < 32 → y < 32 → fixed y ≡ true → Fixes zone fixed before → ChangesOnly x before after →
        after x ≡ before y +ℤ c →
        ((q : ℕ) → q < 32 → fixed q ≡ true → IsKept (Some (after x -ℤ after q))) →
        Fixes (after_set zone x y c) (with_name x fixed) after }
    ensures shift { (zone : Bounds) (x : ℕ) (c : ℤ) (fixed : ℕ → Bool) (before after : Numbers) →
        x < 32 → Fixes zone fixed before → ChangesOnly x before after → after x ≡ before x +ℤ c →
        ((q : ℕ) → q < 32 → fixed q ≡ true → IsKept (Some (after x -ℤ after q))) →
        Fixes (after_shift zone x (Some c) (Some c)) fixed after }
    ensures forget { (zone : Bounds) (x : ℕ) (fixed : ℕ → Bool) (before after : Numbers) →
        Fixes zone fixed before → ChangesOnly x before after → fixed x ≡ false →
        Fixes (after_forget zone x) fixed after }

    // A guard that is true of the numbers changes nothing between fixed names, and two guards that
    // say a name's difference to a fixed one fix it.
    ensures guard { (zone : Bounds) (x y : ℕ) (c : ℤ) (fixed : ℕ → Bool) (number : Numbers) →
        x < 32 → y < 32 → IsZone zone → Fixes zone fixed number → Holds zone number →
        (number x -ℤ number y) ≤ℤ c → Fixes (after_guard zone x y c) fixed number }
    ensures guards { (zone : Bounds) (x y : ℕ) (c : ℤ) (fixed : ℕ → Bool) (number : Numbers) →
        x < 32 → y < 32 → IsZone zone → HasLowDiagonal zone → Holds zone number →
        Fixes zone fixed number → fixed y ≡ true → number x ≡ number y +ℤ c →
        ((q : ℕ) → q < 32 → fixed q ≡ true → IsKept (Some (number x -ℤ number q))) →
        Fixes (after_guard (after_guard zone y x (neg_ℤ c)) x y c) (with_name x fixed) number }
    ensures fewer { (zone : Bounds) (fixed fewer : ℕ → Bool) (number : Numbers) →
        ((p : ℕ) → fewer p ≡ true → fixed p ≡ true) → Fixes zone fixed number →
        Fixes zone fewer number }
    ensures join { (one other : Bounds) (fixed : ℕ → Bool) (number : Numbers) →
        Fixes one fixed number → Fixes other fixed number → Fixes (join_of one other) fixed number }
    ensures widen { (old new : Bounds) (fixed : ℕ → Bool) (number : Numbers) →
        Fixes old fixed number → Fixes new fixed number → Fixes (widening_of old new) fixed number }
{}

/// A zone that is given up for a weaker one can be weakened less often.
pub fn room_falls()
    ensures no_more { (weak strong : Bounds) → IsZone weak → IsZone strong → Covers weak strong →
        total_room weak ≤ total_room strong }
    ensures at_a_pair { (weak strong : Bounds) → IsZone weak → IsZone strong → Covers weak strong →
        (x y : ℕ) → x < 32 → y < 32 → covers_bound (bound strong x y) (bound weak x y) ≡ false →
        total_room weak < total_room strong }
    ensures unless_covered { (weak strong : Bounds) → IsZone weak → IsZone strong →
        Covers weak strong → (Covers strong weak → ⊥) → total_room weak < total_room strong }
{}

/// An offset may first be clamped to 4 * 10^15 on either side: no bound differs.
pub fn offsets_may_be_clamped()
    ensures guard { (zone : Bounds) (x y : ℕ) (c : ℤ) → IsZone zone →
        after_guard zone x y (clamp c) ≡ after_guard zone x y c }
    ensures set { (zone : Bounds) (x y : ℕ) (c : ℤ) → IsZone zone →
        after_set zone x y (clamp c) ≡ after_set zone x y c }
    ensures shift { (zone : Bounds) (x : ℕ) (low high : Option ℤ) → IsZone zone →
        after_shift zone x (clamp_side low) (clamp_side high) ≡ after_shift zone x low high }
{}
