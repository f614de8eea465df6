//! Worked rows: what the definitions of the steps give, by evaluation.

ghost use Rattle.std.specs.Prelude.{◌≡◌, true, false, pos, negsuc};
ghost use Rattle.zones.specs.Bound.{greater_of, widen_bound, widen_diagonal, covers_bound};
ghost use Rattle.zones.specs.Zone.{bound};
ghost use Rattle.zones.specs.Steps.{any_zone, after_guard, after_set, after_shift, after_forget, join_of, widening_of, after_put};
ghost use Rattle.zones.specs.Name.{zero, current_line, last_line, mark};

/// A buffer of 1 to 3 lines, of which the last is current; then it loses a line.
fn rows_of_a_deletion()
    ensures set { let long = after_guard any_zone zero last_line (negsuc 0) in
        let guarded = after_guard long last_line zero (pos 3) in
        let zone = after_set guarded current_line last_line (pos 0) in
        (bound zone current_line zero ≡ Some (pos 3))
        × (bound zone zero current_line ≡ Some (negsuc 0))
        × (bound zone last_line current_line ≡ Some (pos 0)) }
    ensures shift { let long = after_guard any_zone zero last_line (negsuc 0) in
        let guarded = after_guard long last_line zero (pos 3) in
        let set = after_set guarded current_line last_line (pos 0) in
        let zone = after_shift set last_line (Some (negsuc 0)) (Some (negsuc 0)) in
        (bound zone last_line zero ≡ Some (pos 2)) × (bound zone zero last_line ≡ Some (pos 0))
        × (bound zone current_line last_line ≡ Some (pos 1))
        × (bound zone last_line current_line ≡ Some (negsuc 0)) }
    ensures forget { let guarded = after_guard any_zone last_line zero (pos 3) in
        let zone = after_forget guarded last_line in
        (bound zone last_line zero ≡ None) × (bound zone last_line last_line ≡ Some (pos 0)) }
{}

/// Numbers at 10^15 and -10^15, and those at the ends of 64 bits.
fn rows_of_the_clip()
    ensures above { let zone = after_guard any_zone 2 0 (pos 1000000000000000) in
        (bound zone 2 0 ≡ Some (pos 1000000000000000))
        × (bound (after_shift zone 2 (Some (pos 0)) (Some (pos 1))) 2 0 ≡ None)
        × (bound (after_set zone 1 2 (pos 1)) 1 0 ≡ None) }
    ensures below { let zone = after_guard any_zone 2 0 (negsuc 999999999999999) in
        let lowest = Some (negsuc 999999999999999) in
        (bound zone 2 0 ≡ lowest)
        × (bound (after_shift zone 2 (Some (negsuc 0)) (Some (negsuc 0))) 2 0 ≡ lowest)
        × (bound (after_set zone 1 2 (negsuc 0)) 1 0 ≡ lowest) }
    ensures ends_of_64_bits { let greatest = pos 9223372036854775807 in
        let least = negsuc 9223372036854775807 in
        (bound (after_guard any_zone 2 0 greatest) 2 0 ≡ None)
        × (bound (after_guard any_zone 2 0 least) 2 0 ≡ Some (negsuc 999999999999999))
        × (bound (after_put any_zone 2 0 (Some greatest)) 2 0 ≡ None)
        × (bound (after_put any_zone 2 0 (Some least)) 2 0 ≡ Some (negsuc 999999999999999))
        × (bound (after_set any_zone 1 0 least) 1 0 ≡ Some (negsuc 999999999999999))
        × (bound (after_set any_zone 1 0 least) 0 1 ≡ None) }
{}

/// The bound 3 beside 4 and beside 2, off the diagonal and on it.
fn rows_of_two_zones()
    ensures bounds { (greater_of (Some (pos 3)) (Some (pos 4)) ≡ Some (pos 4))
        × (widen_bound (Some (pos 3)) (Some (pos 4)) ≡ None)
        × (widen_bound (Some (pos 3)) (Some (pos 2)) ≡ Some (pos 3))
        × (covers_bound (Some (pos 4)) (Some (pos 3)) ≡ true)
        × (covers_bound (Some (pos 3)) (Some (pos 4)) ≡ false) }
    ensures diagonal { (widen_diagonal (Some (negsuc 1)) (Some (negsuc 0)) ≡ Some (pos 0))
        × (widen_diagonal (Some (negsuc 0)) (Some (negsuc 1)) ≡ Some (negsuc 0))
        × (widen_diagonal (Some (pos 3)) (Some (pos 4)) ≡ Some (pos 4)) }
    ensures zones { let a = mark 0 in
        let three = after_put any_zone a 0 (Some (pos 3)) in
        let four = after_put any_zone a 0 (Some (pos 4)) in
        let two = after_put any_zone a 0 (Some (pos 2)) in
        (bound (join_of three four) a 0 ≡ Some (pos 4))
        × (bound (widening_of three four) a 0 ≡ None)
        × (bound (widening_of three two) a 0 ≡ Some (pos 3)) }
{}

#[test]
fn the_definitions_give_the_worked_rows(rt: HostRuntime) {
    rows_of_a_deletion();
    rows_of_the_clip();
    rows_of_two_zones();
}
