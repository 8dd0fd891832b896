//! Laws of the order of positions.

ghost use Rattle.std.specs.Prelude.{◌≡◌, List, [], ◌∷◌, false, true, length};
ghost use Rattle.std.specs.Ordering.{is_gt};
ghost use Rattle.std.specs.Cmp.{IsTotalOrder};
ghost use Rattle.std.specs.Cmp.Lexicographic.{slice_cmp};
ghost use Rattle.std.specs.FinMap.{IsAntisymmetric};
ghost use Rattle.rc_position.specs.declared.comps.Comp.{Comp};
ghost use Rattle.rc_position.specs.declared.positions.Pos.{Pos};
ghost use Rattle.rc_position.specs.Position.{comp_cmp, key_cmp, pos_cmp, row_pos, start_bound, end_bound, IsBefore, IsPosOf, place_cmp};

/// Keys are ordered component by component, and a proper prefix is the smaller.
pub fn keys_are_ordered_by_components()
    ensures { (k l : List Comp) → key_cmp k l ≡ slice_cmp comp_cmp k l }
{}

/// With no bound a range begins at the first of all positions and ends at the last.
pub fn no_bound_is_the_whole_partition()
    ensures first { (x : Pos) → is_gt (pos_cmp (start_bound [] true) x) ≡ false }
    ensures last { (x : Pos) → is_gt (pos_cmp x (end_bound [] true)) ≡ false }
{}

/// Among the positions of rows with so many components as a key has, none stands between its row and what is after it.
pub fn nothing_stands_right_after_a_row()
    ensures { (k : List Comp) (x : Pos) → IsPosOf (length k) x → IsBefore (row_pos k) x → IsBefore x (end_bound k true) → ⊥ }
{}

/// The order of all places of a partition is total, and only equal places tie.
pub fn places_are_totally_ordered()
    ensures total { IsTotalOrder place_cmp }
    ensures same { IsAntisymmetric place_cmp }
{}
