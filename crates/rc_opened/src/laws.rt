//! The laws of what this crate stands on, each the contract of a function that does nothing.
ghost use Rattle.std.specs.Prelude.{◌≡◌, [], ◌∷◌, All, List};
ghost use Rattle.rc_cell.specs.Greatest.{greater};
ghost use Rattle.rc_cell.specs.Orders.{tomb_cmp};
ghost use Rattle.rc_position.specs.declared.positions.Pos.{Pos};
ghost use Rattle.rc_ranges.specs.declared.pieces.Piece.{Piece};
ghost use Rattle.rc_ranges.specs.Cover.{IsCanonical, cover};
ghost use Rattle.rc_mutation.specs.declared.mutations.Mutation.{Mutation};
ghost use Rattle.rc_mutation.specs.Source.{IsJoinOf, IsMutation};

use rc_stream::laws::{a_merge_is_canonical, a_merge_says_what_both_say, the_stream_of_a_mutation};

/// Two canonical lists of range tombstones have one that has the greater of both in force at each position; so two mutations, and a list of writes, have one mutation to which they join.
pub fn writes_have_a_join()
    ensures ranges { (one other : List Piece) → IsCanonical one → IsCanonical other → (both : List Piece) × IsCanonical both × ((x : Pos) → cover both x ≡ greater tomb_cmp (cover one x) (cover other x)) }
    ensures two { (one other : Mutation) → IsMutation one → IsMutation other → (both : Mutation) × IsMutation both × IsJoinOf both (one ∷ other ∷ []) }
    ensures all { (writes : List Mutation) → All IsMutation writes → (whole : Mutation) × IsMutation whole × IsJoinOf whole writes }
{
    the_stream_of_a_mutation();
    a_merge_is_canonical();
    a_merge_says_what_both_say();
}
