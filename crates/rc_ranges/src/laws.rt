//! Laws of range tombstones.

ghost use Rattle.std.specs.Prelude.{◌≡◌, [], ◌∷◌, ◌++◌, List, Some, None, if◌then◌else◌};
ghost use Rattle.rc_position.specs.declared.positions.Pos.{Pos};
ghost use Rattle.rc_position.specs.Position.{covers};
ghost use Rattle.rc_cell.specs.Orders.{tomb_cmp};
ghost use Rattle.rc_cell.specs.Greatest.{greater};
ghost use Rattle.rc_ranges.specs.declared.pieces.Piece.{Piece};
ghost use Rattle.rc_ranges.specs.Cover.{cover, IsCanonical, IsRangeJoinOf, IsBoundOf};

/// Canonical lists that agree wherever a piece of one of them begins or ends are one list. So each way of deleting the
/// positions of a partition by range tombstones has one canonical list.
pub fn canonical_lists_are_determined()
    ensures { (ours theirs : List Piece) → IsCanonical ours → IsCanonical theirs →
        ((x : Pos) → IsBoundOf x (ours ++ theirs) → cover ours x ≡ cover theirs x) → ours ≡ theirs }
{}

/// One piece deletes the positions that it covers, and no pieces delete none.
pub fn a_piece_deletes_what_it_covers()
    ensures one { (p : Piece) (x : Pos) → cover (p ∷ []) x ≡ (if covers p.from p.to x then Some p.tomb else None) }
    ensures none { (x : Pos) → cover [] x ≡ None }
{}

/// The pieces of two lists together have at each position the greater of what the two lists have.
pub fn pieces_together_have_the_greater()
    ensures { (ours theirs : List Piece) (x : Pos) →
        cover (ours ++ theirs) x ≡ greater tomb_cmp (cover ours x) (cover theirs x) }
{}

/// Joining is commutative.
pub fn join_is_commutative()
    ensures { (ours theirs one other : List Piece) → IsCanonical one → IsCanonical other →
        IsRangeJoinOf one ours theirs → IsRangeJoinOf other theirs ours → one ≡ other }
{}

/// Joining is associative.
pub fn join_is_associative()
    ensures { (a b c ab bc one other : List Piece) → IsCanonical one → IsCanonical other →
        IsRangeJoinOf ab a b → IsRangeJoinOf one ab c → IsRangeJoinOf bc b c → IsRangeJoinOf other a bc → one ≡ other }
{}

/// Joining is idempotent.
pub fn join_is_idempotent()
    ensures { (ours one : List Piece) → IsCanonical ours → IsCanonical one → IsRangeJoinOf one ours ours → one ≡ ours }
{}
