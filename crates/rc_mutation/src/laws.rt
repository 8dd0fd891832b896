//! The laws of what this crate defines, each the contract of a function that does nothing.

ghost use Rattle.std.specs.Prelude.{◌≡◌, [], ◌∷◌, ◌++◌, IsTrue, List};
ghost use Rattle.std.specs.FinMap.{find, is_sorted};
ghost use Rattle.rc_cell.specs.declared.rows.Row.{Row};
ghost use Rattle.rc_position.specs.declared.comps.Comp.{Comp};
ghost use Rattle.rc_position.specs.Position.{key_cmp};
ghost use Rattle.rc_mutation.specs.declared.mutations.Mutation.{Mutation};
ghost use Rattle.rc_mutation.specs.declared.mutations.Partition.{Partition};
ghost use Rattle.rc_mutation.specs.declared.mutations.Write.{Write};
ghost use Rattle.rc_mutation.specs.Fragments.{IsParts, units};
ghost use Rattle.rc_mutation.specs.Source.{IsJoinOf, IsMutation, SameSource};
ghost use Rattle.rc_cell.specs.Winner.{empty_row};
ghost use Rattle.rc_mutation.specs.laws.ByKey.{joined_if_any};
ghost use Rattle.rc_mutation.specs.Rows.{IsRows, joined_rows, rows_at};

/// Any two parts of a list of rows may be joined first.
pub fn joining_rows_is_associative()
    ensures { (rows others : List (List Comp × Row)) →
        joined_rows (rows ++ others) ≡ joined_rows (joined_rows rows ++ joined_rows others) }
{}

/// The rows may be joined in either order.
pub fn joining_rows_is_commutative()
    ensures { (rows others : List (List Comp × Row)) → joined_rows (rows ++ others) ≡ joined_rows (others ++ rows) }
{}

/// The same rows once more change nothing.
pub fn joining_rows_is_idempotent()
    ensures { (rows : List (List Comp × Row)) → joined_rows (rows ++ rows) ≡ joined_rows rows }
{}

/// Rows by ascending key are joined already.
pub fn rows_by_key_are_joined()
    ensures { (rows : List (List Comp × Row)) → IsRows rows → joined_rows rows ≡ rows }
{}

/// Joined rows ascend by key, and have at each key that occurs all its rows as one, and nothing at any other.
pub fn joined_rows_by_key()
    ensures ascend { (rows : List (List Comp × Row)) → IsTrue (is_sorted key_cmp (joined_rows rows)) }
    ensures by_key { (rows : List (List Comp × Row)) (key : List Comp) →
        find key_cmp key (joined_rows rows) ≡ joined_if_any (rows_at key rows) }
{}

/// What writes join to says at each place of the partition what the writes say.
pub fn a_join_says_what_the_writes_say()
    ensures { (mutation : Mutation) (changes : List Mutation) → IsMutation mutation → IsJoinOf mutation changes →
        SameSource (mutation ∷ []) changes }
{}

/// Mutations that say the same at each place are equal, and so have the same fragments.
pub fn the_source_determines_the_mutation()
    ensures { (mutation other : Mutation) → IsMutation mutation → IsMutation other →
        SameSource (mutation ∷ []) (other ∷ []) → mutation ≡ other }
{}

/// Any first part of the writes may be joined first.
pub fn a_first_part_may_be_joined_first()
    ensures { (part whole : Mutation) (first rest : List Mutation) → IsJoinOf part first →
        IsJoinOf whole (part ∷ rest) → IsJoinOf whole (first ++ rest) }
{}

/// Joining is commutative.
pub fn joining_is_commutative()
    ensures { (a b one other : Mutation) → IsMutation one → IsMutation other →
        IsJoinOf one (a ∷ b ∷ []) → IsJoinOf other (b ∷ a ∷ []) → one ≡ other }
{}

/// Joining is associative.
pub fn joining_is_associative()
    ensures { (a b c ab bc one other : Mutation) → IsMutation one → IsMutation other →
        IsJoinOf ab (a ∷ b ∷ []) → IsJoinOf one (ab ∷ c ∷ []) →
        IsJoinOf bc (b ∷ c ∷ []) → IsJoinOf other (a ∷ bc ∷ []) → one ≡ other }
{}

/// Joining is idempotent.
pub fn joining_is_idempotent()
    ensures { (a one : Mutation) → IsMutation a → IsMutation one → IsJoinOf one (a ∷ a ∷ []) → one ≡ a }
{}

/// No writes join to the mutation of which nothing was written.
pub fn no_writes_join_to_nothing()
    ensures { IsJoinOf (record { pt = None; statics = empty_row; rows = []; ranges = [] }) [] }
{}

/// Writes have one list of parts, and so one number of units: lists that are parts of the same writes are equal.
pub fn parts_of_writes_are_determined()
    ensures parts { (parts others : List Partition) (writes : List Write) → IsParts parts writes → IsParts others writes →
        parts ≡ others }
    ensures units { (parts others : List Partition) (writes : List Write) → IsParts parts writes → IsParts others writes →
        units parts ≡ units others }
{}
