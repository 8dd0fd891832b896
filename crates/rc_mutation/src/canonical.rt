//! Which lists of rows and changes of tombstone are those of a mutation: the lists that a rule met item by item allows. Laws, each the contract of a
//! function that does nothing.

ghost use Rattle.std.specs.Prelude.{◌≡◌, List, Option, None, IsTrue};
ghost use Rattle.rc_cell.specs.declared.rows.Row.{Row};
ghost use Rattle.rc_cell.specs.declared.writes.Tomb.{Tomb};
ghost use Rattle.rc_cell.specs.Columns.{ascending};
ghost use Rattle.rc_mutation.specs.declared.fragments.Frag.{Frag};
ghost use Rattle.rc_mutation.specs.declared.mutations.Mutation.{Mutation};
ghost use Rattle.rc_mutation.specs.Fragments.{fragments, rows_and_changes};
ghost use Rattle.rc_mutation.specs.Source.{IsMutation};
ghost use Rattle.rc_mutation.specs.Statics.{has_cells_alone};
ghost use Rattle.rc_mutation.specs.Canonical.{IsBounded, IsCanonicalList, IsMutationOf};

/// Each canonical list of rows and changes of tombstone is that of one mutation, whatever its partition tombstone is and its
/// static row, which has cells alone. So who reads such a list has read a mutation's fragments.
pub fn a_canonical_list_is_that_of_a_mutation()
    ensures is_of_one { (tomb : Option Tomb) (row : Row) (fs : List Frag) → IsTrue (ascending row.cells) →
        IsTrue (has_cells_alone row) → IsCanonicalList None None fs → (m : Mutation) × IsMutationOf m tomb row fs }
    ensures and_no_other { (tomb : Option Tomb) (row : Row) (fs : List Frag) (m other : Mutation) →
        IsMutationOf m tomb row fs → IsMutationOf other tomb row fs → m ≡ other }
{}

/// The rows and changes of each mutation whose range tombstones begin and end between rows are a canonical list.
pub fn a_mutation_has_a_canonical_list()
    ensures { (m : Mutation) → IsMutation m → IsBounded m.ranges → IsCanonicalList None None (rows_and_changes m) }
{}

/// Rows and changes by position determine the rows and the range tombstones.
pub fn a_list_is_that_of_one_mutation()
    ensures { (m other : Mutation) → IsMutation m → IsMutation other → rows_and_changes m ≡ rows_and_changes other →
        (m.rows ≡ other.rows) × (m.ranges ≡ other.ranges) }
{}

/// Mutations with the same fragments are equal.
pub fn fragments_determine_the_mutation()
    ensures { (m other : Mutation) → IsMutation m → IsMutation other → fragments m ≡ fragments other → m ≡ other }
{}
