//! The laws of what this crate defines, each the contract of a function that does nothing.

ghost use Rattle.std.specs.Prelude.{◌≡◌, [], ◌∷◌, ◌++◌, false, List, Option, IsTrue, length, drop, is_some};
ghost use Rattle.std.specs.Ordering.{is_gt};
ghost use Rattle.rc_cell.specs.declared.rows.Row.{Row};
ghost use Rattle.rc_cell.specs.declared.writes.Tomb.{Tomb};
ghost use Rattle.rc_cell.specs.Columns.{ascending};
ghost use Rattle.rc_cell.specs.Deletion.{has_life, shadowed_row};
ghost use Rattle.rc_position.specs.declared.comps.Comp.{Comp};
ghost use Rattle.rc_position.specs.declared.positions.Pos.{Pos};
ghost use Rattle.rc_position.specs.Position.{pos_cmp};
ghost use Rattle.rc_position.specs.declared.slices.Slice.{Slice};
ghost use Rattle.rc_mutation.specs.declared.mutations.Mutation.{Mutation};
ghost use Rattle.rc_mutation.specs.Source.{IsJoinOf, IsMutation, SameSource};
ghost use Rattle.rc_mutation.specs.Fragments.{fragments};
ghost use Rattle.rc_query.specs.Answer.{answer, row_lines, sliced_before, sliced_from, whole_slice};
ghost use Rattle.rc_query.specs.laws.Answers.{row_line};
ghost use Rattle.rc_query.specs.Compacting.{compacted_all, fragments_in};

/// The answer of writes is the answer of what they join to.
pub fn answer_of_joined_writes()
    ensures { (mutation : Mutation) (changes : List Mutation) (slice : Slice) → IsJoinOf mutation changes →
        answer changes slice ≡ answer (mutation ∷ []) slice }
{}

/// The compactor over the head and the canonical fragments of a mutation, whole or in a slice, gives its answer there.
pub fn compactor_gives_the_answer()
    ensures whole { (mutation : Mutation) → IsMutation mutation →
        compacted_all (record { pt = mutation.pt; statics = mutation.statics }) (fragments mutation) ≡ answer (mutation ∷ []) whole_slice }
    ensures slice { (mutation : Mutation) (slice : Slice) → IsMutation mutation →
        compacted_all (record { pt = mutation.pt; statics = mutation.statics }) (fragments_in slice mutation) ≡ answer (mutation ∷ []) slice }
{}

/// Writes with the same source have the same answer in each slice.
pub fn the_source_determines_the_answer()
    ensures { (changes others : List Mutation) (slice : Slice) → SameSource changes others →
        answer changes slice ≡ answer others slice }
{}

/// The row lines of a slice are those before a position that is not outside it, and behind them those from it on. So what is
/// left behind the line of a key are the lines from the position after the key's row on.
pub fn row_lines_are_cut_at_a_position()
    ensures both { (changes : List Mutation) (slice : Slice) (x : Pos) → is_gt (pos_cmp slice.from x) ≡ false → is_gt (pos_cmp x slice.to) ≡ false →
        row_lines changes slice ≡ row_lines changes (sliced_before slice x) ++ row_lines changes (sliced_from slice x) }
    ensures rest { (changes : List Mutation) (slice : Slice) (x : Pos) → is_gt (pos_cmp slice.from x) ≡ false → is_gt (pos_cmp x slice.to) ≡ false →
        drop (length (row_lines changes (sliced_before slice x))) (row_lines changes slice) ≡ row_lines changes (sliced_from slice x) }
{}

/// A row has a line exactly where what its cover leaves of it has life: where `Row::is_live` answers that it is live.
pub fn a_row_has_a_line_where_it_has_life()
    ensures { (outer : Option Tomb) (key : List Comp) (row : Row) → IsTrue (ascending row.cells) →
        is_some (row_line outer key row) ≡ has_life (shadowed_row outer row) }
{}
