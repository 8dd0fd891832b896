//! The laws of this crate, each the contract of a function that does nothing.

ghost use Rattle.std.specs.Prelude.{◌≡◌, ◌∷◌, ◌++◌, [], ℕ, All, false, List};
ghost use Rattle.std.specs.Ordering.{is_gt};
ghost use Rattle.rc_position.specs.declared.comps.Comp.{Comp};
ghost use Rattle.rc_position.specs.declared.positions.Pos.{Pos};
ghost use Rattle.rc_position.specs.declared.slices.Slice.{Slice};
ghost use Rattle.rc_position.specs.Position.{pos_cmp, start_bound};
ghost use Rattle.rc_mutation.specs.declared.mutations.Mutation.{Mutation};
ghost use Rattle.rc_mutation.specs.Source.{IsMutation};
ghost use Rattle.rc_schema.specs.SchemaValue.{SchemaValue};
ghost use Rattle.rc_writes.specs.Allowed.{ChangeFits, IsRangeBound};
ghost use Rattle.rc_query.specs.declared.lines.OutLine.{OutLine};
ghost use Rattle.rc_query.specs.declared.lines.OutLine.TheVariants.{Row};
ghost use Rattle.rc_query.specs.Answer.{answer, row_lines, sliced_before, sliced_from};
ghost use Rattle.rc_tables.specs.Located.{SaysOf};
ghost use Rattle.rc_spliced.specs.Lines.{lines_from, lines_short_of};
ghost use Rattle.rc_spliced.specs.Spliced.{IsSpliced, SameSourceBefore, SameSourceFrom, with_head_of};

/// At each position two mutations have a splice, and only one.
pub fn two_mutations_have_a_splice()
    ensures splice { (x : Pos) (first second : Mutation) → IsMutation first → IsMutation second →
        (spliced : Mutation) × IsSpliced x first second spliced }
    ensures one { (x : Pos) (first second one other : Mutation) →
        IsSpliced x first second one → IsSpliced x first second other → one ≡ other }
{}

/// A splice of two mutations that a table of a schema can hold is one that a table of it can hold, where under the schema a range
/// may begin or end at the position.
pub fn a_splice_fits()
    ensures { (schema : SchemaValue) (x : Pos) (first second spliced : Mutation) →
        SaysOf schema first → SaysOf schema second → IsRangeBound schema x → IsSpliced x first second spliced → SaysOf schema spliced }
{}

/// The answer over a splice, with any writes beside it, has before the position the lines of the answer over the first, and from
/// there on those of the answer over the second with the partition tombstone and the static row of the first: it is the front of
/// the one answer, and behind it the rest of the other.
pub fn an_answer_goes_on()
    ensures before { (x : Pos) (first second spliced : Mutation) (writes : List Mutation) (slice : Slice) → IsSpliced x first second spliced →
        lines_short_of x (answer (spliced ∷ writes) slice) ≡ lines_short_of x (answer (first ∷ writes) slice) }
    ensures from { (x : Pos) (first second spliced : Mutation) (writes : List Mutation) (slice : Slice) → IsSpliced x first second spliced →
        lines_from x (answer (spliced ∷ writes) slice) ≡ lines_from x (answer (with_head_of first second ∷ writes) slice) }
    ensures whole { (x : Pos) (first second spliced : Mutation) (writes : List Mutation) (slice : Slice) → IsSpliced x first second spliced →
        answer (spliced ∷ writes) slice
        ≡ lines_short_of x (answer (first ∷ writes) slice) ++ lines_from x (answer (with_head_of first second ∷ writes) slice) }
{}

/// An answer is its lines before a position, and behind them those from there on.
pub fn an_answer_is_cut_at_each_position()
    ensures { (changes : List Mutation) (slice : Slice) (x : Pos) →
        answer changes slice ≡ lines_short_of x (answer changes slice) ++ lines_from x (answer changes slice) }
{}

/// Where all writes fit a schema, a range may begin or end right behind each row that has a line, and the answer is cut there right
/// behind that line.
pub fn an_answer_is_cut_behind_each_line()
    ensures bound { (schema : SchemaValue) (changes : List Mutation) (slice : Slice) (given rest : List OutLine) (key : List Comp) (shown : List (ℕ × List ℕ)) →
        All (ChangeFits schema) changes → answer changes slice ≡ given ++ Row key shown ∷ rest → IsRangeBound schema (start_bound key false) }
    ensures cut { (schema : SchemaValue) (changes : List Mutation) (slice : Slice) (given rest : List OutLine) (key : List Comp) (shown : List (ℕ × List ℕ)) →
        All (ChangeFits schema) changes → answer changes slice ≡ given ++ Row key shown ∷ rest →
        (lines_short_of (start_bound key false) (answer changes slice) ≡ given ++ Row key shown ∷ [])
        × (lines_from (start_bound key false) (answer changes slice) ≡ rest) }
{}

/// The lines of an answer before a position that is not behind the slice are the answer in the part of the slice before it; those
/// from a position on that is not before the slice are the row lines in the part from there on.
pub fn the_lines_on_each_side_are_those_of_a_part()
    ensures before { (changes : List Mutation) (slice : Slice) (x : Pos) → is_gt (pos_cmp x slice.to) ≡ false →
        lines_short_of x (answer changes slice) ≡ answer changes (sliced_before slice x) }
    ensures from { (changes : List Mutation) (slice : Slice) (x : Pos) → is_gt (pos_cmp slice.from x) ≡ false →
        lines_from x (answer changes slice) ≡ row_lines changes (sliced_from slice x) }
{}

/// Writes that say the same at the head, at the static row and before a position have the same lines there; writes that say the
/// same at the head and from a position on have the same lines there.
pub fn the_source_determines_the_lines_on_each_side()
    ensures before { (changes others : List Mutation) (slice : Slice) (x : Pos) → SameSourceBefore x changes others →
        lines_short_of x (answer changes slice) ≡ lines_short_of x (answer others slice) }
    ensures from { (changes others : List Mutation) (slice : Slice) (x : Pos) → SameSourceFrom x changes others →
        lines_from x (answer changes slice) ≡ lines_from x (answer others slice) }
{}
