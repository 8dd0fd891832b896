//! The laws of the objects of a version, each the contract of a function that does nothing.
ghost use Rattle.std.specs.Prelude.{◌≡◌, ◌⊎◌, ℕ, ◌+◌, ◌≤◌, List, length, take, drop, IsSomeAnd};
ghost use Rattle.rc_cell.specs.declared.rows.Row.{Row};
ghost use Rattle.rc_rowcode.specs.Spelling.{pos_code, IsPos};
ghost use Rattle.rc_core.specs.declared.entries.Entry.{Entry};
ghost use Rattle.lsa_kinds.specs.declared.kind.Kind.TheVariants.{RowEntry, Dummy};
ghost use Rattle.lsa_kinds.specs.Fields.{number_at};
ghost use Rattle.lsa_region.specs.Ref.{Ref};
ghost use Rattle.lsa_region.specs.Ends.{named_as};
ghost use Rattle.lsa_region.specs.Region.{View, body, Renamed};
ghost use Rattle.rc_object.specs.declared.heads.Head.{Head};
ghost use Rattle.rc_object.specs.Objects.{HoldsHead, HoldsEntry, HoldsStatic, IsMade, IsSameButLevel};

/// An object holds one head, one entry or one static row.
pub fn an_object_holds_one_value()
    ensures head { (v : View) (r : Ref) (x y : Head) → HoldsHead v r x → HoldsHead v r y → x ≡ y }
    ensures entry { (v : View) (r : Ref) (x y : Entry) → HoldsEntry v r x → HoldsEntry v r y → x ≡ y }
    ensures statics { (v : View) (r : Ref) (x y : Row) → HoldsStatic v r x → HoldsStatic v r y → x ≡ y }
{}

/// The bytes of an entry spell its position: their field of 4 bytes at 28 tells how long its code is, which begins at 32.
pub fn an_entry_stands_at_its_position()
    ensures kind { (v : View) (r : Ref) (e : Entry) → HoldsEntry v r e → IsSomeAnd (body v r) (λ b. (b.0 ≡ RowEntry) ⊎ (b.0 ≡ Dummy)) }
    ensures inside { (v : View) (r : Ref) (e : Entry) → HoldsEntry v r e → IsSomeAnd (body v r) (λ b. 32 + number_at 28 4 b.1 ≤ length b.1) }
    ensures place { (v : View) (r : Ref) (e : Entry) → HoldsEntry v r e → IsPos e.position }
    ensures code { (v : View) (r : Ref) (e : Entry) → HoldsEntry v r e → IsSomeAnd (body v r) (λ b. take (number_at 28 4 b.1) (drop 32 b.1) ≡ pos_code e.position) }
{}

/// What an object holds stays where its bytes stay, and an entry also where its balance changes.
pub fn an_object_stays_where_its_bytes_stay()
    ensures head { (old new : View) (r : Ref) (h : Head) → HoldsHead old r h → body new r ≡ body old r → HoldsHead new r h }
    ensures entry { (old new : View) (r : Ref) (e : Entry) → HoldsEntry old r e → body new r ≡ body old r → HoldsEntry new r e }
    ensures statics { (old new : View) (r : Ref) (row : Row) → HoldsStatic old r row → body new r ≡ body old r → HoldsStatic new r row }
    ensures level { (old new : View) (r : Ref) (e : Entry) → HoldsEntry old r e → IsSameButLevel (body old r) (body new r) → HoldsEntry new r e }
{}

/// What an object holds stays where another one is made.
pub fn an_object_stays_where_another_is_made()
    ensures head { (S : ℕ) (old new : View) (q r : Ref) (size : ℕ) (h : Head) → HoldsHead old q h → IsMade S old new r size → HoldsHead new q h }
    ensures entry { (S : ℕ) (old new : View) (q r : Ref) (size : ℕ) (e : Entry) → HoldsEntry old q e → IsMade S old new r size → HoldsEntry new q e }
    ensures statics { (S : ℕ) (old new : View) (q r : Ref) (size : ℕ) (row : Row) → HoldsStatic old q row → IsMade S old new r size → HoldsStatic new q row }
{}

/// After objects moved, each holds under its new name what it held.
pub fn a_moved_object_holds_the_same()
    ensures head { (old new : View) (names : List (Ref × Ref)) (r : Ref) (h : Head) → Renamed old new names → HoldsHead old r h → HoldsHead new (named_as names r) h }
    ensures entry { (old new : View) (names : List (Ref × Ref)) (r : Ref) (e : Entry) → Renamed old new names → HoldsEntry old r e → HoldsEntry new (named_as names r) e }
    ensures statics { (old new : View) (names : List (Ref × Ref)) (r : Ref) (row : Row) → Renamed old new names → HoldsStatic old r row → HoldsStatic new (named_as names r) row }
{}
