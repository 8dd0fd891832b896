//! Laws of the codes, each the contract of a function that does nothing.

ghost use Rattle.std.specs.Prelude.{◌≡◌, ◌≤◌, ◌+◌, ◌++◌, [], ◌∷◌, List, ℕ, length};
ghost use Rattle.rc_cell.specs.declared.writes.Tomb.{Tomb};
ghost use Rattle.rc_cell.specs.declared.rows.Row.{Row};
ghost use Rattle.rc_cell.specs.Winner.{joined_row, IsRow};
ghost use Rattle.rc_position.specs.declared.comps.Comp.{Comp};
ghost use Rattle.rc_position.specs.declared.positions.Pos.{Pos};
ghost use Rattle.rc_rowcode.specs.Spelling.{tomb_code, key_code, pos_code, row_code, IsTomb, IsKey, IsPos, IsCodedRow};

/// Each tombstone has one code, and no tombstone's code begins another's: what was written is read again, whatever
/// follows it.
pub fn one_code_of_a_tomb()
    ensures { (a b : Tomb) (x y : List ℕ) → IsTomb a → IsTomb b → tomb_code a ++ x ≡ tomb_code b ++ y → (a ≡ b) × (x ≡ y) }
{}

/// The same of keys.
pub fn one_code_of_a_key()
    ensures { (a b : List Comp) (x y : List ℕ) → IsKey a → IsKey b → key_code a ++ x ≡ key_code b ++ y → (a ≡ b) × (x ≡ y) }
{}

/// The same of positions.
pub fn one_code_of_a_position()
    ensures { (a b : Pos) (x y : List ℕ) → IsPos a → IsPos b → pos_code a ++ x ≡ pos_code b ++ y → (a ≡ b) × (x ≡ y) }
{}

/// The same of rows.
pub fn one_code_of_a_row()
    ensures { (a b : Row) (x y : List ℕ) → IsCodedRow a → IsCodedRow b → row_code a ++ x ≡ row_code b ++ y → (a ≡ b) × (x ≡ y) }
{}

/// What is joined of two rows that have codes has a code, so codes that were joined can be joined again.
pub fn joined_row_has_a_code()
    ensures { (r q : Row) → IsCodedRow r → IsCodedRow q → IsCodedRow (joined_row (r ∷ q ∷ [])) }
{}

/// A key's code has at most 265 bytes, a position's at most 266, and a row's at most 8,599.
pub fn codes_are_short()
    ensures key { (k : List Comp) → IsKey k → length (key_code k) ≤ 265 }
    ensures position { (x : Pos) → IsPos x → length (pos_code x) ≤ 266 }
    ensures row { (r : Row) → IsCodedRow r → length (row_code r) ≤ 8599 }
{}

/// The code of a joined row is at most as long as both codes together.
pub fn joined_code_is_no_longer()
    ensures { (r q : Row) → IsRow r → IsRow q → length (row_code (joined_row (r ∷ q ∷ []))) ≤ length (row_code r) + length (row_code q) }
{}
