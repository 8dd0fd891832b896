ghost use Rattle.std.specs.Prelude.{◌≡◌, ℕ, Bool, true, None, [], ◌∷◌, ◌++◌, List, IsTrue};
ghost use Rattle.std.specs.Ordering.{is_gt};
ghost use Rattle.std.specs.List.{list_all, AllByRecursion};
ghost use Rattle.rc_cell.specs.declared.rows.Row.{Row};
ghost use Rattle.rc_cell.specs.declared.writes.Cell.{Cell};
ghost use Rattle.rc_cell.specs.Orders.{cell_cmp};
ghost use Rattle.rc_cell.specs.Winner.{beats, joined_row, empty_row, IsRow};

/// A cell beats another by the rules of reconciliation exactly where it is the greater in the order of cells.
pub fn order_follows_rules()
    ensures { (c d : Cell) → beats c d ≡ is_gt (cell_cmp c d) }
{}

/// Joining is commutative: of any two lists of rows either may come first.
pub fn join_is_commutative()
    ensures { (rows others : List Row) → joined_row (rows ++ others) ≡ joined_row (others ++ rows) }
{}

/// Joining is associative: any two parts of a list of rows may be joined first.
pub fn join_is_associative()
    ensures { (rows others : List Row) →
        joined_row (rows ++ others) ≡ joined_row (joined_row rows ∷ joined_row others ∷ []) }
{}

/// Joining is idempotent: the same rows once more change nothing.
pub fn join_is_idempotent()
    ensures { (rows : List Row) → joined_row (rows ++ rows) ≡ joined_row rows }
{}

/// One row joins to itself.
pub fn join_of_one()
    ensures { (row : Row) → IsRow row → joined_row (row ∷ []) ≡ row }
{}

/// No rows join to the empty row.
pub fn join_of_none()
    ensures { joined_row [] ≡ empty_row }
{}

/// One more row may be joined to what the others joined to.
pub fn join_of_one_more()
    ensures { (rows : List Row) (row : Row) → IsRow row →
        joined_row (rows ++ row ∷ []) ≡ joined_row (joined_row rows ∷ row ∷ []) }
{}

/// Each cell of a joined row is a cell of one of the rows: a test that each of theirs passes is passed by each of its.
pub fn join_adds_no_cell()
    ensures { (test : (ℕ × Cell) → Bool) (rows : List Row) →
        list_all (λ row. list_all test row.cells) rows ≡ true → list_all test (joined_row rows).cells ≡ true }
{}

/// Rows without a marker join to one without a marker, and rows without a tombstone to one without a tombstone.
pub fn join_adds_no_marker_or_tombstone()
    ensures marker { (rows : List Row) → AllByRecursion (λ row. row.marker ≡ None) rows → (joined_row rows).marker ≡ None }
    ensures tomb { (rows : List Row) → AllByRecursion (λ row. row.tomb ≡ None) rows → (joined_row rows).tomb ≡ None }
{}
