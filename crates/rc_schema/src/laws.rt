//! Laws of a schema's text and checks, each the contract of a function that does nothing.

ghost use Rattle.std.specs.Prelude.{◌≡◌, ◌≤◌, ℕ, Bool, true, false, List, IsTrue, Some, None, Ok};
ghost use Rattle.std.specs.List.{AllByRecursion};
ghost use Rattle.rc_cell.specs.declared.rows.Row.{Row};
ghost use Rattle.rc_cell.specs.Winner.{IsRow, joined_row};
ghost use Rattle.rc_position.specs.declared.comps.Comp.{Comp};
ghost use Rattle.rc_position.specs.declared.positions.Pos.{Pos};
ghost use Rattle.rc_rowcode.specs.Spelling.{KeyFits, RowFits};
ghost use Rattle.rc_rowcode.specs.Objects.{dummy_size, entry_size, static_size};
ghost use Rattle.rc_schema.specs.Checks.{checked_prefix, checked_cells};
ghost use Rattle.rc_schema.specs.Largest.{largest_entry, largest_static};
ghost use Rattle.rc_schema.specs.SchemaValue.{SchemaValue, is_schema};
ghost use Rattle.rc_schema.specs.SchemaText.{schema_text, schema_of};

/// The text of a schema within the limits is read as that schema.
#[tactic(auto, using(crate::specs::laws::SchemaTexts::text_reads_back))]
pub fn printed_schemas_read_back()
    ensures { (schema : SchemaValue) → IsTrue (is_schema schema) → schema_of (schema_text schema) ≡ Some schema }
{}

/// A text that is read as a schema is that schema's one text.
#[tactic(auto, using(crate::specs::laws::SchemaTexts::read_is_the_text))]
pub fn read_schemas_print_back()
    ensures { (text : List ℕ) (schema : SchemaValue) → schema_of text ≡ Some schema → schema_text schema ≡ text }
{}

/// A schema that is read is within the limits.
#[tactic(auto, using(crate::specs::laws::SchemaTexts::read_is_within))]
pub fn read_schemas_are_within_limits()
    ensures { (text : List ℕ) (schema : SchemaValue) → schema_of text ≡ Some schema → IsTrue (is_schema schema) }
{}

/// What the checks of a schema let through is within the limits of the codes.
pub fn what_fits_is_within_the_limits()
    ensures key { (full : Bool) (schema : SchemaValue) (key : List Comp) → IsTrue (is_schema schema) →
        checked_prefix full schema key ≡ Ok tt → KeyFits key }
    ensures row { (is_static : Bool) (schema : SchemaValue) (row : Row) → IsTrue (is_schema schema) →
        checked_cells is_static schema row.cells ≡ Ok tt → RowFits row }
{}

/// No dummy at a position that fits a schema, no entry of a row that fits it and no static row that fits it is larger
/// than the schema's largest.
pub fn what_fits_is_no_larger_than_the_largest()
    ensures dummy { (full : Bool) (schema : SchemaValue) (x : Pos) →
        checked_prefix full schema x.prefix ≡ Ok tt → dummy_size x ≤ largest_entry schema }
    ensures entry { (schema : SchemaValue) (key : List Comp) (row : Row) → IsTrue (is_schema schema) → IsRow row →
        checked_prefix true schema key ≡ Ok tt → checked_cells false schema row.cells ≡ Ok tt → entry_size key row ≤ largest_entry schema }
    ensures static_row { (schema : SchemaValue) (row : Row) → IsTrue (is_schema schema) → IsRow row →
        row.marker ≡ None → row.tomb ≡ None → checked_cells true schema row.cells ≡ Ok tt → static_size row ≤ largest_static schema }
{}

/// Rows that fit a schema join to one that fits it.
pub fn what_fits_joins_to_what_fits()
    ensures { (is_static : Bool) (schema : SchemaValue) (rows : List Row) →
        AllByRecursion (λ row. checked_cells is_static schema row.cells ≡ Ok tt) rows → checked_cells is_static schema (joined_row rows).cells ≡ Ok tt }
{}
