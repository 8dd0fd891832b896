//! Laws of lines, each the contract of a function that does nothing.

ghost use Rattle.std.specs.Prelude.{◌≡◌, ◌≤◌, List, ℕ, ℤ, length, true, IsTrue, is_some, Ok, Option, Some, take};
ghost use Rattle.std.specs.Int.{w64};
ghost use Rattle.std.specs.Int.RustNames.{FitsSigned};
ghost use Rattle.rc_cell.specs.declared.writes.Tomb.{Tomb};
ghost use Rattle.rc_cell.specs.Winner.{IsRow};
ghost use Rattle.rc_position.specs.declared.comps.Comp.{Comp};
ghost use Rattle.rc_rowcode.specs.Spelling.{IsTomb};
ghost use Rattle.rc_schema.specs.Checks.{is_key_of};
ghost use Rattle.rc_schema.specs.SchemaValue.{SchemaValue, is_schema};
ghost use Rattle.rc_spelling.specs.Printed.{AreBytes};
ghost use Rattle.rc_spelling.specs.Words.{words};
ghost use Rattle.rc_writes.specs.Allowed.{IsRowOf};
ghost use Rattle.rc_writes.specs.Single.{partition_alone, row_alone};
ghost use Rattle.rc_lines.specs.declared.commands.Command.{Command};
ghost use Rattle.rc_lines.specs.declared.commands.Command.TheVariants.{Put};
ghost use Rattle.rc_lines.specs.declared.shapes.Shape.{Shape};
ghost use Rattle.rc_lines.specs.Fits.{CommandFits};
ghost use Rattle.rc_lines.specs.Grammar.{longest_line, parse};
ghost use Rattle.rc_lines.specs.calls.ByShape.{parse_by_shape, shape_meaning};
ghost use Rattle.rc_lines.specs.Lines.{AreComponents, AreValues, IsPartitionKey, IsSayableCommand, command_line, dead_row, delete_text, delpart_text, insert_text, live_row};
ghost use Rattle.rc_lines.specs.Plain.{HasCounts, plain_line};
ghost use Rattle.rc_lines.specs.Sayable.{IsSayable, shape_line};
ghost use Rattle.rc_lines.specs.calls.Shapes.{shape_of};

use crate::reading::LONGEST_LINE;

/// The constant is the grammar's number.
pub fn longest_line_is_named()
    ensures { LONGEST_LINE ≡ longest_line }
{}

/// A line means by the form of its words what it means by their shape, by which it is read.
pub fn lines_are_read_by_shape()
    ensures { (taken : Option SchemaValue) (line : List ℕ) → parse taken line ≡ parse_by_shape taken line }
{}

/// The first 65,537 bytes of a line mean what the whole line means, so no more of a line need be kept.
#[tactic(auto, using(crate::specs::laws::long_lines_are_cut))]
pub fn long_lines_are_cut()
    ensures { (taken : Option SchemaValue) (line : List ℕ) → parse taken (take 65537 line) ≡ parse taken line }
{}

/// Each command that a line gives under a schema fits it: a write is single and fits the schema, and the bounds of a reader
/// fit it, the first below the second.
#[tactic(auto, using(crate::specs::laws::FittingCommands::commands_fit))]
pub fn commands_fit_their_schema()
    ensures { (schema : SchemaValue) (line : List ℕ) (command : Command) → parse (Some schema) line ≡ Ok command → CommandFits schema command }
{}

/// The line of each command that names no partition and no schema is read back as it, where its ids and counts are from 1 to
/// 4,294,967,295.
pub fn plain_commands_read_back()
    ensures { (schema : SchemaValue) (command : Command) (line : List ℕ) → plain_line command ≡ Some line → HasCounts command → parse (Some schema) line ≡ Ok command }
{}

/// What one line can say before a schema is known has a line that says it.
pub fn sayable_lines_read_back()
    ensures { (shape : Shape) (line : List ℕ) → shape_line shape ≡ Some line → IsSayable shape → shape_of (words line) ≡ Some shape }
{}

/// The line of what one line can say commands what it means under the schema that was taken, if one was, where it is not too long.
pub fn sayable_lines_are_meant()
    ensures { (taken : Option SchemaValue) (shape : Shape) (line : List ℕ) → shape_line shape ≡ Some line → IsSayable shape → length line ≤ longest_line →
        parse taken line ≡ shape_meaning taken (Some shape) }
{}

/// The line of each command that fits the schema, and that one line can say, is read back as it under that schema.
pub fn commands_read_back()
    ensures { (schema : SchemaValue) (command : Command) (line : List ℕ) → IsTrue (is_schema schema) → CommandFits schema command → IsSayableCommand command →
        command_line schema command ≡ Some line → parse (Some schema) line ≡ Ok command }
{}

/// Each command that a line of bytes gives under a schema is one that one line can say, and has a line.
pub fn lines_give_what_one_line_can_say()
    ensures { (schema : SchemaValue) (line : List ℕ) (command : Command) → AreBytes line → parse (Some schema) line ≡ Ok command →
        IsSayableCommand command × IsTrue (is_some (command_line schema command)) }
{}

/// Each command that a line of bytes gives under a schema has its one line, which gives it too.
pub fn each_command_has_its_line()
    ensures { (schema : SchemaValue) (line : List ℕ) (command : Command) → IsTrue (is_schema schema) → AreBytes line → parse (Some schema) line ≡ Ok command →
        (own : List ℕ) × (command_line schema command ≡ Some own) × (parse (Some schema) own ≡ Ok command) }
{}

/// An insert, with its key and values as replies print them, writes a marker and live cells of its timestamp to the row, and
/// nothing else.
pub fn inserts_read_back()
    ensures { (schema : SchemaValue) (key : List ℕ) (ck : List Comp) (ts : ℤ) (values : List (ℕ × List ℕ)) → IsTrue (is_schema schema) → IsPartitionKey key →
        AreComponents ck → FitsSigned w64 ts → AreValues values → IsRowOf schema ck (live_row ts values) → IsRow (live_row ts values) →
        parse (Some schema) (insert_text schema.cols key ck ts values) ≡ Ok (Put (record { key = key; change = row_alone ck (live_row ts values) })) }
{}

/// The deletion of a row, with its key as replies print it, writes its tombstone, and nothing else.
pub fn deletes_read_back()
    ensures { (schema : SchemaValue) (key : List ℕ) (ck : List Comp) (tomb : Tomb) → IsTrue (is_schema schema) → IsPartitionKey key → AreComponents ck → IsTomb tomb →
        IsTrue (is_key_of true schema ck) →
        parse (Some schema) (delete_text key ck tomb) ≡ Ok (Put (record { key = key; change = row_alone ck (dead_row tomb) })) }
{}

/// The deletion of a partition writes its tombstone, and nothing else.
pub fn partition_deletes_read_back()
    ensures { (schema : SchemaValue) (key : List ℕ) (tomb : Tomb) → IsTrue (is_schema schema) → IsPartitionKey key → IsTomb tomb →
        parse (Some schema) (delpart_text key tomb) ≡ Ok (Put (record { key = key; change = partition_alone tomb })) }
{}
