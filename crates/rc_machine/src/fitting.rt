//! What was written under a schema fits a table of it, and what fits makes one: laws, each the contract of a function that does nothing.

ghost use Rattle.std.specs.Prelude.{All, List};
ghost use Rattle.std.specs.List.{AllByRecursion};
ghost use Rattle.rc_schema.specs.SchemaValue.{SchemaValue};
ghost use Rattle.rc_mutation.specs.declared.mutations.Partition.{Partition};
ghost use Rattle.rc_mutation.specs.declared.mutations.Write.{Write};
ghost use Rattle.rc_mutation.specs.Fragments.{IsParts};
ghost use Rattle.rc_mutation.specs.Source.{IsMutation};
ghost use Rattle.rc_lines.specs.declared.commands.Command.TheVariants.{Put};
ghost use Rattle.rc_lines.specs.Fits.{CommandFits};
ghost use Rattle.rc_tfile.specs.Before.{text};
ghost use Rattle.rc_tfile.specs.Items.{IsItem};
ghost use Rattle.rc_tfile.specs.TableText.{whole_table, PartsFit, AllFit, IsTable};

/// The parts of writes that fit a schema are partitions that a table of it can hold: their keys strictly ascend, and each has a
/// static row, rows and range bounds of the schema.
pub fn parts_of_fitting_writes_fit()
    ensures { (schema : SchemaValue) (parts : List Partition) (writes : List Write) → IsParts parts writes →
        All (λ w. CommandFits schema (Put w)) writes → PartsFit schema parts }
{}

/// Partitions that a table of a schema can hold make a table of it, if each item of theirs is within its limits, as `write_table`
/// and `plan_table` answer: each item fits where it stands, and the text that is written of them is a table.
pub fn fitting_parts_make_a_table()
    ensures items_fit { (schema : SchemaValue) (parts : List Partition) → PartsFit schema parts →
        All (λ p. IsMutation p.change) parts → AllByRecursion IsItem (whole_table schema parts) → AllFit schema (whole_table schema parts) }
    ensures text_is_one { (schema : SchemaValue) (parts : List Partition) → PartsFit schema parts →
        All (λ p. IsMutation p.change) parts → AllByRecursion IsItem (whole_table schema parts) → IsTable (text (whole_table schema parts)) schema parts }
{}
