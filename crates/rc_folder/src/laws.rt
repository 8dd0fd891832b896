//! Laws for a server that keeps a folder, each the contract of a function that does nothing.

ghost use Rattle.std.specs.Prelude.{◌≡◌, ◌++◌, ℕ, All, List, Option, Some};
ghost use Rattle.rc_outside.specs.Files.{Files, IsNoFile};
ghost use Rattle.rc_schema.specs.SchemaValue.{SchemaValue};
ghost use Rattle.rc_mutation.specs.declared.mutations.Partition.{Partition};
ghost use Rattle.rc_mutation.specs.declared.mutations.Write.{Write};
ghost use Rattle.rc_mutation.specs.Fragments.{IsParts};
ghost use Rattle.rc_mutation.specs.Source.{IsMutation};
ghost use Rattle.rc_tfile.specs.declared.info.TableInfo.{TableInfo};
ghost use Rattle.rc_tfile.specs.TableText.{PartsFit};
ghost use Rattle.rc_machine.specs.State.{State, unstored_writes};
ghost use Rattle.rc_machine.specs.Standing.{IsOver};
ghost use Rattle.rc_machine.specs.Steps.{with_table};
ghost use Rattle.rc_folder.specs.Tabled.{Tabled, IsTableAdded, IsNextNumber};

/// Where the machine stands over a folder, the parts of the first of the writes that stand in no table are partitions that a table of
/// the schema can hold, as `Folder::add` needs them.
pub fn sealed_parts_fit()
    ensures { (told : Option Files) (schema : SchemaValue) (infos : List TableInfo) (m : State) (sealed later : List Write) (parts : List Partition) →
        IsOver told schema infos m → sealed ++ later ≡ unstored_writes m → IsParts parts sealed → PartsFit schema parts }
{}

/// Where the machine stands over a folder, the number of the next table is no file's, as `Folder::add` needs it.
pub fn next_number_is_no_files()
    ensures { (told : Option Files) (schema : SchemaValue) (infos : List TableInfo) (m : State) (n : ℕ) →
        IsOver told schema infos m → IsNextNumber infos (Some n) → IsNoFile told n }
{}

/// Where the machine stood over a folder, it stands over it with one more table, of the next number, in the state in which the sealed
/// writes stand in that table.
pub fn machine_stands_over_one_more()
    ensures { (told : Option Files) (told' : Option Files) (f : Tabled) (f' : Tabled) (n : ℕ) (m : State) (parts : List Partition) →
        IsOver told f.schema f.infos m → IsNextNumber f.infos (Some n) → IsTableAdded told f n parts told' f' → All (λ p. IsMutation p.change) parts →
        IsOver told' f'.schema f'.infos (with_table m parts) }
{}
