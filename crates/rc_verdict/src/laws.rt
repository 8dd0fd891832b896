//! The law of this crate, the contract of a function that does nothing.

ghost use Rattle.std.specs.Prelude.{◌≡◌, ℕ, IfErr, List, Result};
ghost use Rattle.rc_schema.specs.SchemaValue.{SchemaValue};
ghost use Rattle.rc_mutation.specs.declared.mutations.Partition.{Partition};
ghost use Rattle.rc_tfile.specs.declared.checking.CheckErr.{CheckErr};
ghost use Rattle.rc_tfile.specs.declared.info.TableInfo.{TableInfo};
ghost use Rattle.rc_tfile.specs.Checking.{IsHostError};
ghost use Rattle.rc_tfile.specs.TableText.{whole_table, IsTable, IsOtherSchema, FirstDamage};
ghost use Rattle.rc_tfile.specs.Walking.{ChecksTable};

/// A text that is a table of a schema has no first damage and no head of another schema; a text has its first damage at one offset,
/// and then no head of another schema; and the items of a table are one list, whatever partitions they are of. So there is one
/// answer that `check_table` may give of a file, but for a fault of the store and want of memory (`one_answer`).
pub fn no_text_has_two_verdicts()
    ensures not_damaged { (bytes : List ℕ) (schema : SchemaValue) (parts : List Partition) (off : ℕ) →
        IsTable bytes schema parts → FirstDamage bytes schema off → ⊥ }
    ensures not_other { (bytes : List ℕ) (schema : SchemaValue) (parts : List Partition) →
        IsTable bytes schema parts → IsOtherSchema bytes schema → ⊥ }
    ensures one_damage { (bytes : List ℕ) (schema : SchemaValue) (one two : ℕ) →
        FirstDamage bytes schema one → FirstDamage bytes schema two → one ≡ two }
    ensures damaged_is_not_other { (bytes : List ℕ) (schema : SchemaValue) (off : ℕ) →
        FirstDamage bytes schema off → IsOtherSchema bytes schema → ⊥ }
    ensures one_table { (bytes : List ℕ) (schema : SchemaValue) (one two : List Partition) →
        IsTable bytes schema one → IsTable bytes schema two → whole_table schema one ≡ whole_table schema two }
    ensures one_answer { (bytes : List ℕ) (n : ℕ) (schema : SchemaValue) (one two : Result TableInfo CheckErr) →
        ChecksTable bytes n schema one → ChecksTable bytes n schema two →
        IfErr one (λ e. IsHostError e → ⊥) → IfErr two (λ e. IsHostError e → ⊥) → one ≡ two }
{}
