//! The laws of what a memtable stands for, each the contract of a function that does nothing.
ghost use Rattle.std.specs.Prelude.{◌≡◌, ◌≢◌, ◌≤◌, ◌+◌, ℕ, List, Some, IfSome, AllPairs, Contains, length};
ghost use Rattle.rc_cell.specs.declared.rows.Row.{Row};
ghost use Rattle.rc_cell.specs.declared.writes.Tomb.{Tomb};
ghost use Rattle.rc_cell.specs.Winner.{IsRow};
ghost use Rattle.rc_position.specs.declared.positions.Pos.{Pos};
ghost use Rattle.rc_rowcode.specs.Spelling.{row_code};
ghost use Rattle.rc_schema.specs.SchemaValue.{SchemaValue};
ghost use Rattle.rc_mutation.specs.declared.mutations.Write.{Write};
ghost use Rattle.rc_mutation.specs.Source.{SameSource, changes_to};
ghost use Rattle.rc_writes.specs.Weight.{entry_weight};
ghost use Rattle.rc_core.specs.declared.entries.Flag.{Flag};
ghost use Rattle.rc_core.specs.AtPlace.{EachEntry};
ghost use Rattle.rc_core.specs.Steps.{join_flagged_statics, range_joined, row_joined};
ghost use Rattle.rc_core.specs.Version.{IsVersion, Version};
ghost use Rattle.rc_version.specs.Versions.{version_bytes};
ghost use Rattle.rc_memory.specs.Memory.{HasChain, Memory, chain_at, on_chain, with_chains, without_snapshot};
ghost use Rattle.rc_memtable.specs.LetGo.{AreLetGo, IsFreedUnpinned, IsLetGo, TakesNoMore};
ghost use Rattle.rc_memtable.specs.Writes.{HasWrites, chain_of, names};

/// A memtable stands for the same writes where its own chains are as they were, whatever becomes of others, and where a snapshot is taken back; and for any other list that names the same keys and says the same of each.
pub fn what_leaves_a_memtables_chains_leaves_its_writes()
    ensures beside { (schema : SchemaValue) (chains : List (List ℕ × ℕ)) (old new : Memory) (writes : List Write) → ((key : List ℕ) (id : ℕ) → chain_of chains key ≡ Some id → chain_at new id ≡ chain_at old id) →
        HasWrites schema chains old writes → HasWrites schema chains new writes }
    ensures released { (schema : SchemaValue) (chains : List (List ℕ × ℕ)) (old : Memory) (id pin : ℕ) (writes : List Write) →
        HasWrites schema chains old writes → HasWrites schema chains (with_chains (on_chain id (without_snapshot pin) old.chains) old) writes }
    ensures alike { (schema : SchemaValue) (chains : List (List ℕ × ℕ)) (m : Memory) (writes others : List Write) → ((key : List ℕ) → names key others ≡ names key writes) → ((key : List ℕ) → SameSource (changes_to key writes) (changes_to key others)) →
        HasWrites schema chains m writes → HasWrites schema chains m others }
{}

/// With something joined in it a version takes more by at most what that weighs: for a row its code and an entry at its position, for a range tombstone an entry at both bounds, for a static row its code and 40 bytes. Two rows joined are spelled in at most as many bytes as both.
pub fn what_is_joined_adds_at_most_its_weight()
    ensures row { (x : Pos) (row : Row) (v : Version) → IsRow row → IsVersion v → EachEntry (λ e. IfSome e.row IsRow) v.entries → version_bytes (row_joined x row v) ≤ version_bytes v + (entry_weight x + length (row_code row)) }
    ensures range { (from to : Pos) (tomb : Tomb) (v : Version) → version_bytes (range_joined from to tomb v) ≤ version_bytes v + (entry_weight from + entry_weight to) }
    ensures statics { (row : Row) (flag : Flag) (v : Version) → IsRow row → IfSome v.statics IsRow → version_bytes (join_flagged_statics row flag v) ≤ version_bytes v + (40 + length (row_code row)) }
{}

/// Where a chain that is there is let go, or freed where nobody pins it, the region has as many segments, and no more is live in it. So where several are, each of which is there, each once.
pub fn what_is_let_go_takes_no_more()
    ensures one { (id : ℕ) (old new : Memory) → HasChain old id → IsLetGo id old new → TakesNoMore old new }
    ensures freed { (id : ℕ) (old new : Memory) → HasChain old id → IsFreedUnpinned id old new → TakesNoMore old new }
    ensures all { (ids : List ℕ) (old new : Memory) → AllPairs ◌≢◌ ids → ((id : ℕ) → Contains ids id → HasChain old id) → AreLetGo ids old new → TakesNoMore old new }
{}
