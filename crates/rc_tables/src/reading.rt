//! A partition read from all tables of a set.

ghost use Rattle.std.specs.Prelude.{◌≡◌, ◌≢◌, ◌≤◌, ◌<◌, ◌+◌, ◌*◌, [], ◌∷◌, ◌++◌, true, false, All, ℕ, IfErr, IfOk, IfSome, IfNone, IsTrue, List, Option, drop, length, map, OnOk};
ghost use Rattle.std.specs.FinMap.{is_sorted};
ghost use Rattle.std.specs.List.{HoldsAt};
ghost use Rattle.rc_outside.specs.Files.{Files, HoldsSameFiles};
ghost use Rattle.rc_position.specs.Position.{bytes_cmp};
ghost use Rattle.rc_schema.specs.SchemaValue.{SchemaValue};
ghost use Rattle.rc_mutation.specs.declared.mutations.Mutation.{Mutation};
ghost use Rattle.rc_mutation.specs.declared.mutations.Partition.{Partition};
ghost use Rattle.rc_mutation.specs.Source.{IsJoinOf, IsMutation};
ghost use Rattle.rc_stream.specs.Causes.{Caused};
ghost use Rattle.rc_tables.specs.Located.{WhereTold};
ghost use Rattle.rc_tables.specs.Tables.{AreHeld, changes_at, changes_in, HoldsTables, IsDamageOf, IsJoinedAt, IsSomeJoin, listing};
ghost use Rattle.rc_tables.specs.calls.Tables.{JoinsSome};

use crate::partition::read_partition;
use crate::sets::TableSet;
use rc_mutation::Mutation;
use rc_outside::Store;
use rc_position::PartKey;
use rc_schema::Schema;
use rc_stream::StreamErr;
use rc_tfile::{PartRef, TableInfo};
use std::alloc::Global;

/// What all tables of the set, which are of the schema, say of the key, joined: whatever the files hold, the join of some changes,
/// at most one of each table that lists the key, each within the limits and of the schema. Of each table that lists the key at most
/// two ranges are asked for. `StreamErr::Fault` when the store fails, `StreamErr::Damaged` where bytes that were read of a file
/// contradict the table that is known, `StreamErr::NoMemory` when memory is refused.
pub fn read_joined<W: Store>(
    alloc: Global,
    store: &mut W,
    set: &TableSet,
    schema: &Schema,
    key: &PartKey,
) -> Result<Mutation, StreamErr>
    requires { WhereTold (W.files store.old) (AreHeld (W.files store.old) schema.now set.now) }
    ensures joined { (tables : List (ℕ × List Partition)) → HoldsTables (W.files store.old) schema.now set.now tables → IfOk result (IsJoinedAt key.now tables) }
    ensures some { IfOk result (IsSomeJoin schema.now set.now key.now) }
    ensures mutation { IfOk result IsMutation }
    ensures damaged { IfErr result (IsDamageOf schema.now key.now set.now) }
    ensures cause { Caused result (W.files store.old) (W.faults store.old) (W.faults store.new) }
    ensures store { HoldsSameFiles W.files W.building store.old store.new }
    ensures asks { W.asks store.new ≤ W.asks store.old + 2 * listing key.now set.now }
{
    let mut joined = Mutation::empty(alloc);
    let mut left = set.tables();
    while let [first, rest @ ..] = left {
        join_table(alloc, store, first.as_ref(), schema, key, &mut joined)?;
        left = rest;
    }
    joined.holds_together();
    Ok(joined)
}

// Joins what a table says of the key.
fn join_table<W: Store>(
    alloc: Global,
    store: &mut W,
    info: &TableInfo,
    schema: &Schema,
    key: &PartKey,
    joined: &mut Mutation,
) -> Result<(), StreamErr>
    requires { WhereTold (W.files store.old) (AreHeld (W.files store.old) schema.now (info.now ∷ [])) }
    ensures joined { (table : ℕ × List Partition) (done : List Mutation) → HoldsTables (W.files store.old) schema.now (info.now ∷ []) (table ∷ []) → IsJoinOf joined.old done
        → OnOk result (IsJoinOf joined.new (done ++ changes_in key.now table.1)) }
    ensures some { OnOk result (JoinsSome schema.now (info.now ∷ []) key.now joined.old joined.new) }
    ensures damaged { IfErr result (IsDamageOf schema.now key.now (info.now ∷ [])) }
    ensures cause { Caused result (W.files store.old) (W.faults store.old) (W.faults store.new) }
    ensures store { HoldsSameFiles W.files W.building store.old store.new }
    ensures asks { W.asks store.new ≤ W.asks store.old + 2 * listing key.now (info.now ∷ []) }
{
    let parts = info.parts.as_slice();
    let Some(at) = find(parts, key) else {
        return Ok(());
    };
    let dir = parts[0].dir_off;
    let change = read_partition(
        alloc,
        store,
        info.number,
        dir,
        &parts[at],
        &parts[at + 1..],
        schema,
    )?;
    match joined.join(alloc, &change) {
        Ok(()) => Ok(()),
        Err(_) => Err(StreamErr::NoMemory),
    }
}

/// Whether one of the tables of a set lists a key, of those behind as many as the first ones are; if none does they say nothing of it. Each
/// directory is searched by halves, so one whose keys do not ascend, as no table's are, may list it unseen.
pub fn lists_behind(set: &TableSet, first: &TableSet, key: &PartKey) -> bool
    ensures listed { result ≡ true → 0 < listing key.now (drop (length first.now) set.now) }
    ensures none { result ≡ false → (files : Option Files) (schema : SchemaValue) (tables : List (ℕ × List Partition)) → HoldsTables files schema (drop (length first.now) set.now) tables → changes_at key.now tables ≡ [] }
{
    let tables = set.tables();
    let count = first.tables().len();
    if tables.len() <= count {
        return false;
    }
    let mut left = &tables[count..];
    while let [info, rest @ ..] = left {
        if lists(info.as_ref(), key) {
            return true;
        }
        left = rest;
    }
    false
}

// Whether a table lists the key.
fn lists(info: &TableInfo, key: &PartKey) -> bool
    ensures listed { result ≡ true → listing key.now (info.now ∷ []) ≡ 1 }
    ensures absent { result ≡ false → IsTrue (is_sorted bytes_cmp (map (λ r. (r.key, r.dir_off)) info.now.parts)) → All (λ r. r.key ≢ key.now) info.now.parts }
{
    find(info.parts.as_slice(), key).is_some()
}

// Where a table lists the key, if it does.
fn find(parts: &[PartRef], key: &PartKey) -> Option<usize>
    ensures found { IfSome result (λ i. (i < length parts.now) × HoldsAt (λ r. r.key ≡ key.now) parts.now i) }
    ensures absent { IsTrue (is_sorted bytes_cmp (map (λ r. (r.key, r.dir_off)) parts.now)) → IfNone result (All (λ r. r.key ≢ key.now) parts.now) }
{
    match place_of(parts, key) {
        Ok(at) => Some(at),
        Err(_) => None,
    }
}

// Where a table lists the key, or would list it.
fn place_of(parts: &[PartRef], key: &PartKey) -> Result<usize, usize>
    ensures found { IfOk result (λ i. (i < length parts.now) × HoldsAt (λ r. r.key ≡ key.now) parts.now i) }
    ensures absent { IsTrue (is_sorted bytes_cmp (map (λ r. (r.key, r.dir_off)) parts.now)) → IfErr result (λ _. All (λ r. r.key ≢ key.now) parts.now) }
{
    parts.binary_search_by(|part| part.key.cmp(key))
}
