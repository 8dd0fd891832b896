//! A partition from the bytes of its items.

ghost use Rattle.std.specs.Prelude.{◌≡◌, ◌≢◌, ◌≤◌, ◌↔◌, ℕ, [], ◌∷◌, ◌++◌, IfOk, IfSome, IsTrue, List, None, Option, Some, drop, length};
ghost use Rattle.std.specs.List.{flat_map, AllByRecursion};
ghost use Rattle.std.specs.Option.{option_map};
ghost use Rattle.rc_cell.specs.declared.rows.Row.{Row};
ghost use Rattle.rc_cell.specs.declared.writes.Tomb.{Tomb};
ghost use Rattle.rc_position.specs.declared.comps.Comp.{Comp};
ghost use Rattle.rc_position.specs.declared.positions.Pos.{Pos};
ghost use Rattle.rc_mutation.specs.declared.fragments.Frag.{Frag};
ghost use Rattle.rc_mutation.specs.declared.mutations.Mutation.{Mutation};
ghost use Rattle.rc_cell.specs.Winner.{empty_row};
ghost use Rattle.rc_mutation.specs.Canonical.{ComesNext};
ghost use Rattle.rc_mutation.specs.Fragments.{tomb_after};
ghost use Rattle.rc_stream.specs.Merging.{place_of};
ghost use Rattle.rc_writes.specs.Allowed.{IsRangeBound, IsRowOf, IsStaticOf};
ghost use Rattle.rc_tfile.specs.Items.{ChangeItem, item_code, IsItem, RowItem};
ghost use Rattle.rc_tables.specs.Located.{ArePartItems};
ghost use Rattle.rc_tables.specs.calls.Rebuilt.{AllCome, frag_code, IsSpellable, MayCome};

use crate::rebuilding::mutation_of;
use rc_cell::{Row, Tomb};
use rc_mutation::canonical::a_canonical_list_is_that_of_a_mutation;
use rc_mutation::{Frag, Mutation};
use rc_position::{Key, PartKey, Pos, Weight};
use rc_schema::Schema;
use rc_tfile::{Part, behind, read_change, read_part, read_row_item};
use rc_writes::{is_bound_of, is_row_of, is_static_of};
use std::alloc::{AllocError, Global};

/// What ends a partition.
const END: u8 = 4;

/// What begins a row.
const ROW: u8 = 2;

/// What the items of the partition of this key say of it, of a table of the schema; none exactly where the bytes are not those of
/// such items. The only error is want of memory.
pub(crate) fn decode(
    alloc: Global,
    bytes: &[u8],
    key: &PartKey,
    schema: &Schema,
) -> Result<Option<Mutation>, AllocError>
    ensures { IfOk result (λ found. (m : Mutation) → (found ≡ Some m) ↔ ArePartItems schema.now key.now m bytes.now) }
{
    let Some((part, size)) = read_part(alloc, bytes)? else {
        return Ok(None);
    };
    if !is_part_of(&part, key, schema) {
        return Ok(None);
    }
    let Some(frags) = read_coming(alloc, &bytes[size..], schema)? else {
        return Ok(None);
    };
    a_canonical_list_is_that_of_a_mutation();
    mutation_of(alloc, part.head, frags.as_slice())
}

// Whether a part has this key, and a static row of the schema.
fn is_part_of(part: &Part, key: &PartKey, schema: &Schema) -> bool
    ensures { IsTrue result ↔ ((part.now.key ≡ key.now) × IsStaticOf schema.now part.now.head.statics) }
{
    if part.key != *key {
        return false;
    }
    is_static_of(schema, &part.head.statics)
}

// The rows and changes of the schema up to the end of a partition, each where it may stand; none exactly where the bytes are not
// such.
fn read_coming(
    alloc: Global,
    bytes: &[u8],
    schema: &Schema,
) -> Result<Option<Vec<Frag>>, AllocError>
    ensures found { (fs : List Frag) → AllByRecursion IsSpellable fs → bytes.now ≡ flat_map frag_code fs ++ 4 ∷ [] → AllCome schema.now None None fs → IfOk result (λ found. option_map (λ v. v.items) found ≡ Some fs) }
    ensures spelled { IfOk result (λ found. IfSome found (λ v. AllByRecursion IsSpellable v.items × (bytes.now ≡ flat_map frag_code v.items ++ 4 ∷ []) × AllCome schema.now None None v.items)) }
{
    let Some(frags) = read_fragments(alloc, bytes)? else {
        return Ok(None);
    };
    if !all_come(alloc, frags.as_slice(), schema)? {
        return Ok(None);
    }
    Ok(Some(frags))
}

// Whether rows and changes of the schema may stand one behind another, as those of a partition.
fn all_come(alloc: Global, frags: &[Frag], schema: &Schema) -> Result<bool, AllocError>
    ensures { IfOk result (λ b. IsTrue b ↔ AllCome schema.now None None frags.now) }
{
    let mut last = None;
    let mut tomb = None;
    let mut left = frags;
    while let [first, rest @ ..] = left {
        let at = place(alloc, first)?;
        if !may_come(first, &at, &last, tomb, schema) {
            return Ok(false);
        }
        tomb = tomb_after(tomb, first);
        last = Some(at);
        left = rest;
    }
    Ok(tomb.is_none())
}

// Whether a fragment that stands here may come behind a last position, with a tombstone in force.
fn may_come(frag: &Frag, at: &Pos, last: &Option<Pos>, tomb: Option<Tomb>, schema: &Schema) -> bool
    requires { at.now ≡ (place_of frag.now).0 }
    ensures { IsTrue result ↔ MayCome schema.now tomb last.now frag.now }
{
    match frag {
        Frag::Row(key, row) => row_may_come(key, row, at, last, schema),
        Frag::Change(_, next) => change_may_come(at, *next, last, tomb, schema),
        Frag::Start(_) => false,
        Frag::Static(_) => false,
        Frag::End => false,
    }
}

// The same of a row.
fn row_may_come(key: &Key, row: &Row, at: &Pos, last: &Option<Pos>, schema: &Schema) -> bool
    ensures { IsTrue result ↔ (ComesNext last.now at.now × (row.now ≢ empty_row) × IsRowOf schema.now key.now row.now) }
{
    is_next(last, at) && is_written(row) && is_row_of(schema, key, row)
}

// The same of a change.
fn change_may_come(
    at: &Pos,
    next: Option<Tomb>,
    last: &Option<Pos>,
    tomb: Option<Tomb>,
    schema: &Schema,
) -> bool
    ensures { IsTrue result ↔ (ComesNext last.now at.now × (next ≢ tomb) × IsRangeBound schema.now at.now) }
{
    is_next(last, at) && differ(next, tomb) && is_bound_of(schema, at)
}

// Whether a position comes behind the last one.
fn is_next(last: &Option<Pos>, at: &Pos) -> bool
    ensures { IsTrue result ↔ ComesNext last.now at.now }
{
    match last {
        None => true,
        Some(last) => last < at,
    }
}

// Whether something was written of a row.
fn is_written(row: &Row) -> bool
    ensures { IsTrue result ↔ (row.now ≢ empty_row) }
{
    !row.is_empty()
}

// Whether two tombstones differ, or there is one alone.
fn differ(tomb: Option<Tomb>, other: Option<Tomb>) -> bool
    ensures { IsTrue result ↔ (tomb ≢ other) }
{
    tomb != other
}

// Where a row or a change stands.
fn place(alloc: Global, frag: &Frag) -> Result<Pos, AllocError>
    ensures { IfOk result (λ x. x ≡ (place_of frag.now).0) }
{
    match frag {
        Frag::Row(key, _) => Ok(Pos {
            prefix: key.copy(alloc)?,
            weight: Weight::At,
        }),
        Frag::Change(from, _) => from.copy(alloc),
        Frag::Start(_) | Frag::Static(_) | Frag::End => Ok(Pos {
            prefix: Key::from_slice(alloc, &[])?,
            weight: Weight::Before,
        }),
    }
}

// The range tombstone in force behind a fragment.
fn tomb_after(tomb: Option<Tomb>, frag: &Frag) -> Option<Tomb>
    ensures { result ≡ tomb_after tomb frag.now }
{
    match frag {
        Frag::Change(_, next) => *next,
        Frag::Start(_) | Frag::Static(_) | Frag::Row(_, _) | Frag::End => tomb,
    }
}

// The rows and changes up to the end of a partition, where the bytes end too; none exactly where they are not such.
fn read_fragments(alloc: Global, bytes: &[u8]) -> Result<Option<Vec<Frag>>, AllocError>
    ensures found { (fs : List Frag) → AllByRecursion IsSpellable fs → bytes.now ≡ flat_map frag_code fs ++ 4 ∷ [] → IfOk result (λ found. option_map (λ v. v.items) found ≡ Some fs) }
    ensures spelled { IfOk result (λ found. IfSome found (λ v. AllByRecursion IsSpellable v.items × (bytes.now ≡ flat_map frag_code v.items ++ 4 ∷ []))) }
{
    let mut made = Vec::new(alloc);
    let mut left = bytes;
    while !is_end(left) {
        let Some((frag, size)) = read_fragment(alloc, left)? else {
            return Ok(None);
        };
        made.push(frag)?;
        left = &left[size..];
    }
    Ok(Some(made))
}

// Whether the bytes are the end of a partition.
fn is_end(bytes: &[u8]) -> bool
    ensures { IsTrue result ↔ (bytes.now ≡ 4 ∷ []) }
{
    match bytes {
        [byte] => *byte == END,
        _ => false,
    }
}

// The row or change that the bytes begin with, and its length; none where they begin with neither.
fn read_fragment(alloc: Global, bytes: &[u8]) -> Result<Option<(Frag, usize)>, AllocError>
    ensures value { (f : Frag) (more : List ℕ) → IsSpellable f → bytes.now ≡ frag_code f ++ more → IfOk result (λ found. found ≡ Some (f, length (frag_code f))) }
    ensures starts { IfOk result (λ found. IfSome found (λ x. IsSpellable x.0 × (bytes.now ≡ frag_code x.0 ++ drop x.1 bytes.now))) }
    ensures within { IfOk result (λ found. IfSome found (λ x. (1 ≤ x.1) × (x.1 ≤ length bytes.now))) }
{
    if let Some(_rest) = behind(ROW, bytes) {
        return read_row_fragment(alloc, bytes);
    }
    read_change_fragment(alloc, bytes)
}

// The row that the bytes begin with, and its length; none where they begin with no row.
fn read_row_fragment(alloc: Global, bytes: &[u8]) -> Result<Option<(Frag, usize)>, AllocError>
    ensures value { (key : List Comp) (row : Row) (more : List ℕ) → IsItem (RowItem key row) → bytes.now ≡ item_code (RowItem key row) ++ more
        → IfOk result (λ found. found ≡ Some (Frag.Row key row, length (item_code (RowItem key row)))) }
    ensures starts { IfOk result (λ found. IfSome found (λ x. IsSpellable x.0 × (bytes.now ≡ frag_code x.0 ++ drop x.1 bytes.now))) }
    ensures within { IfOk result (λ found. IfSome found (λ x. (1 ≤ x.1) × (x.1 ≤ length bytes.now))) }
{
    let Some((keyed, size)) = read_row_item(alloc, bytes)? else {
        return Ok(None);
    };
    let (key, row) = keyed;
    Ok(Some((Frag::Row(key, row), size)))
}

// The change that the bytes begin with, and its length; none where they begin with no change.
fn read_change_fragment(alloc: Global, bytes: &[u8]) -> Result<Option<(Frag, usize)>, AllocError>
    ensures value { (x : Pos) (tomb : Option Tomb) (more : List ℕ) → IsItem (ChangeItem x tomb) → bytes.now ≡ item_code (ChangeItem x tomb) ++ more
        → IfOk result (λ found. found ≡ Some (Frag.Change x tomb, length (item_code (ChangeItem x tomb)))) }
    ensures starts { IfOk result (λ found. IfSome found (λ x. IsSpellable x.0 × (bytes.now ≡ frag_code x.0 ++ drop x.1 bytes.now))) }
    ensures within { IfOk result (λ found. IfSome found (λ x. (1 ≤ x.1) × (x.1 ≤ length bytes.now))) }
{
    let Some((change, size)) = read_change(alloc, bytes)? else {
        return Ok(None);
    };
    let (x, tomb) = change;
    Ok(Some((Frag::Change(x, tomb), size)))
}
