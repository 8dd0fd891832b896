//! Tables written, and planned: what their text will be.

ghost use Rattle.std.specs.Prelude.{◌≡◌, ◌++◌, [], ◌∷◌, IfOk, OnOk, MatchResult, IsSome, None, length, All};
ghost use Rattle.std.specs.List.{flat_map, AllByRecursion};
ghost use Rattle.rc_position.specs.Position.{row_pos};
ghost use Rattle.rc_outside.specs.Files.{IsNoFile, grown_draft};
ghost use Rattle.rc_rowcode.specs.Spelling.{KeyFits, RowFits};
ghost use Rattle.rc_writes.specs.Limits.{IsWithinLimits};
ghost use Rattle.rc_items.specs.Items.{item_code, HeadItem, RowItem, ChangeItem, StopItem, TailItem, IsItem};
ghost use Rattle.rc_items.specs.Before.{ItemsBefore, followed_by, text};
ghost use Rattle.rc_items.specs.Blocks.{entry_items, ending};
ghost use Rattle.rc_tfile.specs.Info.{info_of};
ghost use Rattle.rc_items.specs.Outlined.{IsListed, IsOutline};
ghost use Rattle.rc_outside.specs.Faults.{RisesIfFault};
ghost use Rattle.rc_tfile.specs.Stored.{with_file, OnWriteFault};
ghost use Rattle.rc_tfile.specs.calls.Stored.{write_err_of};
ghost use Rattle.rc_tfile.specs.calls.Limits.{FragFits};
ghost use Rattle.rc_items.specs.TableText.{frag_items, part_items, whole_table, PartsFit};

use crate::directory::{refs_of, spell_entry, tail_of};
use crate::info::TableInfo;
use rc_cell::{Row, Tomb};
use rc_items::{
    END, Listed, Outline, STOP, append_change, append_head, append_part, append_row, row_pos,
};
use rc_mutation::{Frag, Partition};
use rc_outside::{Store, StoreErr};
use rc_position::{Key, Pos, Weight};
use rc_rowcode::{key_in_range, row_in_range, tomb_in_range};
use rc_schema::Schema;
use std::alloc::{AllocError, Global};
use thiserror::Error;

/// Why a table was not written.
#[derive(Debug, Drop, Error)]
pub enum WriteErr {
    /// The store failed.
    #[error("the store failed")]
    Fault,
    /// Memory ran out, or a number would pass the format's width.
    #[error("out of memory")]
    NoMemory,
}

// What the store refused.
fn refused(err: StoreErr) -> WriteErr
    ensures { result ≡ write_err_of err }
{
    match err {
        StoreErr::Fault => WriteErr::Fault,
        StoreErr::NoMemory => WriteErr::NoMemory,
    }
}

// The row of a key, appended and taken into the outline.
fn spell_row(
    alloc: Global,
    key: &Key,
    row: &Row,
    outline: &mut Outline,
    out: &mut Vec<u8>,
) -> Result<(), AllocError>
    requires key { KeyFits key.now }
    requires row { RowFits row.now }
    requires opened { IsSome outline.old.key }
    ensures opened { IsSome outline.new.key }
    ensures outline { (before : ItemsBefore) → IsOutline before outline.old → OnOk result (IsOutline (RowItem key.now row.now ∷ before) outline.new) }
    ensures bytes { OnOk result (out.new.items ≡ out.old.items ++ item_code (RowItem key.now row.now)) }
    ensures item { IsItem (RowItem key.now row.now) }
{
    key_in_range(key);
    row_in_range(row);
    let start = out.len();
    append_row(alloc, key, row, out)?;
    let x = row_pos(alloc, key)?;
    outline.fragment(alloc, &x, outline.tomb, out.len() - start)
}

// A change of the tombstone in force, appended and taken into the outline.
fn spell_change(
    alloc: Global,
    x: &Pos,
    tomb: Option<Tomb>,
    outline: &mut Outline,
    out: &mut Vec<u8>,
) -> Result<(), AllocError>
    requires key { KeyFits x.now.prefix }
    requires opened { IsSome outline.old.key }
    ensures opened { IsSome outline.new.key }
    ensures outline { (before : ItemsBefore) → IsOutline before outline.old → OnOk result (IsOutline (ChangeItem x.now tomb ∷ before) outline.new) }
    ensures bytes { OnOk result (out.new.items ≡ out.old.items ++ item_code (ChangeItem x.now tomb)) }
    ensures item { IsItem (ChangeItem x.now tomb) }
{
    key_in_range(&x.prefix);
    tomb_in_range(tomb);
    let start = out.len();
    append_change(alloc, x, tomb, out)?;
    outline.fragment(alloc, x, tomb, out.len() - start)
}

// A fragment, appended and taken into the outline. The start and the static row stand in the part.
fn spell_fragment(
    alloc: Global,
    frag: &Frag,
    outline: &mut Outline,
    out: &mut Vec<u8>,
) -> Result<(), AllocError>
    requires fits { FragFits frag.now }
    requires opened { IsSome outline.old.key }
    ensures opened { IsSome outline.new.key }
    ensures outline { (before : ItemsBefore) → IsOutline before outline.old → OnOk result (IsOutline (followed_by before (frag_items frag.now)) outline.new) }
    ensures bytes { OnOk result (out.new.items ≡ out.old.items ++ flat_map item_code (frag_items frag.now)) }
    ensures items { AllByRecursion IsItem (frag_items frag.now) }
{
    match frag {
        Frag::Start(_) => Ok(()),
        Frag::Static(_) => Ok(()),
        Frag::Row(key, row) => spell_row(alloc, key, row, outline, out),
        Frag::Change(x, tomb) => spell_change(alloc, x, *tomb, outline, out),
        Frag::End => {
            out.push(END)?;
            outline.end(alloc)
        }
    }
}

// Fragments in their order.
fn spell_fragments(
    alloc: Global,
    frags: &[Frag],
    outline: &mut Outline,
    out: &mut Vec<u8>,
) -> Result<(), AllocError>
    requires fit { All FragFits frags.now }
    requires opened { IsSome outline.old.key }
    ensures outline { (before : ItemsBefore) → IsOutline before outline.old → OnOk result (IsOutline (followed_by before (flat_map frag_items frags.now)) outline.new) }
    ensures bytes { OnOk result (out.new.items ≡ out.old.items ++ flat_map item_code (flat_map frag_items frags.now)) }
    ensures items { OnOk result (AllByRecursion IsItem (flat_map frag_items frags.now)) }
{
    for frag in frags {
        spell_fragment(alloc, frag, outline, out)?;
    }
    Ok(())
}

// A partition's items: its part, and its canonical fragments.
fn spell_part(
    alloc: Global,
    part: &Partition,
    outline: &mut Outline,
    out: &mut Vec<u8>,
) -> Result<(), AllocError>
    requires { IsWithinLimits part.now.change }
    ensures outline { (before : ItemsBefore) → IsOutline before outline.old → OnOk result (IsOutline (followed_by before (part_items part.now)) outline.new) }
    ensures bytes { OnOk result (out.new.items ≡ out.old.items ++ flat_map item_code (part_items part.now)) }
    ensures items { OnOk result (AllByRecursion IsItem (part_items part.now)) }
{
    let start = out.len();
    let change = &part.change;
    change.holds_together();
    tomb_in_range(change.pt);
    let statics = change.statics.as_row();
    row_in_range(statics);
    let _key = part.key.as_slice();
    append_part(alloc, &part.key, change.pt, statics, out)?;
    outline.part(alloc, &part.key, out.len() - start)?;
    let list = change.fragments(alloc)?;
    spell_fragments(alloc, list.as_slice(), outline, out)
}

// Appends a piece to the table that is being built.
fn append<W: Store>(alloc: Global, store: &mut W, piece: &[u8]) -> Result<(), WriteErr>
    requires { IsSome (W.building store.old) }
    ensures files { W.files store.new ≡ W.files store.old }
    ensures asks { W.asks store.new ≡ W.asks store.old }
    ensures faults { RisesIfFault OnWriteFault result (W.faults store.old) (W.faults store.new) }
    ensures building { OnOk result (W.building store.new ≡ grown_draft (W.building store.old) piece.now) }
{
    match store.append(alloc, piece) {
        Ok(()) => Ok(()),
        Err(err) => Err(refused(err)),
    }
}

// The head of a table, and the outline behind it.
fn write_head<W: Store>(alloc: Global, schema: &Schema, store: &mut W) -> Result<Outline, WriteErr>
    requires { IsSome (W.building store.old) }
    ensures files { W.files store.new ≡ W.files store.old }
    ensures asks { W.asks store.new ≡ W.asks store.old }
    ensures faults { RisesIfFault OnWriteFault result (W.faults store.old) (W.faults store.new) }
    ensures building { OnOk result (W.building store.new ≡ grown_draft (W.building store.old) (item_code (HeadItem schema.now))) }
    ensures outline { IfOk result (λ outline. IsOutline (HeadItem schema.now ∷ []) outline) }
    ensures item { IfOk result (λ _. IsItem (HeadItem schema.now)) }
{
    let _limits = schema.ck();
    let mut out = Vec::new(alloc);
    match append_head(alloc, schema, &mut out) {
        Ok(()) => {
            append(alloc, store, out.as_slice())?;
            Ok(Outline::new(alloc, out.len()))
        }
        Err(_) => Err(WriteErr::NoMemory),
    }
}

// A partition of a table.
fn write_part<W: Store>(
    alloc: Global,
    part: &Partition,
    outline: &mut Outline,
    store: &mut W,
) -> Result<(), WriteErr>
    requires limits { IsWithinLimits part.now.change }
    requires building { IsSome (W.building store.old) }
    ensures files { W.files store.new ≡ W.files store.old }
    ensures asks { W.asks store.new ≡ W.asks store.old }
    ensures faults { RisesIfFault OnWriteFault result (W.faults store.old) (W.faults store.new) }
    ensures building { OnOk result (W.building store.new ≡ grown_draft (W.building store.old) (flat_map item_code (part_items part.now))) }
    ensures items { OnOk result (AllByRecursion IsItem (part_items part.now)) }
    ensures outline { (before : ItemsBefore) → IsOutline before outline.old → OnOk result (IsOutline (followed_by before (part_items part.now)) outline.new) }
{
    let mut out = Vec::new(alloc);
    match spell_part(alloc, part, outline, &mut out) {
        Ok(()) => append(alloc, store, out.as_slice()),
        Err(_) => Err(WriteErr::NoMemory),
    }
}

// The partitions of a table.
fn write_parts<W: Store>(
    alloc: Global,
    parts: &[Partition],
    outline: &mut Outline,
    store: &mut W,
) -> Result<(), WriteErr>
    requires limits { All (λ p. IsWithinLimits p.change) parts.now }
    requires building { IsSome (W.building store.old) }
    ensures files { W.files store.new ≡ W.files store.old }
    ensures asks { W.asks store.new ≡ W.asks store.old }
    ensures faults { RisesIfFault OnWriteFault result (W.faults store.old) (W.faults store.new) }
    ensures building { OnOk result (W.building store.new ≡ grown_draft (W.building store.old) (flat_map item_code (flat_map part_items parts.now))) }
    ensures items { OnOk result (AllByRecursion IsItem (flat_map part_items parts.now)) }
    ensures outline { (before : ItemsBefore) → IsOutline before outline.old → OnOk result (IsOutline (followed_by before (flat_map part_items parts.now)) outline.new) }
{
    for part in parts {
        write_part(alloc, part, outline, store)?;
    }
    Ok(())
}

// A partition in the directory of a table.
fn write_entry<W: Store>(alloc: Global, listed: &Listed, store: &mut W) -> Result<(), WriteErr>
    requires { IsSome (W.building store.old) }
    ensures files { W.files store.new ≡ W.files store.old }
    ensures asks { W.asks store.new ≡ W.asks store.old }
    ensures faults { RisesIfFault OnWriteFault result (W.faults store.old) (W.faults store.new) }
    ensures building { OnOk result (W.building store.new ≡ grown_draft (W.building store.old) (flat_map item_code (entry_items listed.now))) }
    ensures items { OnOk result (AllByRecursion IsItem (entry_items listed.now)) }
{
    let mut out = Vec::new(alloc);
    match spell_entry(alloc, listed, &mut out) {
        Ok(()) => append(alloc, store, out.as_slice()),
        Err(_) => Err(WriteErr::NoMemory),
    }
}

// The directory of a table.
fn write_entries<W: Store>(alloc: Global, entries: &[Listed], store: &mut W) -> Result<(), WriteErr>
    requires { IsSome (W.building store.old) }
    ensures files { W.files store.new ≡ W.files store.old }
    ensures asks { W.asks store.new ≡ W.asks store.old }
    ensures faults { RisesIfFault OnWriteFault result (W.faults store.old) (W.faults store.new) }
    ensures building { OnOk result (W.building store.new ≡ grown_draft (W.building store.old) (flat_map item_code (flat_map entry_items entries.now))) }
    ensures items { OnOk result (AllByRecursion IsItem (flat_map entry_items entries.now)) }
{
    for listed in entries {
        write_entry(alloc, listed, store)?;
    }
    Ok(())
}

// The tail of a table.
fn write_tail<W: Store>(alloc: Global, outline: &Outline, store: &mut W) -> Result<(), WriteErr>
    requires { IsSome (W.building store.old) }
    ensures files { W.files store.new ≡ W.files store.old }
    ensures asks { W.asks store.new ≡ W.asks store.old }
    ensures faults { RisesIfFault OnWriteFault result (W.faults store.old) (W.faults store.new) }
    ensures building { OnOk result (W.building store.new ≡ grown_draft (W.building store.old) (item_code (TailItem outline.now.off (length outline.now.listed.items)))) }
    ensures item { OnOk result (IsItem (TailItem outline.now.off (length outline.now.listed.items))) }
{
    match tail_of(alloc, outline.off, outline.listed.len()) {
        Ok(out) => append(alloc, store, out.as_slice()),
        Err(_) => Err(WriteErr::NoMemory),
    }
}

// The stop, the directory and the tail of a table.
fn write_listed<W: Store>(alloc: Global, outline: &Outline, store: &mut W) -> Result<(), WriteErr>
    requires { IsSome (W.building store.old) }
    ensures files { W.files store.new ≡ W.files store.old }
    ensures asks { W.asks store.new ≡ W.asks store.old }
    ensures faults { RisesIfFault OnWriteFault result (W.faults store.old) (W.faults store.new) }
    ensures building { (before : ItemsBefore) → IsListed before outline.now →
        OnOk result (W.building store.new ≡ grown_draft (W.building store.old) (flat_map item_code (StopItem ∷ ending before))) }
    ensures items { (before : ItemsBefore) → IsListed before outline.now → OnOk result (AllByRecursion IsItem (ending before)) }
{
    append(alloc, store, &[STOP])?;
    write_entries(alloc, outline.listed.as_slice(), store)?;
    write_tail(alloc, outline, store)
}

// What stands behind the partitions of a table.
fn write_ending<W: Store>(
    alloc: Global,
    outline: &mut Outline,
    store: &mut W,
) -> Result<(), WriteErr>
    requires { IsSome (W.building store.old) }
    ensures files { W.files store.new ≡ W.files store.old }
    ensures asks { W.asks store.new ≡ W.asks store.old }
    ensures faults { RisesIfFault OnWriteFault result (W.faults store.old) (W.faults store.new) }
    ensures building { (before : ItemsBefore) → IsOutline before outline.old →
        OnOk result (W.building store.new ≡ grown_draft (W.building store.old) (flat_map item_code (StopItem ∷ ending (StopItem ∷ before)))) }
    ensures items { (before : ItemsBefore) → IsOutline before outline.old → OnOk result (AllByRecursion IsItem (ending (StopItem ∷ before))) }
{
    match outline.stop() {
        Ok(()) => write_listed(alloc, outline, store),
        Err(_) => Err(WriteErr::NoMemory),
    }
}

// All items of a table.
fn write_items<W: Store>(
    alloc: Global,
    parts: &[Partition],
    schema: &Schema,
    store: &mut W,
) -> Result<(), WriteErr>
    requires fit { PartsFit schema.now parts.now }
    requires building { IsSome (W.building store.old) }
    ensures files { W.files store.new ≡ W.files store.old }
    ensures asks { W.asks store.new ≡ W.asks store.old }
    ensures faults { RisesIfFault OnWriteFault result (W.faults store.old) (W.faults store.new) }
    ensures building { OnOk result (W.building store.new ≡ grown_draft (W.building store.old) (text (whole_table schema.now parts.now))) }
    ensures items { OnOk result (AllByRecursion IsItem (whole_table schema.now parts.now)) }
{
    let _limits = schema.ck();
    let mut outline = write_head(alloc, schema, store)?;
    write_parts(alloc, parts, &mut outline, store)?;
    write_ending(alloc, &mut outline, store)
}

/// Writes the table of the partitions as file `n`, which is not there: it is then the one text of the schema and the
/// partitions, and each number in it is within its width. Their keys strictly ascend, and each fits the schema. What was
/// being built before is given up.
/// `WriteErr::Fault` when the store fails, and only then. `WriteErr::NoMemory` when memory is refused, and where a number
/// passes its width in the format. After either the files are as before. Nothing is being built then, whatever is answered.
pub fn write_table<W: Store>(
    alloc: Global,
    parts: &[Partition],
    schema: &Schema,
    store: &mut W,
    n: u32,
) -> Result<(), WriteErr>
    requires fit { PartsFit schema.now parts.now }
    requires fresh { IsNoFile (W.files store.old) n }
    ensures files { MatchResult result
        (λ _. W.files store.new ≡ with_file (W.files store.old) n (text (whole_table schema.now parts.now)))
        (λ _. W.files store.new ≡ W.files store.old) }
    ensures items { OnOk result (AllByRecursion IsItem (whole_table schema.now parts.now)) }
    ensures idle { W.building store.new ≡ None }
    ensures faults { RisesIfFault OnWriteFault result (W.faults store.old) (W.faults store.new) }
    ensures asks { W.asks store.new ≡ W.asks store.old }
{
    store.abandon();
    if let Err(err) = store.begin(alloc, n) {
        return Err(refused(err));
    }
    if let Err(err) = write_items(alloc, parts, schema, store) {
        store.abandon();
        return Err(err);
    }
    match store.finish(alloc) {
        Ok(()) => Ok(()),
        Err(err) => Err(refused(err)),
    }
}

// The outline of a table's partitions.
fn outline_of(alloc: Global, parts: &[Partition], schema: &Schema) -> Result<Outline, AllocError>
    requires { All (λ p. IsWithinLimits p.change) parts.now }
    ensures outline { IfOk result (λ outline. IsOutline (followed_by [] (HeadItem schema.now ∷ flat_map part_items parts.now)) outline) }
    ensures items { IfOk result (λ _. AllByRecursion IsItem (HeadItem schema.now ∷ flat_map part_items parts.now)) }
{
    let _limits = schema.ck();
    let mut out = Vec::new(alloc);
    append_head(alloc, schema, &mut out)?;
    let mut outline = Outline::new(alloc, out.len());
    for part in parts {
        out.clear();
        spell_part(alloc, part, &mut outline, &mut out)?;
    }
    Ok(outline)
}

/// What is known of the table that `write_table` writes of the partitions as file `n`: where its directory lists each; and each
/// number in it is within its width. Their keys strictly ascend, and each fits the schema. The only error is want of memory,
/// which is also answered where a number passes its width in the format.
pub fn plan_table(
    alloc: Global,
    parts: &[Partition],
    schema: &Schema,
    n: u32,
) -> Result<TableInfo, AllocError>
    requires { PartsFit schema.now parts.now }
    ensures info { IfOk result (λ info. info ≡ info_of n schema.now parts.now) }
    ensures items { IfOk result (λ _. AllByRecursion IsItem (whole_table schema.now parts.now)) }
{
    let _limits = schema.ck();
    let mut outline = outline_of(alloc, parts, schema)?;
    outline.stop()?;
    // The tail must have room for the count.
    let _tail = tail_of(alloc, outline.off, outline.listed.len())?;
    let parts = refs_of(alloc, outline.off, outline.listed.as_slice())?;
    Ok(TableInfo { number: n, parts })
}
