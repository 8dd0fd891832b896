//! A chain read as what is written of its partition: part by part, each put behind what was read before.
ghost use Rattle.std.specs.Prelude.{◌≡◌, List as Sequence, [], ◌∷◌, IfOk, OnOk, None};
ghost use Rattle.rc_cell.specs.declared.rows.Row.{Row as Cells};
ghost use Rattle.rc_cell.specs.Orders.{tomb_cmp};
ghost use Rattle.rc_cell.specs.Greatest.{greater};
ghost use Rattle.rc_position.specs.declared.positions.Pos.{Pos as Position};
ghost use Rattle.rc_position.specs.Position.{IsBefore};
ghost use Rattle.rc_schema.specs.SchemaValue.{SchemaValue};
ghost use Rattle.rc_ranges.specs.Cover.{cover as range_tomb};
ghost use Rattle.rc_mutation.specs.declared.mutations.Mutation.{Mutation as Change};
ghost use Rattle.rc_mutation.specs.Source.{SameSource, source_at};
ghost use Rattle.rc_core.specs.StandsFor.{piece_over, place_after};
ghost use Rattle.rc_core.specs.Version.{Version};
ghost use Rattle.rc_chain.specs.Reading.{IsRowGiven};
ghost use Rattle.rc_memtable.specs.calls.Reading.{EndsAhead, IsPartTaken, IsSeenBy, SayChanges, said_so_far};

use rc_cell::{Row, Tomb};
use rc_chain::{Chains, ReadHead, Snap};
use rc_core::Part;
use rc_core::laws::reading::a_gap_is_seen_alike;
use rc_mutation::{Mutation, Rows, Statics};
use rc_position::{Key, Pos, Weight};
use rc_ranges::Ranges;
use std::alloc::{AllocError, Global};

// Puts a tombstone over a stretch, where there is one.
fn add_tomb(
    alloc: Global,
    ranges: &mut Ranges,
    from: &Pos,
    to: &Pos,
    tomb: Option<Tomb>,
) -> Result<(), AllocError>
    requires { IsBefore from.now to.now }
    ensures { OnOk result ((y : Position) → range_tomb ranges.new y ≡ greater tomb_cmp (range_tomb ranges.old y) (range_tomb (piece_over from.now to.now tomb) y)) }
{
    match tomb {
        Some(tomb) => ranges.add(alloc, from, to, tomb),
        None => Ok(()),
    }
}

// Puts a part behind what was read up to a place, and gives the place behind the part.
fn take_part(
    alloc: Global,
    part: Part,
    place: &Pos,
    rows: &mut Rows,
    ranges: &mut Ranges,
) -> Result<Pos, AllocError>
    requires { EndsAhead part place.now }
    ensures taken { OnOk result (IsPartTaken part place.now rows.old ranges.old rows.new ranges.new) }
    ensures place { IfOk result (λ to. to ≡ place_after part place.now) }
{
    match part {
        Part::Row { key, row, tomb } => {
            rows.join_row(alloc, &key, &row)?;
            let to = Pos {
                prefix: key,
                weight: Weight::After,
            };
            add_tomb(alloc, ranges, place, &to, tomb)?;
            Ok(to)
        }
        Part::Gap { to, tomb } => {
            add_tomb(alloc, ranges, place, &to, tomb)?;
            Ok(to)
        }
        Part::Missing { to: _ } => unreachable!(),
        Part::End => unreachable!(),
    }
}

// Reads what a snapshot of a memtable's chain sees at its positions, from the first to the last.
fn read_positions<const S: usize>(
    alloc: Global,
    chains: &Chains<S>,
    s: &Snap,
    rows: &mut Rows,
    ranges: &mut Ranges,
) -> Result<(), AllocError>
    requires seen { (schema : SchemaValue) × (versions : Sequence Version) × (changes : Sequence Change) × IsSeenBy chains.now s.now.chain s.now.pin versions × SayChanges schema versions changes }
    requires rows { rows.old ≡ [] }
    requires ranges { ranges.old ≡ [] }
    ensures { (schema : SchemaValue) (versions : Sequence Version) (changes : Sequence Change) → IsSeenBy chains.now s.now.chain s.now.pin versions → SayChanges schema versions changes →
        OnOk result ((y : Position) → said_so_far rows.new ranges.new y ≡ source_at changes y) }
{
    a_gap_is_seen_alike();
    let upto = Pos {
        prefix: Key::empty(alloc),
        weight: Weight::After,
    };
    let mut place = Pos {
        prefix: Key::empty(alloc),
        weight: Weight::Before,
    };
    while place < upto {
        let part = chains.first_part(s, &place, &upto)?;
        place = take_part(alloc, part, &place, rows, ranges)?;
    }
    Ok(())
}

// What is read of a static row, which has cells alone.
fn statics_of(alloc: Global, row: Option<Row>) -> Statics
    ensures { (read : Cells) → IsRowGiven row read → read.marker ≡ None → read.tomb ≡ None → result ≡ read }
{
    match row {
        Some(row) => Statics::from_cells(row.cells),
        None => Statics::empty(alloc),
    }
}

/// What a snapshot of a memtable's chain sees, as one mutation. The only error is want of memory.
pub(crate) fn read_mutation<const S: usize>(
    alloc: Global,
    chains: &Chains<S>,
    s: &Snap,
) -> Result<Mutation, AllocError>
    requires { (schema : SchemaValue) × (versions : Sequence Version) × (changes : Sequence Change) × IsSeenBy chains.now s.now.chain s.now.pin versions × SayChanges schema versions changes }
    ensures { (schema : SchemaValue) (versions : Sequence Version) (changes : Sequence Change) → IsSeenBy chains.now s.now.chain s.now.pin versions → SayChanges schema versions changes → IfOk result (λ m. SameSource (m ∷ []) changes) }
{
    let ReadHead { pt, known: _, row } = chains.head(s)?;
    let mut rows = Rows::empty(alloc);
    let mut ranges = Ranges::empty(alloc);
    read_positions(alloc, chains, s, &mut rows, &mut ranges)?;
    Ok(Mutation {
        pt,
        statics: statics_of(alloc, row),
        rows,
        ranges,
    })
}
