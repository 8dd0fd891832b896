//! Whether a schema allows what is written of a partition.

ghost use Rattle.std.specs.Prelude.{◌↔◌, All, IsTrue};
ghost use Rattle.rc_writes.specs.Allowed.{IsStaticOf, IsRowOf, IsRangeBound, ChangeFits};

use rc_cell::Row;
use rc_mutation::Mutation;
use rc_position::{Key, Pos, Weight};
use rc_ranges::Piece;
use rc_schema::Schema;

/// Whether a row is a static row of the schema: no marker, no tombstone, static columns, values of at most 256 bytes.
#[tactic(auto, using(rc_schema::specs::laws::Fitting::cells_tested))]
pub fn is_static_of(schema: &Schema, row: &Row) -> bool
    ensures { IsTrue result ↔ IsStaticOf schema.now row.now }
{
    row.marker.is_none() && row.tomb.is_none() && schema.check_row(row, true).is_ok()
}

/// Whether a row and its key are of the schema: a full key of its kinds with texts of at most 64 bytes, regular columns,
/// values of at most 256 bytes.
#[tactic(auto, using(rc_schema::specs::laws::Fitting::key_tested, rc_schema::specs::laws::Fitting::cells_tested))]
pub fn is_row_of(schema: &Schema, key: &Key, row: &Row) -> bool
    ensures { IsTrue result ↔ IsRowOf schema.now key.now row.now }
{
    schema.check_prefix(key, true).is_ok() && schema.check_row(row, false).is_ok()
}

/// Whether a range may begin or end at a position under the schema: before or after the keys with a prefix of its kinds.
#[tactic(auto, using(rc_schema::specs::laws::Fitting::key_tested))]
pub fn is_bound_of(schema: &Schema, x: &Pos) -> bool
    ensures { IsTrue result ↔ IsRangeBound schema.now x.now }
{
    x.weight != Weight::At && schema.check_prefix(&x.prefix, false).is_ok()
}

// Whether each row and its key are of the schema.
fn rows_fit(rows: &[(Key, Row)], schema: &Schema) -> bool
    ensures { IsTrue result ↔ All (λ e. IsRowOf schema.now e.0 e.1) rows.now }
{
    let mut left = rows;
    while let [row, rest @ ..] = left {
        if !is_row_of(schema, &row.0, &row.1) {
            return false;
        }
        left = rest;
    }
    true
}

// Whether each range may begin and end where it does under the schema.
fn ranges_fit(ranges: &[Piece], schema: &Schema) -> bool
    ensures { IsTrue result ↔ All (λ q. IsRangeBound schema.now q.from × IsRangeBound schema.now q.to) ranges.now }
{
    let mut left = ranges;
    while let [range, rest @ ..] = left {
        if !is_range_of(schema, range) {
            return false;
        }
        left = rest;
    }
    true
}

// Whether a range may begin and end where it does under the schema.
fn is_range_of(schema: &Schema, range: &Piece) -> bool
    ensures { IsTrue result ↔ (IsRangeBound schema.now range.now.from × IsRangeBound schema.now range.now.to) }
{
    is_bound_of(schema, &range.from) && is_bound_of(schema, &range.to)
}

/// Whether what is written of a partition fits the schema: its static row, each row with its key, and both ends of each range
/// tombstone.
pub fn change_fits(change: &Mutation, schema: &Schema) -> bool
    ensures { IsTrue result ↔ ChangeFits schema.now change.now }
{
    if !is_static_of(schema, change.statics.as_row()) {
        return false;
    }
    if !rows_fit(change.rows.as_slice(), schema) {
        return false;
    }
    ranges_fit(change.ranges.as_slice(), schema)
}
