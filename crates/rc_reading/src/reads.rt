//! What a reader of a version is given: of a position, and of the head.
ghost use Rattle.std.specs.Prelude.{◌≡◌, ◌↔◌, List, IfOk, IsTrue};
ghost use Rattle.rc_cell.specs.Orders.{tomb_cmp};
ghost use Rattle.rc_cell.specs.Winner.{greatest};
ghost use Rattle.rc_core.specs.Chain.{IsKnown, content, has_flag, states_at};
ghost use Rattle.rc_core.specs.Continuity.{static_states, version_tombs};
ghost use Rattle.rc_core.specs.SpotState.{through};
ghost use Rattle.rc_core.specs.Version.{On};
ghost use Rattle.rc_partition.specs.Partitions.{StandingVersion};
ghost use Rattle.rc_reading.specs.Reading.{AreUpTo, IsRowGiven, read_versions};

use crate::said::Asked;
use crate::walk::{greatest_tomb, seen_through};
use lsa_region::{Region, Root};
use rc_cell::{Row, Tomb};
use rc_core::{ChainKind, Seen, Side, as_one, is_known_in, known_by};
use rc_position::Pos;
use std::alloc::{AllocError, Global};

/// What is seen of a position.
#[derive(Drop)]
pub struct ReadAt {
    /// Whether the position is known.
    pub known: bool,
    /// The row; none where no row is seen.
    pub row: Option<Row>,
    /// The range tombstone.
    pub tomb: Option<Tomb>,
}

/// What is seen at the head of a partition.
#[derive(Drop)]
pub struct ReadHead {
    /// The partition tombstone.
    pub pt: Option<Tomb>,
    /// Whether the static row is known.
    pub known: bool,
    /// The static row; none where nothing of it is seen.
    pub row: Option<Row>,
}

// A row as it is given: none where it is empty.
fn given(row: Row) -> Option<Row>
    ensures { IsRowGiven result row }
{
    if row.is_empty() {
        return None;
    }
    Some(row)
}

// Whether a position is known, by what is seen of it, or else by the gap behind it.
fn known_at<const S: usize>(
    alloc: Global,
    region: &Region<S>,
    root: Root,
    number: u64,
    kind: ChainKind,
    x: &Pos,
    seen: &Seen,
) -> Result<bool, AllocError>
    requires { (read : List StandingVersion) × AreUpTo region.now root number read }
    ensures { (read : List StandingVersion) → AreUpTo region.now root number read → seen.now.flag ≡ (through (states_at (On x.now) (read_versions read))).flag → (seen.now.row, seen.now.tomb) ≡ content (states_at (On x.now) (read_versions read)) →
        IfOk result (λ known. IsTrue known ↔ IsKnown kind (read_versions read) x.now) }
{
    match known_by(kind, seen, x) {
        Some(known) => Ok(known),
        None => {
            let behind = Asked::Clustered(x, Side::Behind);
            let gap = seen_through(alloc, region, root, number, behind)?;
            Ok(is_known_in(kind, gap.flag))
        }
    }
}

/// What is seen of a position through the versions of a partition, the oldest first, up to the one of a number, the oldest being 0: whether it is known,
/// its row, and its range tombstone. Each version is searched once, or twice where no row is seen. The only error is want of memory.
pub fn at<const S: usize>(
    alloc: Global,
    region: &Region<S>,
    root: Root,
    number: u64,
    kind: ChainKind,
    x: &Pos,
) -> Result<ReadAt, AllocError>
    requires { (read : List StandingVersion) × AreUpTo region.now root number read }
    ensures known { (read : List StandingVersion) → AreUpTo region.now root number read → IfOk result (λ a. IsTrue a.known ↔ IsKnown kind (read_versions read) x.now) }
    ensures row { (read : List StandingVersion) → AreUpTo region.now root number read → IfOk result (λ a. IsRowGiven a.row (content (states_at (On x.now) (read_versions read))).0) }
    ensures tomb { (read : List StandingVersion) → AreUpTo region.now root number read → IfOk result (λ a. a.tomb ≡ (content (states_at (On x.now) (read_versions read))).1) }
{
    let on = Asked::Clustered(x, Side::On);
    let seen = as_one(alloc, seen_through(alloc, region, root, number, on)?)?;
    let known = known_at(alloc, region, root, number, kind, x, &seen)?;
    Ok(ReadAt {
        known,
        row: given(seen.row),
        tomb: seen.tomb,
    })
}

/// What is seen at the head of a partition through its versions up to the one of a number, the oldest being 0: the greatest partition tombstone, whether the
/// static row is known, and the static row. The only error is want of memory.
pub fn head<const S: usize>(
    alloc: Global,
    region: &Region<S>,
    root: Root,
    number: u64,
    kind: ChainKind,
) -> Result<ReadHead, AllocError>
    requires { (read : List StandingVersion) × AreUpTo region.now root number read }
    ensures pt { (read : List StandingVersion) → AreUpTo region.now root number read → IfOk result (λ h. h.pt ≡ greatest tomb_cmp (version_tombs (read_versions read))) }
    ensures known { (read : List StandingVersion) → AreUpTo region.now root number read → IfOk result (λ h. h.known ≡ has_flag kind (static_states (read_versions read))) }
    ensures row { (read : List StandingVersion) → AreUpTo region.now root number read → IfOk result (λ h. IsRowGiven h.row (content (static_states (read_versions read))).0) }
{
    let pt = greatest_tomb(region, root, number);
    let seen = as_one(
        alloc,
        seen_through(alloc, region, root, number, Asked::Static)?,
    )?;
    Ok(ReadHead {
        pt,
        known: is_known_in(kind, seen.flag),
        row: given(seen.row),
    })
}
