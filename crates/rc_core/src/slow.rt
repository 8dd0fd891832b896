//! Versions over one another as plain vectors, and slow functions that compute what the definitions of a chain say. They are for tests, and
//! show that the definitions can be met.

ghost use Rattle.std.specs.Prelude.{◌≡◌, ◌≢◌, ◌↔◌, ◌∷◌, [], IfOk, IsTrue, List, Option, map};
ghost use Rattle.std.specs.Option.{option_to_list};
ghost use Rattle.rc_cell.specs.Orders.{tomb_cmp};
ghost use Rattle.rc_cell.specs.Winner.{greatest, joined_row};
ghost use Rattle.rc_position.specs.Position.{IsBefore, pos_cmp};
ghost use Rattle.std.specs.declared.cmp.Ordering.TheVariants.{Greater};
ghost use Rattle.rc_core.specs.Parts.{IsFirstPart, IsReach};
ghost use Rattle.rc_core.specs.calls.Parts.{IsNearer};
ghost use Rattle.rc_core.specs.SpotState.{SpotState, silent, spot_state, through, under};
ghost use Rattle.rc_core.specs.Chain.{IsKnown, base, states_at, content, has_flag};
ghost use Rattle.rc_core.specs.Continuity.{version_tombs, static_states};
ghost use Rattle.rc_core.specs.Merge.{Alike};
ghost use Rattle.rc_core.specs.Plain.{mark_state};
ghost use Rattle.rc_core.specs.Slow.{IsDecidedBy, plain, seen_state, spot_at};
ghost use Rattle.rc_core.specs.Version.{On, Version, finding_of, state_of, end_position, finding_in, spot_cmp};

use crate::entries::{ChainKind, Entry, Flag, Mark};
use crate::parts::Part;
use crate::plain::is_known_in;
use rc_cell::{Row, Tomb};
use rc_mutation::greater_tomb;
use rc_position::{Pos, Weight};
use std::alloc::{AllocError, Global};
use std::cmp::Ordering;

/// A version of a partition as plain vectors.
#[derive(Drop)]
pub struct PlainVersion {
    /// The partition tombstone.
    pub pt: Option<Tomb>,
    /// The static row; none where nothing of it is held.
    pub statics: Option<Row>,
    /// The flag of the static row.
    pub static_flag: Flag,
    /// The entries by ascending position; the last one is the end dummy.
    pub entries: Vec<Entry>,
    /// The phase whose writes the version stands for.
    pub phase: u64,
}

/// Whether a position itself is asked for, or the open gap right behind it.
#[derive(Clone, Copy)]
pub enum Side {
    /// The position.
    On,
    /// The gap.
    Behind,
}

/// What is seen through versions at one place.
#[derive(Drop)]
pub struct Seen {
    /// The flag of the newest version that does not inherit; Inherit where there is none.
    pub flag: Flag,
    /// The rows as one.
    pub row: Row,
    /// The greatest range tombstone.
    pub tomb: Option<Tomb>,
}

// Where a position, or the gap right behind it, stands against another position.
fn side_cmp(x: &Pos, side: Side, position: &Pos) -> Ordering
    ensures { result ≡ spot_cmp (spot_at side x.now) position.now }
{
    match (side, x.cmp(position)) {
        (Side::Behind, Ordering::Equal) => Ordering::Greater,
        (_, order) => order,
    }
}

// A mark over what is seen below it.
fn marked(alloc: Global, below: Seen, mark: Mark) -> Seen
    ensures { Alike (seen_state result) (under (seen_state below) (mark_state mark)) }
{
    if decides(mark.flag) {
        return Seen {
            flag: mark.flag,
            row: Row::empty(alloc),
            tomb: mark.tomb,
        };
    }
    Seen {
        flag: below.flag,
        row: below.row,
        tomb: greater_tomb(below.tomb, mark.tomb),
    }
}

// A row joined to what is seen.
fn with_row(alloc: Global, seen: Seen, row: &Option<Row>) -> Result<Seen, AllocError>
    ensures { IfOk result (λ s. Alike (seen_state s) (spot_state seen.flag (seen.row ∷ option_to_list row.now) (option_to_list seen.tomb))) }
{
    match row {
        Some(row) => {
            let mut seen = seen;
            seen.row.join(alloc, row)?;
            Ok(seen)
        }
        None => Ok(seen),
    }
}

/// What is seen at a place of which a version says this mark and this row, over what is seen there below that version. The only error is want of memory.
pub fn seen_over(
    alloc: Global,
    below: Seen,
    mark: Mark,
    row: &Option<Row>,
) -> Result<Seen, AllocError>
    ensures { IfOk result (λ s. Alike (seen_state s) (under (seen_state below) (state_of (finding_of mark row.now)))) }
{
    with_row(alloc, marked(alloc, below, mark), row)
}

/// What is seen where there is no version: nothing.
pub fn nothing_seen(alloc: Global) -> Seen
    ensures { Alike (seen_state result) silent }
{
    Seen {
        flag: Flag::Inherit,
        row: Row::empty(alloc),
        tomb: None,
    }
}

// What a version's entries say of a place, over what is seen below them.
fn lay_over(
    alloc: Global,
    below: Seen,
    entries: &[Entry],
    x: &Pos,
    side: Side,
) -> Result<Seen, AllocError>
    ensures { IfOk result (λ s. Alike (seen_state s) (under (seen_state below) (state_of (finding_in (spot_at side x.now) entries.now)))) }
{
    let mut left = entries;
    while let [first, rest @ ..] = left {
        match side_cmp(x, side, &first.position) {
            Ordering::Less => return Ok(marked(alloc, below, first.gap)),
            Ordering::Equal => return seen_over(alloc, below, first.at, &first.row),
            Ordering::Greater => left = rest,
        }
    }
    Ok(below)
}

/// What is seen through all versions of a chain, as the definitions say its content: the rows that were joined as one row. The only error is want of memory.
pub fn as_one(alloc: Global, seen: Seen) -> Result<Seen, AllocError>
    ensures { (states : List SpotState) → Alike (seen_state seen) (through states) → IfOk result (λ s. (s.flag ≡ (through states).flag) × ((s.row, s.tomb) ≡ content states)) }
{
    let mut row = Row::empty(alloc);
    row.join(alloc, &seen.row)?;
    Ok(Seen {
        flag: seen.flag,
        row,
        tomb: seen.tomb,
    })
}

// The versions laid over one another, the oldest first.
fn laid(alloc: Global, versions: &[PlainVersion], x: &Pos, side: Side) -> Result<Seen, AllocError>
    ensures { IfOk result (λ s. Alike (seen_state s) (through (states_at (spot_at side x.now) (map plain versions.now)))) }
{
    let mut seen = nothing_seen(alloc);
    let mut left = versions;
    while let [oldest, newer @ ..] = left {
        seen = lay_over(alloc, seen, oldest.entries.as_slice(), x, side)?;
        left = newer;
    }
    Ok(seen)
}

/// What is seen through versions, the oldest first, at a position or over the gap behind it: the flag of the newest that does not inherit,
/// and what the definitions say is the content there. The only error is want of memory.
pub fn seen_at(
    alloc: Global,
    versions: &[PlainVersion],
    x: &Pos,
    side: Side,
) -> Result<Seen, AllocError>
    ensures flag { IfOk result (λ s. s.flag ≡ (through (states_at (spot_at side x.now) (map plain versions.now))).flag) }
    ensures content { IfOk result (λ s. (s.row, s.tomb) ≡ content (states_at (spot_at side x.now) (map plain versions.now))) }
{
    as_one(alloc, laid(alloc, versions, x, side)?)
}

// The static rows laid over one another, the oldest first.
fn laid_statics(alloc: Global, versions: &[PlainVersion]) -> Result<Seen, AllocError>
    ensures { IfOk result (λ s. Alike (seen_state s) (through (static_states (map plain versions.now)))) }
{
    let mut seen = nothing_seen(alloc);
    let mut left = versions;
    while let [oldest, newer @ ..] = left {
        let mark = Mark {
            flag: oldest.static_flag,
            tomb: None,
        };
        seen = seen_over(alloc, seen, mark, &oldest.statics)?;
        left = newer;
    }
    Ok(seen)
}

/// What is seen of the static row through versions, the oldest first: the flag of the newest that does not inherit there, and the content.
/// The only error is want of memory.
pub fn statics_at(alloc: Global, versions: &[PlainVersion]) -> Result<Seen, AllocError>
    ensures flag { IfOk result (λ s. s.flag ≡ (through (static_states (map plain versions.now))).flag) }
    ensures content { IfOk result (λ s. (s.row, s.tomb) ≡ content (static_states (map plain versions.now))) }
{
    as_one(alloc, laid_statics(alloc, versions)?)
}

/// The greatest partition tombstone of versions.
pub fn head_of(versions: &[PlainVersion]) -> Option<Tomb>
    ensures { result ≡ greatest tomb_cmp (version_tombs (map plain versions.now)) }
{
    let mut pt = None;
    let mut left = versions;
    while let [oldest, newer @ ..] = left {
        pt = greater_tomb(pt, oldest.pt);
        left = newer;
    }
    pt
}

/// The number of the newest version, the oldest being 0, that does not inherit at a position or over the gap behind it; none where all do.
pub fn base_at(versions: &[PlainVersion], x: &Pos, side: Side) -> Option<usize>
    ensures { result ≡ base (states_at (spot_at side x.now) (map plain versions.now)) }
{
    let mut found = None;
    let mut number = 0;
    let mut left = versions;
    while let [oldest, newer @ ..] = left {
        if decides(flag_at(oldest.entries.as_slice(), x, side)) {
            found = Some(number);
        }
        number += 1;
        left = newer;
    }
    found
}

// The flag that entries say at a place.
fn flag_at(entries: &[Entry], x: &Pos, side: Side) -> Flag
    ensures { result ≡ (finding_in (spot_at side x.now) entries.now).mark.flag }
{
    let mut left = entries;
    while let [first, rest @ ..] = left {
        match side_cmp(x, side, &first.position) {
            Ordering::Less => return first.gap.flag,
            Ordering::Equal => return first.at.flag,
            Ordering::Greater => left = rest,
        }
    }
    Flag::Inherit
}

// Whether a flag decides for the versions below it.
fn decides(flag: Flag) -> bool
    ensures { result ≡ Rattle.rc_core.specs.Chain.decides flag }
{
    match flag {
        Flag::Known | Flag::Unknown => true,
        Flag::Inherit => false,
    }
}

// Whether a position stands before the end of the partition.
fn is_before_end(x: &Pos) -> bool
    ensures { IsTrue result ↔ IsBefore x.now end_position }
{
    match (x.prefix.as_slice(), x.weight) {
        ([], Weight::After) => false,
        _ => true,
    }
}

/// Whether a place is flagged: the newest version that does not inherit there says Known, or all inherit in a memtable's chain. The only
/// error is want of memory.
pub fn is_flagged_at(
    alloc: Global,
    kind: ChainKind,
    versions: &[PlainVersion],
    x: &Pos,
    side: Side,
) -> Result<bool, AllocError>
    ensures { IfOk result (λ b. b ≡ has_flag kind (states_at (spot_at side x.now) (map plain versions.now))) }
{
    Ok(is_known_in(kind, seen_at(alloc, versions, x, side)?.flag))
}

/// Whether a position is known, by what is seen of it alone; None where it is flagged and no row is seen, and the gap behind it decides.
pub fn known_by(kind: ChainKind, seen: &Seen, x: &Pos) -> Option<bool>
    ensures { (versions : List Version) → seen.now.flag ≡ (through (states_at (On x.now) versions)).flag → (seen.now.row, seen.now.tomb) ≡ content (states_at (On x.now) versions) → IsDecidedBy kind versions x.now result }
{
    if !is_known_in(kind, seen.flag) {
        return Some(false);
    }
    if !seen.row.is_empty() {
        return Some(true);
    }
    if !is_before_end(x) {
        return Some(true);
    }
    None
}

/// Whether a position is known: it is flagged and, where no row is seen there, the gap behind it too. The only error is want of memory.
pub fn is_known_at(
    alloc: Global,
    kind: ChainKind,
    versions: &[PlainVersion],
    x: &Pos,
) -> Result<bool, AllocError>
    ensures { IfOk result (λ b. IsTrue b ↔ IsKnown kind (map plain versions.now) x.now) }
{
    let seen = seen_at(alloc, versions, x, Side::On)?;
    match known_by(kind, &seen, x) {
        Some(known) => Ok(known),
        None => is_flagged_at(alloc, kind, versions, x, Side::Behind),
    }
}

// Whether a position stands behind one and before another.
fn is_between(from: &Pos, x: &Pos, to: &Pos) -> bool
    ensures { IsTrue result ↔ (IsBefore from.now x.now × IsBefore x.now to.now) }
{
    match (from.cmp(x), x.cmp(to)) {
        (Ordering::Less, Ordering::Less) => true,
        _ => false,
    }
}

// Where the gap behind a position ends by these entries, if it ends at `to` at the latest.
fn nearer(alloc: Global, entries: &[Entry], x: &Pos, to: Pos) -> Result<Pos, AllocError>
    requires { IsBefore x.now to }
    ensures { IfOk result (λ r. IsNearer x.now to r entries.now) }
{
    let mut to = to;
    let mut left = entries;
    while let [first, rest @ ..] = left {
        if is_between(x, &first.position, &to) {
            to = first.position.copy(alloc)?;
        }
        left = rest;
    }
    Ok(to)
}

// Where the gap behind a position ends: at the next entry of any version, or at a bound before it.
fn reach(alloc: Global, versions: &[PlainVersion], x: &Pos, upto: &Pos) -> Result<Pos, AllocError>
    requires { IsBefore x.now upto.now }
    ensures { IfOk result (λ r. IsReach (map plain versions.now) x.now upto.now r) }
{
    let mut to = upto.copy(alloc)?;
    let mut left = versions;
    while let [oldest, newer @ ..] = left {
        to = nearer(alloc, oldest.entries.as_slice(), x, to)?;
        left = newer;
    }
    Ok(to)
}

/// The first part of what is seen through versions from a position on, up to a bound that is not before it. The only error is want of memory.
pub fn first_part(
    alloc: Global,
    kind: ChainKind,
    versions: &[PlainVersion],
    x: &Pos,
    upto: &Pos,
) -> Result<Part, AllocError>
    requires { pos_cmp x.now upto.now ≢ Greater }
    ensures { IfOk result (λ p. IsFirstPart kind (map plain versions.now) x.now upto.now p) }
{
    if let Ordering::Equal = x.cmp(upto) {
        return Ok(Part::End);
    }
    let to = reach(alloc, versions, x, upto)?;
    let known = is_known_at(alloc, kind, versions, x)?;
    if !known {
        return Ok(Part::Missing { to });
    }
    let seen = seen_at(alloc, versions, x, Side::On)?;
    if seen.row.is_empty() {
        return Ok(Part::Gap {
            to,
            tomb: seen.tomb,
        });
    }
    Ok(Part::Row {
        key: x.prefix.copy(alloc)?,
        row: seen.row,
        tomb: seen.tomb,
    })
}
