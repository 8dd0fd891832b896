//! Searching for a position among entries, whose codes are compared in place.
ghost use Rattle.std.specs.Prelude.{◌≡◌, ◌++◌, ℕ, List};
ghost use Rattle.rc_position.specs.declared.positions.Pos.{Pos};
ghost use Rattle.rc_position.specs.Position.{pos_cmp};
ghost use Rattle.rc_rowcode.specs.Spelling.{pos_code, IsPos};
ghost use Rattle.lsa_region.specs.Ref.{Ref as Name};
ghost use Rattle.lsa_region.specs.Region.{View};
ghost use Rattle.lsa_shape.specs.Ways.{Fork};
ghost use Rattle.lsa_tree.specs.Entries.{IsEntryAtPosition, BelongsBetween};
ghost use Rattle.lsa_tree.specs.Tree.{IsTree};
ghost use Rattle.lsa_tree.specs.Search.{IsFound, first_entry};
ghost use Rattle.lsa_tree.specs.calls.Placing.{IsVacant};
ghost use Rattle.lsa_tree.specs.calls.Seeking.{IsSought};

use crate::links::{LEFT, RIGHT, below};
use crate::tree::{Place, Tree};
use lsa_kinds::layout::entry::PositionSize;
use lsa_region::{End, Ref, Region};
use rc_position::{Key, Pos};
use rc_rowcode::{compare_code_with_key, compare_code_with_pos, compare_codes};
use std::cmp::Ordering;

/// A position that is looked for, wherever it lies.
#[derive(Clone, Copy)]
pub(crate) enum Sought<'a> {
    /// A position.
    Bound(&'a Pos),
    /// The position of the row of a key.
    Row(&'a Key),
    /// A position by its code.
    Code(&'a [u8]),
}

// The order of a position, by its code, to one that is looked for.
fn order(code: &[u8], sought: Sought<'_>) -> Ordering
    ensures { (x y : Pos) → IsPos x → code.now ≡ pos_code x → IsSought sought.entry y → result ≡ pos_cmp x y }
{
    match sought {
        Sought::Bound(at) => compare_code_with_pos(code, at),
        Sought::Row(key) => compare_code_with_key(code, key),
        Sought::Code(other) => compare_codes(code, other),
    }
}

/// The code of an entry's position, in place.
pub(crate) fn position<const S: usize>(region: &Region<S>, r: Ref) -> &[u8]
    requires { (x : Pos) × IsEntryAtPosition region.now r x }
    ensures { (x : Pos) → IsEntryAtPosition region.now r x → IsPos x × (result.now ≡ pos_code x) }
{
    let bytes = region.bytes(r);
    let size = PositionSize::get(bytes) as usize;
    &bytes[32..32 + size]
}

/// Where an entry that was passed on the way stands behind what is looked for, and none was found at it: the last such one is the next entry.
pub(crate) fn next_place(next: Option<Ref>) -> Place
    ensures { (v : View) (refs front back : List Name) (x : Pos) → refs ≡ front ++ back → BelongsBetween v x front back → first_entry back ≡ next → IsFound v refs x result }
{
    match next {
        Some(r) => Place::Before(r),
        None => Place::Last,
    }
}

/// The end at which an entry of a position belongs, and what is found there.
pub(crate) fn seek<const S: usize>(
    region: &Region<S>,
    tree: Tree,
    sought: Sought<'_>,
) -> (End, Place)
    requires tree { (refs : List Name) × IsTree tree region.now refs }
    requires sought { (x : Pos) × IsSought sought x }
    ensures found { (refs : List Name) (x : Pos) → IsTree tree region.now refs → IsSought sought.entry x → IsFound region.now refs x result.1 }
    ensures vacant { (front back : List Name) (x : Pos) → IsTree tree region.now (front ++ back) → IsSought sought.entry x → BelongsBetween region.now x front back → (way : List Fork) × (depth : ℕ) × IsVacant tree region.now front back result.0 way depth }
{
    region.known();
    let mut at = tree.top;
    let mut next = None;
    loop {
        match below(region, at) {
            None => return (at, next_place(next)),
            Some(r) => match order(position(region, r), sought) {
                Ordering::Less => at = End::Obj(r, RIGHT),
                Ordering::Equal => return (at, Place::Here(r)),
                Ordering::Greater => {
                    next = Some(r);
                    at = End::Obj(r, LEFT);
                }
            },
        }
    }
}
