//! The entries of a version by their sort.
ghost use Rattle.std.specs.Prelude.{◌≡◌, ◌+◌, ◌^◌, ◌<◌, List, cond, is_none, is_some};
ghost use Rattle.lsa_store.specs.declared.place.Ref.{Ref as Name};
ghost use Rattle.rc_core.specs.declared.entries.Entry.{Entry};
ghost use Rattle.rc_core.specs.Version.{Version};
ghost use Rattle.rc_object.specs.Objects.{HoldsEntry};
ghost use Rattle.rc_version.specs.Versions.{IsVersionOf};
ghost use Rattle.rc_census.specs.Census.{dummy_count, row_count};

use lsa_kinds::Kind;
use lsa_region::{End, Ref, Region};
use lsa_tree::Tree;

/// How many entries of each sort there are.
#[derive(Clone, Copy)]
pub(crate) struct Sorts {
    /// Those with a row.
    pub(crate) rows: u64,
    /// Those without one.
    pub(crate) dummies: u64,
}

/// Entries of both together.
pub(crate) fn both(one: Sorts, other: Sorts) -> Sorts
    requires rows { one.rows + other.rows < 2 ^ 64 }
    requires dummies { one.dummies + other.dummies < 2 ^ 64 }
    ensures rows { result.rows ≡ one.rows + other.rows }
    ensures dummies { result.dummies ≡ one.dummies + other.dummies }
{
    Sorts {
        rows: one.rows + other.rows,
        dummies: one.dummies + other.dummies,
    }
}

// One entry.
fn sort_of<const S: usize>(region: &Region<S>, e: Ref) -> Sorts
    requires { (y : Entry) × HoldsEntry region.now e y }
    ensures rows { (y : Entry) → HoldsEntry region.now e y → result.rows ≡ cond (is_some y.row) 1 0 }
    ensures dummies { (y : Entry) → HoldsEntry region.now e y → result.dummies ≡ cond (is_none y.row) 1 0 }
{
    match region.kind(e) {
        Kind::RowEntry => Sorts {
            rows: 1,
            dummies: 0,
        },
        Kind::Dummy | Kind::Version | Kind::Static => Sorts {
            rows: 0,
            dummies: 1,
        },
    }
}

/// The entries of a version.
pub(crate) fn sorts_of<const S: usize>(region: &Region<S>, v: Ref) -> Sorts
    requires { (refs : List Name) × (c : Version) × IsVersionOf region.now v refs c }
    ensures rows { (refs : List Name) (c : Version) → IsVersionOf region.now v refs c → result.rows ≡ row_count c.entries }
    ensures dummies { (refs : List Name) (c : Version) → IsVersionOf region.now v refs c → result.dummies ≡ dummy_count c.entries }
{
    region.known();
    let tree = Tree {
        top: End::Obj(v, 2),
    };
    let mut sorts = Sorts {
        rows: 0,
        dummies: 0,
    };
    let mut next = tree.first(region);
    for steps in 0..region.objects() {
        match next {
            None => return sorts,
            Some(e) => {
                sorts = both(sorts, sort_of(region, e));
                next = tree.next(region, e);
            }
        }
    }
    sorts
}
