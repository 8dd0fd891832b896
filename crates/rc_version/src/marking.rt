//! The flags and the tombstones of an entry.
ghost use Rattle.std.specs.Prelude.{◌≡◌, List, Contains};
ghost use Rattle.rc_position.specs.declared.positions.Pos.{Pos as Position};
ghost use Rattle.lsa_store.specs.declared.place.Ref.{Ref as Name};
ghost use Rattle.lsa_region.specs.Region.{IsWell};
ghost use Rattle.lsa_tree.specs.Entries.{IsEntryAtPosition};
ghost use Rattle.rc_core.specs.Steps as steps;
ghost use Rattle.rc_core.specs.Version.{Version};
ghost use Rattle.rc_object.specs.Objects.{IsRewritten};
ghost use Rattle.rc_version.specs.Versions.{IsVersionOf, IsKeptBut};

use lsa_region::{Ref, Region};
use rc_cell::Tomb;
use rc_core::{Flag, Mark};
use rc_object::{marks, set_marks};

/// Gives an entry of a version other flags, at it and over the gap before it. Its tombstones stay.
pub fn set_flags<const S: usize>(region: &mut Region<S>, e: Ref, at: Flag, gap: Flag)
    requires { (n : Name) × (refs : List Name) × (c : Version) × IsVersionOf region.old n refs c × Contains refs e }
    ensures set { (n : Name) (refs : List Name) (c : Version) (x : Position) → IsVersionOf region.old n refs c → Contains refs e → IsEntryAtPosition region.old e x → IsVersionOf region.new n refs (steps.set_flags x at gap c) }
    ensures kept { (n : Name) (refs : List Name) (c : Version) → IsVersionOf region.old n refs c → Contains refs e → IsKeptBut n region.old region.new }
    ensures rewritten { IsRewritten region.old region.new e }
    ensures well { IsWell region.new }
{
    region.known();
    let (old_at, old_gap) = marks(region, e);
    set_marks(
        region,
        e,
        Mark {
            flag: at,
            tomb: old_at.tomb,
        },
        Mark {
            flag: gap,
            tomb: old_gap.tomb,
        },
    );
}

/// Gives an entry of a version other range tombstones, at it and over the gap before it. Its flags stay.
pub fn set_tombs<const S: usize>(
    region: &mut Region<S>,
    e: Ref,
    at: Option<Tomb>,
    gap: Option<Tomb>,
)
    requires { (n : Name) × (refs : List Name) × (c : Version) × IsVersionOf region.old n refs c × Contains refs e }
    ensures set { (n : Name) (refs : List Name) (c : Version) (x : Position) → IsVersionOf region.old n refs c → Contains refs e → IsEntryAtPosition region.old e x → IsVersionOf region.new n refs (steps.set_tombs x at gap c) }
    ensures kept { (n : Name) (refs : List Name) (c : Version) → IsVersionOf region.old n refs c → Contains refs e → IsKeptBut n region.old region.new }
    ensures rewritten { IsRewritten region.old region.new e }
    ensures well { IsWell region.new }
{
    region.known();
    let (old_at, old_gap) = marks(region, e);
    set_marks(
        region,
        e,
        Mark {
            flag: old_at.flag,
            tomb: at,
        },
        Mark {
            flag: old_gap.flag,
            tomb: gap,
        },
    );
}
