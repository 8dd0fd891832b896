//! Links and balances of entries, read and written in place.
ghost use Rattle.std.specs.Prelude.{◌≡◌, ◌≢◌, ◌<◌, Some, IsSome};
ghost use Rattle.lsa_region.specs.declared.end.End.TheVariants.{Obj};
ghost use Rattle.lsa_region.specs.Region.{body, link_of, IsEnd, IsWell, SameObjects};
ghost use Rattle.lsa_shape.specs.Path.{entered_object};
ghost use Rattle.lsa_shape.specs.Flanks.{near_link, far_link};
ghost use Rattle.lsa_tree.specs.Entries.{balance_of};
ghost use Rattle.lsa_tree.specs.calls.Placing.{IsEntryBody, IsRebalanced, IsRotated, IsTraded, owner_of};

use lsa_kinds::layout::entry::Balance;
use lsa_region::{End, Ref, Region};
use lsa_shape::Flank;

/// The link of an entry by which it is entered.
pub(crate) const PARENT: u8 = 2;

/// The link of an entry to those before it.
pub(crate) const LEFT: u8 = 3;

/// The link of an entry to those behind it.
pub(crate) const RIGHT: u8 = 4;

/// The entry that is entered where an end names this, if there is one.
fn object(named: Option<End>) -> Option<Ref>
    ensures { result ≡ entered_object 2 named }
{
    match named {
        Some(End::Obj(r, field)) => { if field == PARENT { Some(r) } else { None } }
        Some(End::Slot(_)) => None,
        None => None,
    }
}

/// The entry that hangs at an end, if there is one.
pub(crate) fn below<const S: usize>(region: &Region<S>, at: End) -> Option<Ref>
    requires { IsEnd region.now at }
    ensures { result ≡ entered_object 2 (link_of region.now at) }
{
    object(region.link_of(at))
}

/// The entry that hangs at an end at which one hangs.
pub(crate) fn child<const S: usize>(region: &Region<S>, at: End) -> Ref
    requires there { IsEnd region.now at }
    requires set { IsSome (entered_object 2 (link_of region.now at)) }
    ensures { entered_object 2 (link_of region.now at) ≡ Some result }
{
    match below(region, at) {
        Some(r) => r,
        None => unreachable!(),
    }
}

/// The entry of whose left or right link this end is, and the side.
pub(crate) fn owner(at: End) -> Option<(Flank, Ref)>
    ensures { result ≡ owner_of at }
{
    match at {
        End::Obj(r, field) => {
            if field == LEFT {
                Some((Flank::Low, r))
            } else {
                if field == RIGHT {
                    Some((Flank::High, r))
                } else {
                    None
                }
            }
        }
        End::Slot(_) => None,
    }
}

/// The end at which an entry hangs.
pub(crate) fn door<const S: usize>(region: &Region<S>, r: Ref) -> End
    requires there { IsEnd region.now (Obj r 2) }
    requires set { IsSome (link_of region.now (Obj r 2)) }
    ensures { link_of region.now (Obj r 2) ≡ Some result }
{
    match region.link_of(End::Obj(r, PARENT)) {
        Some(end) => end,
        None => unreachable!(),
    }
}

/// The balance of an entry.
pub(crate) fn balance<const S: usize>(region: &Region<S>, r: Ref) -> u64
    requires { IsEntryBody (body region.now r) }
    ensures { result ≡ balance_of region.now r }
{
    Balance::get(region.bytes(r))
}

/// Writes the balance of an entry.
pub(crate) fn set_balance<const S: usize>(region: &mut Region<S>, r: Ref, value: u64)
    requires entry { IsEntryBody (body region.old r) }
    requires fits { value < 256 }
    ensures written { IsRebalanced region.old region.new r value }
    ensures well { IsWell region.new }
{
    region.write_field(r, Balance::place(), value);
}

/// A rotation: x, on this side of y, comes into its place.
pub(crate) fn turn<const S: usize>(region: &mut Region<S>, side: Flank, at: End, y: Ref, x: Ref)
    requires at { IsEnd region.old at }
    requires y { IsEnd region.old (Obj y (near_link side)) }
    requires x { IsEnd region.old (Obj x (far_link side)) }
    requires apart { at ≢ Obj y (near_link side) }
    requires differ { Obj y (near_link side) ≢ Obj x (far_link side) }
    ensures turned { IsRotated (link_of region.old) (link_of region.new) side at y x }
    ensures objects { SameObjects region.old region.new }
    ensures well { IsWell region.new }
{
    let near = End::Obj(y, side.near());
    region.exchange(at, near);
    region.exchange(near, End::Obj(x, side.far()));
}

/// Lets two entries change places in all links of a tree, and their balances with them.
pub(crate) fn trade<const S: usize>(region: &mut Region<S>, r: Ref, q: Ref)
    requires first { IsEntryBody (body region.old r) }
    requires second { IsEntryBody (body region.old q) }
    requires few { (balance_of region.old r < 256) × (balance_of region.old q < 256) }
    requires differ { r ≢ q }
    ensures traded { IsTraded region.old region.new r q }
    ensures well { IsWell region.new }
{
    region.exchange(End::Obj(r, PARENT), End::Obj(q, PARENT));
    region.exchange(End::Obj(r, LEFT), End::Obj(q, LEFT));
    region.exchange(End::Obj(r, RIGHT), End::Obj(q, RIGHT));
    let first = balance(region, r);
    let second = balance(region, q);
    set_balance(region, r, second);
    set_balance(region, q, first);
}
