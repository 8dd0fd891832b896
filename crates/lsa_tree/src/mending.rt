//! A tree balanced again, from a place up.
ghost use Rattle.std.specs.Prelude.{◌≡◌, ◌≢◌, ◌<◌, suc, false};
ghost use Rattle.lsa_region.specs.Region.{IsWell};
ghost use Rattle.lsa_shape.specs.Flanks.{far_heavy};
ghost use Rattle.lsa_tree.specs.Entries.{balance_of};
ghost use Rattle.lsa_tree.specs.calls.Placing.{PlaceIn, Steep, IsMended, IsStepped, IsSettled};

use crate::links::{balance, child, door, owner, set_balance, turn};
use lsa_region::{End, Ref, Region};
use lsa_shape::Flank;

// One balance where another one is this, else 0.
fn given(leans: u64, when: u8, then: u8) -> u64
    ensures when { leans ≡ when → result ≡ then }
    ensures else_none { leans ≢ when → result ≡ 0 }
    ensures small { result < 256 }
{
    if leans == u64::from(when) {
        u64::from(then)
    } else {
        0
    }
}

// Balances an entry p that is deeper on this side by two, with x on that side, which is not deeper on the other one; whether it is as deep as before.
fn mend_once<const S: usize>(region: &mut Region<S>, side: Flank, at: End, p: Ref, x: Ref) -> bool
    requires steep { Steep region.old side at p x }
    requires leans { balance_of region.old x ≢ far_heavy side }
    ensures mended { (s : Steep region.old side at p x) → IsMended region.old region.new side at p x s result }
    ensures well { IsWell region.new }
{
    region.known();
    let leans = balance(region, x);
    turn(region, side, at, p, x);
    if leans == 0 {
        set_balance(region, x, u64::from(side.light()));
        set_balance(region, p, u64::from(side.heavy()));
        return true;
    }
    set_balance(region, x, 0);
    set_balance(region, p, 0);
    false
}

// The same where x is deeper on the other side: the entry z there comes into the place.
fn mend_twice<const S: usize>(region: &mut Region<S>, side: Flank, at: End, p: Ref, x: Ref)
    requires steep { Steep region.old side at p x }
    requires leans { balance_of region.old x ≡ far_heavy side }
    ensures mended { (s : Steep region.old side at p x) → IsMended region.old region.new side at p x s false }
    ensures well { IsWell region.new }
{
    region.known();
    let z = child(region, End::Obj(x, side.far()));
    let leans = balance(region, z);
    turn(region, side.other(), End::Obj(p, side.near()), x, z);
    turn(region, side, at, p, z);
    set_balance(region, x, given(leans, side.light(), side.heavy()));
    set_balance(region, p, given(leans, side.heavy(), side.light()));
    set_balance(region, z, 0);
}

// Balances an entry p that is deeper on this side by two, with x on that side; whether it is as deep as before.
fn mend<const S: usize>(region: &mut Region<S>, side: Flank, at: End, p: Ref, x: Ref) -> bool
    requires { Steep region.old side at p x }
    ensures mended { (s : Steep region.old side at p x) → IsMended region.old region.new side at p x s result }
    ensures well { IsWell region.new }
{
    region.known();
    if balance(region, x) == u64::from(side.light()) {
        mend_twice(region, side, at, p, x);
        false
    } else {
        mend_once(region, side, at, p, x)
    }
}

// What hangs at the end is deeper by one: one step up; the next end where what hangs there is deeper by one too.
fn rise<const S: usize>(region: &mut Region<S>, at: End) -> Option<End>
    requires { (p : PlaceIn region.old at) × (p.here ≡ suc p.there) }
    ensures stepped { (p : PlaceIn region.old at) → p.here ≡ suc p.there → IsStepped region.old region.new at p result }
    ensures well { IsWell region.new }
{
    region.known();
    match owner(at) {
        None => None,
        Some((side, p)) => {
            let above = door(region, p);
            let leans = balance(region, p);
            if leans == 0 {
                set_balance(region, p, u64::from(side.heavy()));
                return Some(above);
            }
            if leans == u64::from(side.light()) {
                set_balance(region, p, 0);
                return None;
            }
            let x = child(region, at);
            if mend(region, side, above, p, x) {
                Some(above)
            } else {
                None
            }
        }
    }
}

// What hangs at the end is less deep by one: one step up; the next end where what hangs there is less deep by one too.
fn sink<const S: usize>(region: &mut Region<S>, at: End) -> Option<End>
    requires { (p : PlaceIn region.old at) × (p.there ≡ suc p.here) }
    ensures stepped { (p : PlaceIn region.old at) → p.there ≡ suc p.here → IsStepped region.old region.new at p result }
    ensures well { IsWell region.new }
{
    region.known();
    match owner(at) {
        None => None,
        Some((side, p)) => {
            let above = door(region, p);
            let leans = balance(region, p);
            if leans == u64::from(side.heavy()) {
                set_balance(region, p, 0);
                return Some(above);
            }
            if leans == 0 {
                set_balance(region, p, u64::from(side.light()));
                return None;
            }
            let x = child(region, End::Obj(p, side.far()));
            if mend(region, side.other(), above, p, x) {
                None
            } else {
                Some(above)
            }
        }
    }
}

/// Balances a tree in which what hangs at an end is deeper by one than the balances say.
pub(crate) fn grow<const S: usize>(region: &mut Region<S>, start: End)
    requires { (p : PlaceIn region.old start) × (p.here ≡ suc p.there) }
    ensures settled { (p : PlaceIn region.old start) → p.here ≡ suc p.there → IsSettled region.old region.new start p }
    ensures well { IsWell region.new }
{
    let mut at = start;
    loop {
        region.known();
        match rise(region, at) {
            None => return,
            Some(above) => {
                region.known();
                at = above;
            }
        }
    }
}

/// Balances a tree in which what hangs at an end is less deep by one than the balances say.
pub(crate) fn fall<const S: usize>(region: &mut Region<S>, start: End)
    requires { (p : PlaceIn region.old start) × (p.there ≡ suc p.here) }
    ensures settled { (p : PlaceIn region.old start) → p.there ≡ suc p.here → IsSettled region.old region.new start p }
    ensures well { IsWell region.new }
{
    let mut at = start;
    loop {
        region.known();
        match sink(region, at) {
            None => return,
            Some(above) => {
                region.known();
                at = above;
            }
        }
    }
}
