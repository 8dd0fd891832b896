//! The calls on snapshots.

ghost use Rattle.std.specs.Prelude.{◌≡◌, Contains, IfSome, false};
ghost use Rattle.std.specs.List.{AllByRecursion};
ghost use Rattle.rc_memory.specs.Memory.{HasPin};
ghost use Rattle.rc_chain_guarded.specs.Guarded.{IsTracked};
ghost use Rattle.rc_chain_guarded.specs.calls.Inner.{IsOther};

use crate::homes::SEGMENT;
use crate::known::{Held, Known};
use rc_chain::{Chains, ReadAt, ReadHead, Snap};
use rc_position::{Key, Pos};
use std::alloc::AllocError;

/// `snapshot`: the snapshot; none where the chain is not found by its key.
pub fn snapshot(
    chains: &mut Chains<SEGMENT>,
    known: &mut Known,
    id: u64,
) -> Result<Option<Held>, AllocError>
    requires { IsTracked chains.old known.old }
    ensures { IsTracked chains.new known.new }
{
    if !chains.is_there(id) {
        return Ok(None);
    }
    if !chains.is_attached(id) {
        return Ok(None);
    }
    match chains.snapshot(id) {
        Ok(snap) => Ok(Some(hold(chains, known, held_of(snap))?)),
        Err(error) => Err(error),
    }
}

// A snapshot is held.
fn hold(_chains: &Chains<SEGMENT>, known: &mut Known, held: Held) -> Result<Held, AllocError>
    requires known { IsTracked _chains.now known.old }
    requires there { HasPin _chains.now held.chain held.pin }
    ensures { IsTracked _chains.now known.new }
{
    match known.hold(held) {
        Ok(()) => Ok(held),
        Err(error) => Err(error),
    }
}

// What is kept of a snapshot.
fn held_of(snap: Snap) -> Held
    ensures { result ≡ record { chain = snap.chain; pin = snap.pin; phase = snap.phase } }
{
    let Snap { chain, pin, phase } = snap;
    Held { chain, pin, phase }
}

// The snapshot that is held.
fn snap_of(held: Held) -> Snap
    ensures chain { result.chain ≡ held.chain }
    ensures pin { result.pin ≡ held.pin }
{
    Snap {
        chain: held.chain,
        pin: held.pin,
        phase: held.phase,
    }
}

// Whether two snapshots are one.
fn is_same(other: Held, one: Held) -> bool
    ensures { result ≡ false → IsOther one other }
{
    other.chain == one.chain && other.pin == one.pin
}

// Whether a snapshot is among others.
fn is_among(held: &[Held], one: Held) -> bool
    ensures { result ≡ false → AllByRecursion (IsOther one) held.now }
{
    let mut left = held;
    while let [first, rest @ ..] = left {
        if is_same(*first, one) {
            return true;
        }
        left = rest;
    }
    false
}

// The one at an index.
fn held_at(known: &Known, index: usize) -> Option<Held>
    ensures { IfSome result (λ held. Contains known.now.held.items held) }
{
    if index < known.held.len() {
        return Some(known.held[index]);
    }
    None
}

/// `release`, of the one at an index.
pub fn release(chains: &mut Chains<SEGMENT>, known: &mut Known, index: usize) -> Option<Held>
    requires { IsTracked chains.old known.old }
    ensures { IsTracked chains.new known.new }
{
    if index >= known.held.len() {
        return None;
    }
    let held = known.take(index);
    if is_among(known.held.as_slice(), held) {
        return None;
    }
    chains.release(snap_of(held));
    Some(held)
}

/// `touch_key`, by the one at an index.
pub fn touch_key(
    chains: &mut Chains<SEGMENT>,
    known: &Known,
    index: usize,
    key: &Key,
) -> Option<Held>
    requires { IsTracked chains.old known.now }
    ensures { IsTracked chains.new known.now }
{
    match held_at(known, index) {
        Some(held) => {
            let snap = snap_of(held);
            chains.touch_key(&snap, key);
            let _held = held_of(snap);
            Some(held)
        }
        None => None,
    }
}

/// `pinned_at` and `may_fill`, of the one at an index.
pub fn standing(chains: &Chains<SEGMENT>, known: &Known, index: usize) -> Option<(u64, bool)>
    requires { IsTracked chains.now known.now }
{
    match held_at(known, index) {
        Some(held) => {
            let snap = snap_of(held);
            let shown = (chains.pinned_at(&snap), chains.may_fill(&snap));
            let _held = held_of(snap);
            Some(shown)
        }
        None => None,
    }
}

/// `at`, of the one at an index.
pub fn seen_at(
    chains: &Chains<SEGMENT>,
    known: &Known,
    index: usize,
    x: &Pos,
) -> Result<Option<ReadAt>, AllocError>
    requires { IsTracked chains.now known.now }
{
    match held_at(known, index) {
        Some(held) => {
            let snap = snap_of(held);
            let seen = chains.at(&snap, x);
            let _held = held_of(snap);
            Ok(Some(seen?))
        }
        None => Ok(None),
    }
}

/// `head`, of the one at an index.
pub fn seen_head(
    chains: &Chains<SEGMENT>,
    known: &Known,
    index: usize,
) -> Result<Option<ReadHead>, AllocError>
    requires { IsTracked chains.now known.now }
{
    match held_at(known, index) {
        Some(held) => {
            let snap = snap_of(held);
            let seen = chains.head(&snap);
            let _held = held_of(snap);
            Ok(Some(seen?))
        }
        None => Ok(None),
    }
}
