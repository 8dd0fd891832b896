//! The table of all chains.

ghost use Rattle.std.specs.Prelude.{◌≡◌, ◌<◌, ◌≤◌, ◌+◌, ◌∷◌, ◌++◌, ◌↔◌, ℕ, [], Some, None, Option, IfNone, IfOk, IfSome, IsSome, IsSomeAnd, IsTrue, OnErr, OnOk, MatchOption, is_some, length, slice_index};
ghost use Rattle.std.specs.Vec.{vec_capacity};
ghost use Rattle.std.specs.VecDeque.{deque_capacity};
ghost use Rattle.rc_core.specs.Chains.{IsPinned};
ghost use Rattle.rc_core.specs.Steps.{free_number, pin_at};
ghost use Rattle.rc_registry.specs.calls.Kept.{IsLonger, IsTakenNumber};
ghost use Rattle.rc_registry.specs.Registry.{AreFree, AreOnce, HasRoot, IsAfter, IsNext, IsNumberIn, IsThere, detached_use, new_use, on_use, put_at_number, set_passed, set_updating, use_at, with_pin, with_use, without_pin, without_version};

use crate::uses::{self, Use, new_use};
use lsa_region::Root;
use rc_core::ChainKind;
use std::alloc::{AllocError, Global};
use std::collections::VecDeque;
use std::marker::Model;

/// The chains of versions, by number. The number of a chain that is gone is not used again before it was told.
#[derive(Drop)]
pub struct Registry {
    alloc: Global,
    uses: Vec<Option<Use>>,
    // numbers that may be used again
    vacant: Vec<u64>,
    dropped: VecDeque<u64>,
    // by the number of a root slot the chain that stands there; of other slots anything
    owners: Vec<u64>,
}

impl Model for Registry {
    ghost use Rattle.std.specs.Vec.{vec_capacity};
    ghost use Rattle.std.specs.VecDeque.{deque_capacity};
    ghost use Rattle.rc_registry.specs.Registry.{Registry as Chains};
    ghost use Rattle.rc_registry.specs.Kept.{IsKeptRegistry};

    ghost Value = { Chains };

    ghost view = { λ r. record { uses = r.uses.items; dropped = r.dropped.items } };

    ghost invariant = { λ r. IsKeptRegistry r.uses.items r.vacant.items r.dropped.items r.owners.items (vec_capacity r.vacant) (deque_capacity r.dropped) };
}

impl Registry {
    /// No chain, and nothing to be told.
    pub fn new(alloc: Global) -> Self
        ensures { result ≡ record { uses = []; dropped = [] } }
    {
        Registry {
            alloc,
            uses: Vec::new(alloc),
            vacant: Vec::new(alloc),
            dropped: VecDeque::new(alloc),
            owners: Vec::new(alloc),
        }
    }

    /// What every registry keeps. It does nothing.
    pub fn known(&self)
        ensures gone { (id : ℕ) → IsNumberIn self.now.dropped id → use_at self.now.uses id ≡ None }
        ensures once { AreOnce self.now.dropped }
        ensures roots { (root : Root) (i j : ℕ) → HasRoot self.now root i → HasRoot self.now root j → i ≡ j }
    {
        let _ = &self.uses;
    }

    /// Whether a chain of this number is there.
    pub fn is_there(&self, id: u64) -> bool
        ensures { result ≡ is_some (use_at self.now.uses id) }
    {
        match self.uses.get(id as usize) {
            Some(Some(_)) => true,
            _ => false,
        }
    }

    /// What is known of the use of a chain.
    pub fn get(&self, id: u64) -> &Use
        requires { IsThere self.now id }
        ensures { use_at self.now.uses id ≡ Some result.now }
    {
        used(&self.uses, id)
    }

    /// Whether a snapshot of a chain pins the version of a number.
    pub fn is_pinned(&self, id: u64, version: u64) -> bool
        requires { IsThere self.now id }
        ensures { IfSome (use_at self.now.uses id) (λ u. IsTrue result ↔ IsPinned u.pins version) }
    {
        self.get(id).pins.is_pinned(version)
    }

    /// The version of a chain that the snapshot of a number pins; None where the number is free.
    pub fn pin_at(&self, id: u64, pin: u64) -> Option<u64>
        requires { IsThere self.now id }
        ensures { IfSome (use_at self.now.uses id) (λ u. result ≡ pin_at u.pins pin) }
    {
        self.get(id).pins.at(pin)
    }

    /// Whether nobody pins a version of a chain.
    pub fn is_free(&self, id: u64) -> bool
        requires { IsThere self.now id }
        ensures { IfSome (use_at self.now.uses id) (λ u. IsTrue result ↔ AreFree u.pins) }
    {
        self.get(id).pins.are_free()
    }

    /// The chain that stands behind a root slot.
    pub fn owner(&self, root: Root) -> u64
        requires { (id : ℕ) × HasRoot self.now root id }
        ensures { (id : ℕ) → HasRoot self.now root id → result ≡ id }
    {
        self.owners[root.number]
    }

    /// The least number of a chain after another number, or of all where that is None. None where there is no such chain.
    pub fn next(&self, after: Option<u64>) -> Option<u64>
        ensures next { IfSome result (IsNext self.now after) }
        ensures none { IfNone result ((n : ℕ) → IsAfter after n → use_at self.now.uses n ≡ None) }
    {
        match after {
            None => next_from(&self.uses, 0),
            Some(number) => {
                let Some(first) = number.checked_add(1) else {
                    return None;
                };
                next_from(&self.uses, first)
            }
        }
    }

    /// A new chain, attached and pinned by nobody, whose versions stand behind a root slot; its number, which is no other chain's and none that is still to be told. The only
    /// error is want of memory, which changes nothing.
    pub fn insert(&mut self, root: Root, kind: ChainKind) -> Result<u64, AllocError>
        requires { (id : ℕ) → HasRoot self.old root id → ⊥ }
        ensures made { IfOk result (λ id. self.new ≡ with_use id (Some (new_use root kind)) self.old) }
        ensures vacant { IfOk result (λ id. use_at self.old.uses id ≡ None) }
        ensures fresh { IfOk result (λ id. IsNumberIn self.old.dropped id → ⊥) }
        ensures err { OnErr result (self.new ≡ self.old) }
    {
        make_room(
            &mut self.uses,
            &mut self.vacant,
            &mut self.dropped,
            &mut self.owners,
            root,
        )?;
        let id = take_number(&mut self.uses, &mut self.vacant);
        self.uses[id as usize] = Some(new_use(self.alloc, root, kind));
        self.owners[root.number] = id;
        Ok(id)
    }

    /// A chain is no longer found by its key, and not under update.
    pub fn detach(&mut self, id: u64)
        requires { IsThere self.old id }
        ensures { self.new ≡ on_use id detached_use self.old }
    {
        uses::detach(&mut self.uses[id as usize]);
    }

    /// A chain is under update, or no longer.
    pub fn set_updating(&mut self, id: u64, updating: bool)
        requires { IsThere self.old id }
        ensures { self.new ≡ on_use id (set_updating updating) self.old }
    {
        uses::set_updating(&mut self.uses[id as usize], updating);
    }

    /// A chain has the cleaner's mark, or no longer.
    pub fn set_passed(&mut self, id: u64, passed: bool)
        requires { IsThere self.old id }
        ensures { self.new ≡ on_use id (set_passed passed) self.old }
    {
        uses::set_passed(&mut self.uses[id as usize], passed);
    }

    /// A snapshot of a version of a chain more; its number, the least that is free. The only error is want of memory, which changes nothing.
    pub fn pin(&mut self, id: u64, version: u64) -> Result<u64, AllocError>
        requires { IsThere self.old id }
        ensures number { IfSome (use_at self.old.uses id) (λ u. IfOk result (λ n. n ≡ free_number u.pins)) }
        ensures pinned { OnOk result (self.new ≡ on_use id (with_pin version) self.old) }
        ensures err { OnErr result (self.new ≡ self.old) }
    {
        uses::pin(&mut self.uses[id as usize], version)
    }

    /// Takes a snapshot of a chain back, by its number; the other snapshots keep theirs.
    pub fn unpin(&mut self, id: u64, pin: u64)
        requires { IsSomeAnd (use_at self.old.uses id) (λ u. IsSome (pin_at u.pins pin)) }
        ensures { self.new ≡ on_use id (without_pin pin) self.old }
    {
        uses::unpin(&mut self.uses[id as usize], pin);
    }

    /// The version of a number of a chain is gone: snapshots of newer ones pin numbers less by one.
    pub fn renumber(&mut self, id: u64, version: u64)
        requires { IsThere self.old id }
        ensures { self.new ≡ on_use id (without_version version) self.old }
    {
        uses::renumber(&mut self.uses[id as usize], version);
    }

    /// A chain is gone; its number is to be told.
    pub fn remove(&mut self, id: u64)
        requires { IsThere self.old id }
        ensures { self.new ≡ record { uses = put_at_number id None self.old.uses; dropped = self.old.dropped ++ id ∷ [] } }
    {
        self.uses[id as usize] = None;
        self.dropped.push_back_reserved(id);
    }

    /// Tells the number of a chain that is gone, each once, in the order in which they went; None where each was told. From then on it may be used again.
    pub fn take_dropped(&mut self) -> Option<u64>
        ensures { MatchOption result ((self.old.dropped ≡ []) × (self.new ≡ self.old)) (λ id. self.old ≡ record { uses = self.new.uses; dropped = id ∷ self.new.dropped }) }
    {
        let Some(id) = self.dropped.pop_front() else {
            return None;
        };
        self.vacant.push_reserved(id);
        Some(id)
    }
}

// The use of a chain that is there.
fn used(uses: &[Option<Use>], id: u64) -> &Use
    requires { IsSome (use_at uses.now id) }
    ensures { use_at uses.now id ≡ Some result.now }
{
    uses[id as usize].as_ref().unwrap()
}

// The least number of a chain from another number on.
fn next_from(uses: &[Option<Use>], first: u64) -> Option<u64>
    ensures next { IfSome result (λ id. IsSome (use_at uses.now id) × (first ≤ id) × ((n : ℕ) → first ≤ n → n < id → use_at uses.now n ≡ None)) }
    ensures none { IfNone result ((n : ℕ) → first ≤ n → use_at uses.now n ≡ None) }
{
    for id in first..uses.len() as u64 {
        if uses[id as usize].is_some() {
            return Some(id);
        }
    }
    None
}

// Room for one chain more, whose versions stand behind a root slot: among the owners and, where no number is vacant, for one number more among all and among those that are
// vacant or dropped. Only the owners change.
fn make_room(
    uses: &mut Vec<Option<Use>>,
    vacant: &mut Vec<u64>,
    dropped: &mut VecDeque<u64>,
    owners: &mut Vec<u64>,
    root: Root,
) -> Result<(), AllocError>
    ensures same { (uses.new.items ≡ uses.old.items) × (vacant.new.items ≡ vacant.old.items) × (dropped.new.items ≡ dropped.old.items) }
    ensures wider { (vec_capacity vacant.old ≤ vec_capacity vacant.new) × (deque_capacity dropped.old ≤ deque_capacity dropped.new) }
    ensures owners { IsLonger owners.old.items owners.new.items }
    ensures within { OnOk result (root.number < length owners.new.items) }
    ensures room { OnOk result (vacant.old.items ≡ [] → (length uses.old.items < vec_capacity uses.new) × (length uses.old.items < vec_capacity vacant.new) × (length uses.old.items < deque_capacity dropped.new)) }
{
    cover(owners, root.number)?;
    if !vacant.is_empty() {
        return Ok(());
    }
    let numbers = uses.len() + 1;
    uses.reserve(1)?;
    vacant.reserve(numbers)?;
    dropped.reserve(numbers.saturating_sub(dropped.len()))
}

// Takes a number at which no chain is: one that is vacant, or one more.
fn take_number(uses: &mut Vec<Option<Use>>, vacant: &mut Vec<u64>) -> u64
    requires { vacant.old.items ≡ [] → length uses.old.items < vec_capacity uses.old }
    ensures taken { IsTakenNumber uses.old.items uses.new.items vacant.old.items vacant.new.items result }
    ensures room { vec_capacity vacant.new ≡ vec_capacity vacant.old }
{
    if let Some(id) = vacant.pop() {
        return id;
    }
    let id = uses.len() as u64;
    uses.push_reserved(None);
    id
}

// Makes a list reach a number. What it has stays.
fn cover(owners: &mut Vec<u64>, number: usize) -> Result<(), AllocError>
    ensures within { OnOk result (number < length owners.new.items) }
    ensures owners { IsLonger owners.old.items owners.new.items }
{
    if number < owners.len() {
        return Ok(());
    }
    let Some(len) = number.checked_add(1) else {
        return Err(AllocError);
    };
    owners.resize(len, 0)
}
