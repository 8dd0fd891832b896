//! What a snapshot sees of its chain.
ghost use Rattle.std.specs.Prelude.{◌≡◌, ◌≢◌, ◌↔◌, ℕ, Some, IfOk, IsTrue};
ghost use Rattle.std.specs.declared.cmp.Ordering.TheVariants.{Greater};
ghost use Rattle.rc_cell.specs.Orders.{tomb_cmp};
ghost use Rattle.rc_cell.specs.Winner.{greatest};
ghost use Rattle.rc_core.specs.Chain.{IsKnown, content, has_flag, states_at};
ghost use Rattle.rc_core.specs.Chains.{upto};
ghost use Rattle.rc_core.specs.Continuity.{static_states};
ghost use Rattle.rc_core.specs.Continuity.{version_tombs};
ghost use Rattle.rc_core.specs.Parts.{IsFirstPart};
ghost use Rattle.rc_core.specs.Steps.{pin_at};
ghost use Rattle.rc_core.specs.Version.{On};
ghost use Rattle.rc_position.specs.Position.{pos_cmp};
ghost use Rattle.rc_memory.specs.Memory.{KeptChain, HasPin, chain_at};
ghost use Rattle.rc_reading.specs.Reading.{IsRowGiven};

use super::{Chains, Snap};
use rc_core::Part;
use rc_position::Pos;
use rc_reading::{ReadAt, ReadHead, at, first_part, head};
use std::alloc::AllocError;

impl<const S: usize> Chains<S> {
    /// What a snapshot sees at a position: whether it is known there, the row, none where no row is seen, and the range tombstone. The only error is want of memory.
    pub fn at(&self, s: &Snap, x: &Pos) -> Result<ReadAt, AllocError>
        requires { HasPin self.now s.now.chain s.now.pin }
        ensures known { (k : KeptChain) (j : ℕ) → chain_at self.now s.now.chain ≡ Some k → pin_at k.chain.pins s.now.pin ≡ Some j → IfOk result (λ a. IsTrue a.known ↔ IsKnown k.chain.kind (upto k.chain.versions j) x.now) }
        ensures row { (k : KeptChain) (j : ℕ) → chain_at self.now s.now.chain ≡ Some k → pin_at k.chain.pins s.now.pin ≡ Some j → IfOk result (λ a. IsRowGiven a.row (content (states_at (On x.now) (upto k.chain.versions j))).0) }
        ensures tomb { (k : KeptChain) (j : ℕ) → chain_at self.now s.now.chain ≡ Some k → pin_at k.chain.pins s.now.pin ≡ Some j → IfOk result (λ a. a.tomb ≡ (content (states_at (On x.now) (upto k.chain.versions j))).1) }
    {
        let number = self.pinned_at(s);
        let used = self.registry.get(s.chain);
        at(self.alloc, &self.region, used.root, number, used.kind, x)
    }

    /// What a snapshot sees at the head of its partition: the greatest partition tombstone, whether the static row is known, and the static row, none where nothing of it is seen. The only error is want of memory.
    pub fn head(&self, s: &Snap) -> Result<ReadHead, AllocError>
        requires { HasPin self.now s.now.chain s.now.pin }
        ensures pt { (k : KeptChain) (j : ℕ) → chain_at self.now s.now.chain ≡ Some k → pin_at k.chain.pins s.now.pin ≡ Some j → IfOk result (λ h. h.pt ≡ greatest tomb_cmp (version_tombs (upto k.chain.versions j))) }
        ensures known { (k : KeptChain) (j : ℕ) → chain_at self.now s.now.chain ≡ Some k → pin_at k.chain.pins s.now.pin ≡ Some j → IfOk result (λ h. h.known ≡ has_flag k.chain.kind (static_states (upto k.chain.versions j))) }
        ensures row { (k : KeptChain) (j : ℕ) → chain_at self.now s.now.chain ≡ Some k → pin_at k.chain.pins s.now.pin ≡ Some j → IfOk result (λ h. IsRowGiven h.row (content (static_states (upto k.chain.versions j))).0) }
    {
        let number = self.pinned_at(s);
        let used = self.registry.get(s.chain);
        head(self.alloc, &self.region, used.root, number, used.kind)
    }

    /// The first part of what a snapshot sees from a position on, up to a bound that is not before it: the row there, or how far it is known that there is none, or how far the place is not known. It costs a few searches in each version. The only error is want of memory.
    pub fn first_part(&self, s: &Snap, x: &Pos, bound: &Pos) -> Result<Part, AllocError>
        requires pin { HasPin self.now s.now.chain s.now.pin }
        requires ahead { pos_cmp x.now bound.now ≢ Greater }
        ensures { (k : KeptChain) (j : ℕ) → chain_at self.now s.now.chain ≡ Some k → pin_at k.chain.pins s.now.pin ≡ Some j → IfOk result (IsFirstPart k.chain.kind (upto k.chain.versions j) x.now bound.now) }
    {
        let number = self.pinned_at(s);
        let used = self.registry.get(s.chain);
        first_part(
            self.alloc,
            &self.region,
            used.root,
            number,
            used.kind,
            x,
            bound,
        )
    }
}
