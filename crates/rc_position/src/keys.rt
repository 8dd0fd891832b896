//! Clustering keys and their prefixes.

ghost use Rattle.std.specs.Prelude.{◌≡◌, ◌+◌, [], IfOk, IsTrue, ◌↔◌};
ghost use Rattle.std.specs.Cmp.{partial_equiv_from_equiv, eq_by_cmp_equiv, partial_order_from_total};
ghost use Rattle.std.specs.Ordering.{eq_by_cmp, as_partial_cmp};
ghost use Rattle.std.proofs.Common.{refl};
ghost use Rattle.rc_position.specs.Position.{key_cmp, pos_cmp, row_pos};
ghost use Rattle.rc_position.specs.laws.Orders.{key_cmp_total};

use crate::comps::Comp;
use crate::positions::{Pos, Weight, compare};
use crate::steps::Steps;
use std::alloc::{AllocError, Global};
use std::cmp::Ordering;
use std::marker::Model;
use std::sync::ledger::Ledger;

/// A clustering key or a prefix of one: components, the most significant first.
/// Keys are ordered as the positions of their rows are.
#[derive(Debug, Drop)]
pub struct Key {
    items: Vec<Comp>,
}

impl Model for Key {
    ghost use Rattle.std.specs.Prelude.{List};
    ghost use Rattle.rc_position.specs.declared.comps.Comp.{Comp};

    ghost Value = { List Comp };

    ghost view = { λ k. k.items.items };
}

impl Key {
    /// The key of no components, which is the prefix of each key.
    pub fn empty(alloc: Global) -> Self
        ensures { result ≡ [] }
    {
        Key {
            items: Vec::new(alloc),
        }
    }

    /// The key of these components, which are copied. The only error is want of memory.
    pub fn from_slice(alloc: Global, items: &[Comp]) -> Result<Self, AllocError>
        ensures { IfOk result (λ k. k ≡ items.now) }
    {
        let mut copies = Vec::with_capacity(alloc, items.len())?;
        for comp in items {
            copies.push(comp.copy(alloc)?)?;
        }
        Ok(Key { items: copies })
    }

    /// The key of these components, in the memory that holds them.
    pub fn from_vec(items: Vec<Comp>) -> Self
        ensures { result ≡ items.items }
    {
        Key { items }
    }

    /// Its components.
    pub fn as_slice(&self) -> &[Comp]
        ensures { result.now ≡ self.now }
    {
        self.items.as_slice()
    }

    /// An equal key. The only error is want of memory.
    pub fn copy(&self, alloc: Global) -> Result<Self, AllocError>
        ensures { IfOk result (λ k. k ≡ self.now) }
    {
        Key::from_slice(alloc, self.as_slice())
    }

    /// The order of the position of its row to a position. It takes no memory.
    #[tactic(auto, unfolding(crate::specs::Position::pos_cmp))]
    pub fn compare_with_pos(&self, x: &Pos) -> Ordering
        ensures { result ≡ pos_cmp (row_pos self.now) x.now }
    {
        compare(self.as_slice(), Weight::At, x.prefix.as_slice(), x.weight)
    }

    /// The order of the position of its row to a position, counted as one comparison. It takes no memory.
    pub fn compare_with_pos_counted<L: Ledger>(&self, x: &Pos, steps: &mut Steps<L>) -> Ordering
        ensures value { result ≡ pos_cmp (row_pos self.now) x.now }
        ensures counted { steps.new ≡ steps.old + 1 }
    {
        steps.count();
        self.compare_with_pos(x)
    }
}

impl PartialEq for Key {
    ghost eq = { eq_by_cmp key_cmp };

    ghost laws = { partial_equiv_from_equiv (eq_by_cmp_equiv key_cmp_total) };

    fn eq(&self, other: &Key) -> bool
        ensures value { result ≡ eq_by_cmp key_cmp self.now other.now }
        ensures same { IsTrue result ↔ (self.now ≡ other.now) }
    {
        self.cmp(other) == Ordering::Equal
    }
}

impl Eq for Key {
    ghost laws = { eq_by_cmp_equiv key_cmp_total };
}

impl PartialOrd for Key {
    ghost partial_cmp = { as_partial_cmp key_cmp };

    ghost laws = { partial_order_from_total key_cmp_total };

    fn partial_cmp(&self, other: &Key) -> Option<Ordering> {
        Some(self.cmp(other))
    }
}

impl Ord for Key {
    ghost cmp = { key_cmp };

    ghost total = { key_cmp_total };

    ghost matches_partial_cmp = { λ x y. refl };

    ghost matches_eq = { λ x y. refl };

    #[tactic(auto, unfolding(crate::specs::Position::pos_cmp))]
    fn cmp(&self, other: &Key) -> Ordering {
        compare(self.as_slice(), Weight::At, other.as_slice(), Weight::At)
    }
}
