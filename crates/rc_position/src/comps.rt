//! The components of a clustering key.

ghost use Rattle.std.specs.Prelude.{◌≡◌, IfOk, IsTrue, ◌↔◌};
ghost use Rattle.std.specs.Cmp.{partial_equiv_from_equiv, eq_by_cmp_equiv, partial_order_from_total};
ghost use Rattle.std.specs.Ordering.{eq_by_cmp, as_partial_cmp};
ghost use Rattle.std.proofs.Common.{refl};
ghost use Rattle.rc_position.specs.Position.{comp_cmp};
ghost use Rattle.rc_position.specs.laws.Orders.{comp_cmp_total};

use crate::texts::Text;
use std::alloc::{AllocError, Global};
use std::cmp::Ordering;

/// One component of a clustering key. An int is less than a text; ints are ordered by number, texts by bytes.
#[derive(Debug, Drop)]
pub enum Comp {
    /// A signed number.
    Int(i64),
    /// Bytes.
    Text(Text),
}

impl Comp {
    /// An equal component. The only error is want of memory.
    pub fn copy(&self, alloc: Global) -> Result<Self, AllocError>
        ensures { IfOk result (λ c. c ≡ self.now) }
    {
        match self {
            Comp::Int(number) => Ok(Comp::Int(*number)),
            Comp::Text(text) => Ok(Comp::Text(text.copy(alloc)?)),
        }
    }
}

impl PartialEq for Comp {
    ghost eq = { eq_by_cmp comp_cmp };

    ghost laws = { partial_equiv_from_equiv (eq_by_cmp_equiv comp_cmp_total) };

    fn eq(&self, other: &Comp) -> bool
        ensures value { result ≡ eq_by_cmp comp_cmp self.now other.now }
        ensures same { IsTrue result ↔ (self.now ≡ other.now) }
    {
        self.cmp(other) == Ordering::Equal
    }
}

impl Eq for Comp {
    ghost laws = { eq_by_cmp_equiv comp_cmp_total };
}

impl PartialOrd for Comp {
    ghost partial_cmp = { as_partial_cmp comp_cmp };

    ghost laws = { partial_order_from_total comp_cmp_total };

    fn partial_cmp(&self, other: &Comp) -> Option<Ordering> {
        Some(self.cmp(other))
    }
}

impl Ord for Comp {
    ghost cmp = { comp_cmp };

    ghost total = { comp_cmp_total };

    ghost matches_partial_cmp = { λ x y. refl };

    ghost matches_eq = { λ x y. refl };

    fn cmp(&self, other: &Comp) -> Ordering {
        match (self, other) {
            (Comp::Int(a), Comp::Int(b)) => a.cmp(b),
            (Comp::Int(_), Comp::Text(_)) => Ordering::Less,
            (Comp::Text(_), Comp::Int(_)) => Ordering::Greater,
            (Comp::Text(a), Comp::Text(b)) => a.cmp(b),
        }
    }
}
