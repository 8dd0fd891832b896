//! Positions at and between the rows of one partition.

ghost use Rattle.std.specs.Prelude.{◌≡◌, ◌+◌, IfOk, IsTrue, ◌↔◌, MatchBool};
ghost use Rattle.std.specs.Cmp.{partial_equiv_from_equiv, eq_by_cmp_equiv, partial_order_from_total};
ghost use Rattle.std.specs.Ordering.{eq_by_cmp, as_partial_cmp, ordering_reverse};
ghost use Rattle.std.proofs.Common.{refl};
ghost use Rattle.rc_position.specs.Position.{pos_cmp, prefix_cmp, shorter_cmp, start_bound, end_bound, IsBeforeRows, IsAfterRows};
ghost use Rattle.rc_position.specs.laws.Orders.{pos_cmp_total};

use crate::comps::Comp;
use crate::keys::Key;
use crate::steps::Steps;
use std::alloc::{AllocError, Global};
use std::cmp::Ordering;
use std::sync::ledger::Ledger;

/// Where a position stands at its prefix.
#[derive(Clone, Copy, Debug, PartialEq, Eq, PartialOrd, Ord)]
pub enum Weight {
    /// Before all keys with the prefix.
    Before,
    /// At the key itself.
    At,
    /// After all keys with the prefix.
    After,
}

/// A clustered position: a key prefix with a weight.
#[derive(Debug, Drop)]
pub struct Pos {
    /// The components, none for a bound of the whole partition.
    pub prefix: Key,
    /// Where it stands at them.
    pub weight: Weight,
}

impl Pos {
    /// An equal position. The only error is want of memory.
    pub fn copy(&self, alloc: Global) -> Result<Self, AllocError>
        ensures { IfOk result (λ x. x ≡ self.now) }
    {
        Ok(Pos {
            prefix: self.prefix.copy(alloc)?,
            weight: self.weight,
        })
    }

    /// Its order to another, counted as one comparison. It takes no memory.
    pub fn compare_counted<L: Ledger>(&self, other: &Pos, steps: &mut Steps<L>) -> Ordering
        ensures value { result ≡ pos_cmp self.now other.now }
        ensures counted { steps.new ≡ steps.old + 1 }
    {
        steps.count();
        self.cmp(other)
    }
}

impl Weight {
    /// The order of a position of this weight to each longer one that begins with its prefix.
    pub fn compare_with_longer(self) -> Ordering
        ensures { result ≡ shorter_cmp self }
    {
        match self {
            Weight::Before | Weight::At => Ordering::Less,
            Weight::After => Ordering::Greater,
        }
    }
}

// Two positions, given as prefix and weight.
pub(crate) fn compare(
    left: &[Comp],
    left_weight: Weight,
    right: &[Comp],
    right_weight: Weight,
) -> Ordering
    ensures { result ≡ prefix_cmp left.now left_weight right.now right_weight }
{
    let mut xs = left;
    let mut ys = right;
    loop {
        match (xs, ys) {
            ([], []) => return left_weight.cmp(&right_weight),
            ([], [_first, _rest @ ..]) => return left_weight.compare_with_longer(),
            ([_first, _rest @ ..], []) => return right_weight.compare_with_longer().reverse(),
            ([x, xs_rest @ ..], [y, ys_rest @ ..]) => match x.cmp(y) {
                Ordering::Equal => {
                    xs = xs_rest;
                    ys = ys_rest;
                }
                order => return order,
            },
        }
    }
}

/// Where a range begins that begins at a prefix: an inclusive one with the keys that have the prefix,
/// an exclusive one after them. No bound is the empty prefix, inclusive. The only error is want of memory.
pub fn start_pos(alloc: Global, prefix: &Key, inclusive: bool) -> Result<Pos, AllocError>
    ensures value { IfOk result (λ x. x ≡ start_bound prefix.now inclusive) }
    ensures rows { IfOk result (λ x. MatchBool inclusive (IsBeforeRows prefix.now x) (IsAfterRows prefix.now x)) }
{
    Ok(Pos {
        prefix: prefix.copy(alloc)?,
        weight: match inclusive {
            true => Weight::Before,
            false => Weight::After,
        },
    })
}

/// Where a range ends that ends at a prefix: an inclusive one after the keys that have the prefix,
/// an exclusive one before them. No bound is the empty prefix, inclusive. The only error is want of memory.
pub fn end_pos(alloc: Global, prefix: &Key, inclusive: bool) -> Result<Pos, AllocError>
    ensures value { IfOk result (λ x. x ≡ end_bound prefix.now inclusive) }
    ensures rows { IfOk result (λ x. MatchBool inclusive (IsAfterRows prefix.now x) (IsBeforeRows prefix.now x)) }
{
    Ok(Pos {
        prefix: prefix.copy(alloc)?,
        weight: match inclusive {
            true => Weight::After,
            false => Weight::Before,
        },
    })
}

impl PartialEq for Pos {
    ghost eq = { eq_by_cmp pos_cmp };

    ghost laws = { partial_equiv_from_equiv (eq_by_cmp_equiv pos_cmp_total) };

    fn eq(&self, other: &Pos) -> bool
        ensures value { result ≡ eq_by_cmp pos_cmp self.now other.now }
        ensures same { IsTrue result ↔ (self.now ≡ other.now) }
    {
        self.cmp(other) == Ordering::Equal
    }
}

impl Eq for Pos {
    ghost laws = { eq_by_cmp_equiv pos_cmp_total };
}

impl PartialOrd for Pos {
    ghost partial_cmp = { as_partial_cmp pos_cmp };

    ghost laws = { partial_order_from_total pos_cmp_total };

    fn partial_cmp(&self, other: &Pos) -> Option<Ordering> {
        Some(self.cmp(other))
    }
}

impl Ord for Pos {
    ghost cmp = { pos_cmp };

    ghost total = { pos_cmp_total };

    ghost matches_partial_cmp = { λ x y. refl };

    ghost matches_eq = { λ x y. refl };

    #[tactic(auto, unfolding(crate::specs::Position::pos_cmp))]
    fn cmp(&self, other: &Pos) -> Ordering {
        compare(
            self.prefix.as_slice(),
            self.weight,
            other.prefix.as_slice(),
            other.weight,
        )
    }
}
