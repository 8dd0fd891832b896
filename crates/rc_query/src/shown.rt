//! The values that a line shows.

ghost use Rattle.std.specs.Prelude.{◌≡◌, [], ◌++◌, IfOk, take};

use rc_cell::Value;
use std::alloc::{AllocError, Global};
use std::marker::Model;

/// The values that a line shows: pairs of a column's number and its value. A contract sees the list of the pairs.
#[derive(Drop)]
pub struct Shown {
    items: Vec<(u8, Value)>,
}

impl Model for Shown {
    ghost use Rattle.std.specs.Prelude.{ℕ, List};

    ghost Value = { List (ℕ × List ℕ) };

    ghost view = { λ s. s.items.items };
}

impl Shown {
    /// No values.
    pub fn empty(alloc: Global) -> Self
        ensures { result ≡ [] }
    {
        Shown {
            items: Vec::new(alloc),
        }
    }

    /// The values of these pairs, which are copied. The only error is want of memory.
    pub fn from_slice(alloc: Global, items: &[(u8, Value)]) -> Result<Self, AllocError>
        ensures { IfOk result (λ shown. shown ≡ items.now) }
    {
        let mut copies = Vec::with_capacity(alloc, items.len())?;
        for item in items {
            copies.push((item.0, item.1.copy(alloc)?))?;
        }
        Ok(Shown { items: copies })
    }

    // These values.
    pub(crate) fn of(items: Vec<(u8, Value)>) -> Self
        ensures { result ≡ items.items }
    {
        Shown { items }
    }

    /// The pairs in order.
    pub fn as_slice(&self) -> &[(u8, Value)]
        ensures { result.now ≡ self.now }
    {
        self.items.as_slice()
    }

    /// Equal values of their own memory. The only error is want of memory.
    pub fn copy(&self, alloc: Global) -> Result<Self, AllocError>
        ensures { IfOk result (λ shown. shown ≡ self.now) }
    {
        Shown::from_slice(alloc, self.as_slice())
    }
}
