ghost use Rattle.std.specs.Prelude.{◌≡◌, IfOk};

use std::alloc::{AllocError, Global};
use std::marker::Model;

/// The bytes of a cell, of any length. A contract sees the list of the bytes.
#[derive(Drop)]
pub struct Value {
    items: Vec<u8>,
}

impl Model for Value {
    ghost use Rattle.std.specs.Prelude.{ℕ, List};

    ghost Value = { List ℕ };

    ghost view = { λ v. v.items.items };
}

impl Value {
    /// The value of these bytes, or want of memory.
    pub fn from_slice(alloc: Global, items: &[u8]) -> Result<Self, AllocError>
        ensures { IfOk result (λ value. value ≡ items.now) }
    {
        let items = Vec::from_slice(alloc, items)?;
        Ok(Value { items })
    }

    /// The value of these bytes, in the memory that holds them.
    pub fn from_vec(items: Vec<u8>) -> Self
        ensures { result ≡ items.items }
    {
        Value { items }
    }

    /// The bytes in order.
    pub fn as_slice(&self) -> &[u8]
        ensures { result.now ≡ self.now }
    {
        self.items.as_slice()
    }

    /// An equal value of its own memory, or want of memory.
    pub fn copy(&self, alloc: Global) -> Result<Self, AllocError>
        ensures { IfOk result (λ value. value ≡ self.now) }
    {
        Value::from_slice(alloc, self.as_slice())
    }
}
