//! Texts and partition keys: lists of bytes, in unsigned byte order.

ghost use Rattle.std.specs.Prelude.{◌≡◌, ◌≤◌, length, IfOk, IsTrue, ◌↔◌};
ghost use Rattle.std.specs.Cmp.{partial_equiv_from_equiv, eq_by_cmp_equiv, partial_order_from_total};
ghost use Rattle.std.specs.Ordering.{eq_by_cmp, as_partial_cmp};
ghost use Rattle.std.proofs.Common.{refl};
ghost use Rattle.rc_position.specs.Position.{bytes_cmp, longest_partition_key, longest_text};
ghost use Rattle.rc_position.specs.laws.Orders.{bytes_cmp_total};

use std::alloc::{AllocError, Global};
use std::cmp::Ordering;
use std::marker::Model;

/// The most bytes of a partition key, which has at least one.
pub const LONGEST_PARTITION_KEY: usize = 64;

/// The most bytes of a text of a clustering key that is written or stored.
pub const LONGEST_TEXT: usize = 64;

/// The constants are the numbers of the definitions.
pub fn longest_keys_are_named()
    ensures partition_key { LONGEST_PARTITION_KEY ≡ longest_partition_key }
    ensures text { LONGEST_TEXT ≡ longest_text }
{}

/// A text: any bytes.
#[derive(Debug, Drop)]
pub struct Text {
    items: Vec<u8>,
}

impl Model for Text {
    ghost use Rattle.std.specs.Prelude.{List, ℕ};

    ghost Value = { List ℕ };

    ghost view = { λ t. t.items.items };
}

impl Text {
    /// The text of these bytes. The only error is want of memory.
    pub fn from_slice(alloc: Global, items: &[u8]) -> Result<Self, AllocError>
        ensures { IfOk result (λ t. t ≡ items.now) }
    {
        Ok(Text {
            items: Vec::from_slice(alloc, items)?,
        })
    }

    /// The text of these bytes, in the memory that holds them.
    pub fn from_vec(items: Vec<u8>) -> Self
        ensures { result ≡ items.items }
    {
        Text { items }
    }

    /// Its bytes.
    pub fn as_slice(&self) -> &[u8]
        ensures { result.now ≡ self.now }
    {
        self.items.as_slice()
    }

    /// An equal text. The only error is want of memory.
    pub fn copy(&self, alloc: Global) -> Result<Self, AllocError>
        ensures { IfOk result (λ t. t ≡ self.now) }
    {
        Text::from_slice(alloc, self.as_slice())
    }
}

impl PartialEq for Text {
    ghost eq = { eq_by_cmp bytes_cmp };

    ghost laws = { partial_equiv_from_equiv (eq_by_cmp_equiv bytes_cmp_total) };

    fn eq(&self, other: &Text) -> bool
        ensures value { result ≡ eq_by_cmp bytes_cmp self.now other.now }
        ensures same { IsTrue result ↔ (self.now ≡ other.now) }
    {
        self.cmp(other) == Ordering::Equal
    }
}

impl Eq for Text {
    ghost laws = { eq_by_cmp_equiv bytes_cmp_total };
}

impl PartialOrd for Text {
    ghost partial_cmp = { as_partial_cmp bytes_cmp };

    ghost laws = { partial_order_from_total bytes_cmp_total };

    fn partial_cmp(&self, other: &Text) -> Option<Ordering> {
        Some(self.cmp(other))
    }
}

impl Ord for Text {
    ghost cmp = { bytes_cmp };

    ghost total = { bytes_cmp_total };

    ghost matches_partial_cmp = { λ x y. refl };

    ghost matches_eq = { λ x y. refl };

    fn cmp(&self, other: &Text) -> Ordering {
        self.items.as_slice().cmp(other.items.as_slice())
    }
}

/// A partition key: 1 to 64 bytes. Partitions are ordered by the bytes of their keys.
#[derive(Debug, Drop)]
pub struct PartKey {
    items: Vec<u8>,
}

impl Model for PartKey {
    ghost use Rattle.std.specs.Prelude.{List, ℕ};
    ghost use Rattle.rc_position.specs.Position.{IsPartKey};

    ghost Value = { List ℕ };

    ghost view = { λ k. k.items.items };

    ghost invariant = { λ k. IsPartKey k.items.items };
}

impl PartKey {
    /// The partition key of these bytes, of which there are 1 to 64. The only error is want of memory.
    pub fn from_slice(alloc: Global, items: &[u8]) -> Result<Self, AllocError>
        requires not_empty { 1 ≤ length items.now }
        requires short { length items.now ≤ longest_partition_key }
        ensures { IfOk result (λ k. k ≡ items.now) }
    {
        Ok(PartKey {
            items: Vec::from_slice(alloc, items)?,
        })
    }

    /// The partition key of these bytes, of which there are 1 to 64, in the memory that holds them.
    pub fn from_vec(items: Vec<u8>) -> Self
        requires not_empty { 1 ≤ length items.items }
        requires short { length items.items ≤ longest_partition_key }
        ensures { result ≡ items.items }
    {
        PartKey { items }
    }

    /// Its bytes, of which there are 1 to 64.
    pub fn as_slice(&self) -> &[u8]
        ensures value { result.now ≡ self.now }
        ensures not_empty { 1 ≤ length self.now }
        ensures short { length self.now ≤ longest_partition_key }
    {
        self.items.as_slice()
    }

    /// An equal partition key. The only error is want of memory.
    pub fn copy(&self, alloc: Global) -> Result<Self, AllocError>
        ensures { IfOk result (λ k. k ≡ self.now) }
    {
        PartKey::from_slice(alloc, self.as_slice())
    }
}

impl PartialEq for PartKey {
    ghost eq = { eq_by_cmp bytes_cmp };

    ghost laws = { partial_equiv_from_equiv (eq_by_cmp_equiv bytes_cmp_total) };

    fn eq(&self, other: &PartKey) -> bool
        ensures value { result ≡ eq_by_cmp bytes_cmp self.now other.now }
        ensures same { IsTrue result ↔ (self.now ≡ other.now) }
    {
        self.cmp(other) == Ordering::Equal
    }
}

impl Eq for PartKey {
    ghost laws = { eq_by_cmp_equiv bytes_cmp_total };
}

impl PartialOrd for PartKey {
    ghost partial_cmp = { as_partial_cmp bytes_cmp };

    ghost laws = { partial_order_from_total bytes_cmp_total };

    fn partial_cmp(&self, other: &PartKey) -> Option<Ordering> {
        Some(self.cmp(other))
    }
}

impl Ord for PartKey {
    ghost cmp = { bytes_cmp };

    ghost total = { bytes_cmp_total };

    ghost matches_partial_cmp = { λ x y. refl };

    ghost matches_eq = { λ x y. refl };

    fn cmp(&self, other: &PartKey) -> Ordering {
        self.as_slice().cmp(other.as_slice())
    }
}
