//! Root slots, and the ends of pairs.

use lsa_store::Ref;

/// A root slot: an end of a pair that lies in no object.
#[derive(Clone, Copy, Debug, PartialEq, Eq)]
pub struct Root {
    /// The slot's number.
    pub number: usize,
}

/// An end of a pair.
#[derive(Clone, Copy, Debug, PartialEq, Eq)]
pub enum End {
    /// The link of this field number of an object.
    Obj(Ref, u8),
    /// A root slot.
    Slot(Root),
}
