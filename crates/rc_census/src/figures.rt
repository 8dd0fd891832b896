//! What a census tells.

/// How much of partitions the row cache has.
#[derive(Clone, Copy, Debug, PartialEq, Eq)]
pub struct Census {
    /// How many chains of the cache are found by their keys.
    pub partitions: u64,
    /// How many entries with a row their versions have together.
    pub rows: u64,
    /// How many entries without a row they have, the end dummies among them.
    pub dummies: u64,
}
