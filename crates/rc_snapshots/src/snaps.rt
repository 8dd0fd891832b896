//! The snapshots of what is written of a partition.
use rc_cursor::Snap;

/// What a reader of a partition holds of what stands in no table: a snapshot of what is sealed of it, and one of what is written since, each where something is.
pub struct Snaps {
    /// Of the sealed writes.
    pub sealed: Option<Snap>,
    /// Of the later ones.
    pub active: Option<Snap>,
}
