//! An open reader over the row cache: over a cached stream of its partition, which is filled from what was read of the tables, and snapshots of what is written of it.
#![tactic(auto)]

mod filling;
mod forms;
pub mod laws;
mod layers;
mod memtables;
mod opening;
mod optional;
mod pages;
mod paging;
mod past;
mod remainders;
mod seeking;
mod serving;
mod standing;

pub use forms::{LeavesOver, PartReader};
pub use layers::{HeldSnaps, Layers};
pub use memtables::MemtableStream;
pub use optional::Optional;
pub use pages::{OpenReader, PageErr};
pub use remainders::Remainder;
