//! A reader over a snapshot that is known in part, with a stream below it, and what fills the snapshot.
#![tactic(auto)]

mod below;
mod filling;
mod parts;
mod readers;
mod spots;

pub use readers::CacheReader;
