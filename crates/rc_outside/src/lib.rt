//! The outside of the shard: where bytes come from, where they go, and where files lie.
//!
//! Three traits say what the rest of the program may rely on. A `Source` is pulled for bytes, a `Sink` is pushed
//! bytes, a `Store` keeps files. Each counts its faults, and may tell the bytes that it holds, so that a contract
//! above can name them.
//!
//! Three kinds of ends have these traits: those in memory, whose calls fail where their maker lists them; sure ones,
//! which never fail; and the trusted edge: standard input, standard output and the folder of table files.
#![tactic(auto)]

mod calls;
mod counts;
mod files;
mod folder;
mod host;
mod mem_store;
mod memory;
mod names;
mod sinks;
mod sources;
mod standard;
mod stores;
mod sure;
mod sure_store;

pub use calls::StoreCall;
pub use folder::FolderStore;
pub use mem_store::MemStore;
pub use memory::{MemSink, MemSource};
pub use sinks::{Sink, SinkErr};
pub use sources::{Failed, Source};
pub use standard::{StdSink, StdSource};
pub use stores::{Store, StoreErr};
pub use sure::{SureSink, SureSource};
pub use sure_store::SureStore;
