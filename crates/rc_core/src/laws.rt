//! The laws of what this crate defines, each the contract of a function that does nothing.

pub mod carrying;
pub mod changes;
pub mod filling;
pub mod keeping;
pub mod losing;
pub mod memtables;
pub mod merging;
pub mod pinning;
pub mod placing;
pub mod reading;
pub mod seeing;
pub mod surgery;
pub mod updating;
