//! The machine without a cache, over a folder of tables, as a plain, slow program that takes one step after another.
#![tactic(auto)]

mod index;
mod joining;
mod memtable;
mod plain;
mod readers;

pub use plain::Plain;
pub use rc_folder::{Machine, OpenErr, is_built};
