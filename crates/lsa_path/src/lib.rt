//! Paths along links, from which lists, ordered lists and chains are made: an object is put into one, taken out of it, or exchanged for another.
#![tactic(auto)]

pub mod laws;
mod path;

pub use path::{exchange_objects, insert_behind, take_out};
