//! The kinds of objects in a segment, where each of their fields lies, and reading and writing a field.
#![tactic(auto)]

pub mod field;
pub mod kind;
pub mod laws;
pub mod layout;

pub use field::{Field, spell};
pub use kind::{Kind, fixed_size, link_get, link_put, links, round_up};
