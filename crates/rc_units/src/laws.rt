//! The laws of what this crate defines, each the contract of a function that does nothing.

pub mod chaining;
pub mod cleaning;
pub mod updating;
