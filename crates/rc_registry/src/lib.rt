//! Which chains of versions are there, by number, and what is known of the use of each.
#![tactic(auto)]

mod pins;
mod registry;
mod uses;

pub use pins::Pins;
pub use registry::Registry;
pub use uses::Use;
