//! The region: typed objects in segments, whose links are halves of pairs.
#![tactic(auto)]

mod code;
pub mod end;
pub mod laws;
mod links;
mod mover;
mod region;
mod slots;

pub use end::{End, Root};
pub use lsa_store::Ref;
pub use region::Region;
