//! What is seen through the versions of a partition that stand in a region, up to one of them: at a position, at the head, and by its parts from a position on.
#![tactic(auto)]

mod parts;
mod reads;
mod said;
mod walk;

pub use parts::first_part;
pub use reads::{ReadAt, ReadHead, at, head};
