//! Keys and positions: where the rows and the bounds of one partition stand, in one total order.
#![tactic(auto)]

mod comps;
mod keys;
pub mod laws;
mod positions;
mod slices;
mod steps;
mod texts;

pub use comps::Comp;
pub use keys::Key;
pub use positions::{Pos, Weight, end_pos, start_pos};
pub use slices::Slice;
pub use steps::Steps;
pub use texts::{LONGEST_PARTITION_KEY, LONGEST_TEXT, PartKey, Text, longest_keys_are_named};
