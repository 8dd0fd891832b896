//! Range tombstones of one partition: a canonical list of pieces, and the greatest tombstone at each position.
#![tactic(auto)]

pub mod laws;
mod list;
mod pieces;
mod sweep;

pub use list::Ranges;
pub use pieces::Piece;
