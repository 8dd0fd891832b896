//! Whether a partition that was read again says what a snapshot of its chain knows, asked part by part.
#![tactic(auto)]

mod agreement;
mod comparing;
mod gaps;
pub mod laws;
mod passing;

pub use agreement::agrees;
