//! What a reader is given of a partition: lines of live values.
#![tactic(auto)]

mod answers;
mod compactor;
pub mod laws;
mod lines;
mod shown;

pub use answers::{answer_of, shown_rows};
pub use compactor::Compactor;
pub use lines::{Lines, OutLine};
pub use shown::Shown;
