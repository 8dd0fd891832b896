//! The top call: bytes in, bytes out, one line after another.
#![tactic(auto)]

mod late;
mod laws;
mod runs;
mod server;
mod session;
mod status;
mod words;

pub use laws::{
    asks_are_bounded, files_hold_what_was_flushed, lines_are_determined, runs_answer_lines,
    told_files_are_never_damaged,
};
pub use runs::{run, run_on, run_with};
pub use status::Status;
pub use words::Words;
