//! What can be said of a text as a file: a table, damaged at an offset, or of another schema, and never two of them.
#![tactic(auto)]

mod laws;

pub use laws::no_text_has_two_verdicts;
