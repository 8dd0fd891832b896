//! One partition that says one thing before a position and another from there on, and the lines of its answer.
#![tactic(auto)]

pub mod laws;
