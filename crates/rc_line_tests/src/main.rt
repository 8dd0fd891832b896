//! Tests of lines: a command of each kind and the replies, each once.
#![tactic(auto)]

#[cfg(test)]
mod lines;

fn main() {}
