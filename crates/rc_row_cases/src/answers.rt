//! The answers to cases: what is printed for them.

use std::alloc::AllocError;

/// What is printed for a line that is no case.
pub(crate) const NO_CASE: &str = "no case";

/// Tells one of two words.
pub(crate) fn tell_either(
    holds: bool,
    yes: &str,
    no: &str,
    text: &mut String,
) -> Result<(), AllocError> {
    text.push_str(if holds { yes } else { no })
}

/// Whether a word is this one.
pub(crate) fn says(word: &[u8], text: &str) -> bool {
    word == text.as_bytes()
}
