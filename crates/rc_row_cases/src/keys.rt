//! The key of a word: its components with commas between them, or `*`.

use crate::answers::says;
use rc_position::{Comp, Key, Text};
use rc_spelling::{read_components, signed};
use std::alloc::{AllocError, Global};

// The component that bytes spell: a number is an int.
fn comp_of(alloc: Global, bytes: &[u8]) -> Result<Comp, AllocError> {
    match signed(bytes) {
        Some(number) => Ok(Comp::Int(number)),
        None => Ok(Comp::Text(Text::from_slice(alloc, bytes)?)),
    }
}

fn push_components(
    alloc: Global,
    spelled: &[Vec<u8>],
    comps: &mut Vec<Comp>,
) -> Result<(), AllocError> {
    for bytes in spelled {
        comps.push(comp_of(alloc, bytes.as_slice())?)?;
    }
    Ok(())
}

fn key_spelled(alloc: Global, spelled: &[Vec<u8>]) -> Result<Key, AllocError> {
    let mut comps = Vec::new(alloc);
    push_components(alloc, spelled, &mut comps)?;
    Ok(Key::from_vec(comps))
}

/// The key that a word spells: a component that is a number is an int.
pub(crate) fn key_of(alloc: Global, word: &[u8]) -> Result<Option<Key>, AllocError> {
    if says(word, "*") {
        return Ok(Some(Key::empty(alloc)));
    }
    match read_components(alloc, word, 5)? {
        Some(spelled) => Ok(Some(key_spelled(alloc, spelled.as_slice())?)),
        None => Ok(None),
    }
}
