//! Cases of what words spell. `bytes WORD` and `parts WORD` tell bytes in hexadecimal, of a word and of each of its components, with `;` behind each;
//! `number WORD` tells the word as a number, as a count and as a number with a sign; `words LINE` how many words a line has; `print BYTES` and
//! `key KEY` how they are printed, behind a `>`.

use crate::cutting::says;
use rc_position::{Comp, Text};
use rc_spelling::{
    count, number, print_bytes, print_key, read_bytes, read_components, signed, words,
};
use std::alloc::{AllocError, Global};

/// Tells what is told of a word; whether it is such a case.
pub(crate) fn word_told(
    alloc: Global,
    kind: &[u8],
    word: &[u8],
    told: &mut Vec<u8>,
) -> Result<bool, AllocError> {
    if says(kind, "bytes") {
        tell_bytes(alloc, word, told)?;
    } else if says(kind, "parts") {
        tell_parts(alloc, word, told)?;
    } else if says(kind, "number") {
        tell_numbers(alloc, word, told)?;
    } else if says(kind, "words") {
        tell_count(alloc, word, told)?;
    } else if says(kind, "print") {
        print_word(word, told)?;
    } else if says(kind, "key") {
        print_comps(alloc, word, told)?;
    } else {
        return Ok(false);
    }
    Ok(true)
}

fn tell_bytes(alloc: Global, word: &[u8], told: &mut Vec<u8>) -> Result<(), AllocError> {
    match read_bytes(alloc, word)? {
        Some(bytes) => tell_hex(alloc, bytes.as_slice(), told),
        None => told.extend_from_slice(b"none"),
    }
}

fn tell_hex(alloc: Global, bytes: &[u8], told: &mut Vec<u8>) -> Result<(), AllocError> {
    let spelled = hex::encode(alloc, bytes)?;
    told.extend_from_slice(spelled.as_bytes())
}

fn tell_each(alloc: Global, components: &[Vec<u8>], told: &mut Vec<u8>) -> Result<(), AllocError> {
    for bytes in components {
        tell_hex(alloc, bytes.as_slice(), told)?;
        told.push(b';')?;
    }
    Ok(())
}

fn tell_parts(alloc: Global, word: &[u8], told: &mut Vec<u8>) -> Result<(), AllocError> {
    match read_components(alloc, word, 5)? {
        Some(components) => tell_each(alloc, components.as_slice(), told),
        None => told.extend_from_slice(b"none"),
    }
}

fn tell_numbers(alloc: Global, word: &[u8], told: &mut Vec<u8>) -> Result<(), AllocError> {
    let plain = number(word, u64::MAX);
    let counted = count(word, u32::MAX);
    let with_sign = signed(word);
    let text = format!(in alloc; "{plain:?} {counted:?} {with_sign:?}")?;
    told.extend_from_slice(text.as_bytes())
}

fn tell_count(alloc: Global, line: &[u8], told: &mut Vec<u8>) -> Result<(), AllocError> {
    let found = words(alloc, line)?.len();
    let text = format!(in alloc; "{found}")?;
    told.extend_from_slice(text.as_bytes())
}

fn print_word(bytes: &[u8], told: &mut Vec<u8>) -> Result<(), AllocError> {
    told.push(b'>')?;
    print_bytes(bytes, told)
}

fn print_comps(alloc: Global, word: &[u8], told: &mut Vec<u8>) -> Result<(), AllocError> {
    let comps = comps_of(alloc, word)?;
    told.push(b'>')?;
    print_key(comps.as_slice(), told)
}

// The component that bytes spell: a number is an int.
fn comp_of(bytes: Vec<u8>) -> Comp {
    match signed(bytes.as_slice()) {
        Some(number) => Comp::Int(number),
        None => Comp::Text(Text::from_vec(bytes)),
    }
}

fn each_comp(alloc: Global, components: Vec<Vec<u8>>) -> Result<Vec<Comp>, AllocError> {
    let mut comps = Vec::new(alloc);
    for bytes in components {
        comps.push(comp_of(bytes))?;
    }
    Ok(comps)
}

/// The components that a word spells, of which those that are numbers are ints; none where it spells none.
pub(crate) fn comps_of(alloc: Global, word: &[u8]) -> Result<Vec<Comp>, AllocError> {
    match read_components(alloc, word, 5)? {
        Some(components) => each_comp(alloc, components),
        None => Ok(Vec::new(alloc)),
    }
}
