//! Cases of positions. `order KEY WEIGHT KEY WEIGHT` compares two of them in each way that there is; `within FROM TO KEY`
//! asks whether the row of a key is in a range. A key is its components with commas between them, or `*`.

use crate::answers::{NO_CASE, order_word, says, tell_either};
use rc_position::{Comp, Key, Pos, Slice, Text, Weight, end_pos, start_pos};
use rc_rowcode::{compare_code_with_key, compare_code_with_pos, compare_codes};
use rc_spelling::{read_components, signed};
use std::alloc::{AllocError, Global};
use std::cmp::Ordering;

// The component that bytes spell: a number is an int.
fn comp_of(alloc: Global, bytes: &[u8]) -> Result<Comp, AllocError> {
    match signed(bytes) {
        Some(number) => Ok(Comp::Int(number)),
        None => Ok(Comp::Text(Text::from_slice(alloc, bytes)?)),
    }
}

fn push_components(
    alloc: Global,
    spelled: &[Vec<u8>],
    comps: &mut Vec<Comp>,
) -> Result<(), AllocError> {
    for bytes in spelled {
        comps.push(comp_of(alloc, bytes.as_slice())?)?;
    }
    Ok(())
}

fn key_spelled(alloc: Global, spelled: &[Vec<u8>]) -> Result<Key, AllocError> {
    let mut comps = Vec::new(alloc);
    push_components(alloc, spelled, &mut comps)?;
    Ok(Key::from_vec(comps))
}

// The key that a word spells: a component that is a number is an int.
fn key_of(alloc: Global, word: &[u8]) -> Result<Option<Key>, AllocError> {
    if says(word, "*") {
        return Ok(Some(Key::empty(alloc)));
    }
    match read_components(alloc, word, 5)? {
        Some(spelled) => Ok(Some(key_spelled(alloc, spelled.as_slice())?)),
        None => Ok(None),
    }
}

/// The weight of a word.
pub(crate) fn weight_of(word: &[u8]) -> Option<Weight> {
    if says(word, "before") {
        return Some(Weight::Before);
    }
    if says(word, "at") {
        return Some(Weight::At);
    }
    if says(word, "after") {
        return Some(Weight::After);
    }
    None
}

fn pos_of(alloc: Global, key: &[u8], weight: &[u8]) -> Result<Option<Pos>, AllocError> {
    let Some(weight) = weight_of(weight) else {
        return Ok(None);
    };
    match key_of(alloc, key)? {
        Some(prefix) => Ok(Some(Pos { prefix, weight })),
        None => Ok(None),
    }
}

// A count as a byte; 255 of one that passes it.
fn byte_of(count: usize) -> u8 {
    u8::try_from(count).unwrap_or(255)
}

fn push_text(text: &Text, code: &mut Vec<u8>) -> Result<(), AllocError> {
    code.push(1)?;
    code.push(byte_of(text.as_slice().len()))?;
    code.extend_from_slice(text.as_slice())
}

fn push_int(number: i64, code: &mut Vec<u8>) -> Result<(), AllocError> {
    code.push(0)?;
    code.extend_from_slice(&number.to_le_bytes())
}

fn push_comps(comps: &[Comp], code: &mut Vec<u8>) -> Result<(), AllocError> {
    code.push(byte_of(comps.len()))?;
    for comp in comps {
        match comp {
            Comp::Int(number) => push_int(*number, code)?,
            Comp::Text(text) => push_text(text, code)?,
        }
    }
    Ok(())
}

fn weight_byte(weight: Weight) -> u8 {
    match weight {
        Weight::Before => 0,
        Weight::At => 1,
        Weight::After => 2,
    }
}

// The code of a position, spelt by hand from the table of the formats.
fn code_of(alloc: Global, x: &Pos) -> Result<Vec<u8>, AllocError> {
    let mut code = vec![in alloc; weight_byte(x.weight)]?;
    push_comps(x.prefix.as_slice(), &mut code)?;
    Ok(code)
}

// Whether each way to compare gives this order.
fn all_give(order: Ordering, x: &Pos, y: &Pos, a: &[u8], b: &[u8]) -> bool {
    let codes = compare_codes(a, b) == order && compare_codes(b, a) == order.reverse();
    let mixed = compare_code_with_pos(a, y) == order && x.cmp(y) == order;
    let keys = match y.weight {
        Weight::At => {
            compare_code_with_key(a, &y.prefix) == order
                && y.prefix.compare_with_pos(x) == order.reverse()
        }
        _ => true,
    };
    codes && mixed && keys
}

// Tells how two positions are ordered, or that ways to compare them differ.
fn compared(alloc: Global, x: &Pos, y: &Pos, text: &mut String) -> Result<(), AllocError> {
    let a = code_of(alloc, x)?;
    let b = code_of(alloc, y)?;
    tell_order(x, y, a.as_slice(), b.as_slice(), text)
}

fn tell_order(x: &Pos, y: &Pos, a: &[u8], b: &[u8], text: &mut String) -> Result<(), AllocError> {
    let order = x.cmp(y);
    if all_give(order, x, y, a, b) {
        return text.push_str(order_word(order));
    }
    text.push_str("differs")
}

/// Tells how two positions are ordered.
pub(crate) fn order(
    alloc: Global,
    left: &[u8],
    left_weight: &[u8],
    right: &[u8],
    right_weight: &[u8],
    text: &mut String,
) -> Result<(), AllocError> {
    match pos_of(alloc, left, left_weight)? {
        Some(x) => compared_with(alloc, &x, right, right_weight, text),
        None => text.push_str(NO_CASE),
    }
}

// The same of a position and the other one's words.
fn compared_with(
    alloc: Global,
    x: &Pos,
    key: &[u8],
    weight: &[u8],
    text: &mut String,
) -> Result<(), AllocError> {
    match pos_of(alloc, key, weight)? {
        Some(y) => compared(alloc, x, &y, text),
        None => text.push_str(NO_CASE),
    }
}

// The position where a range begins: `[` stands at an inclusive bound.
fn start_of(alloc: Global, word: &[u8]) -> Result<Option<Pos>, AllocError> {
    let Some((opening, spelled)) = word.split_first() else {
        return Ok(None);
    };
    match key_of(alloc, spelled)? {
        Some(key) => Ok(Some(start_pos(alloc, &key, *opening == b'[')?)),
        None => Ok(None),
    }
}

// The position where a range ends: `]` stands at an inclusive bound.
fn end_of(alloc: Global, word: &[u8]) -> Result<Option<Pos>, AllocError> {
    let Some((closing, spelled)) = word.split_last() else {
        return Ok(None);
    };
    match key_of(alloc, spelled)? {
        Some(key) => Ok(Some(end_pos(alloc, &key, *closing == b']')?)),
        None => Ok(None),
    }
}

// Tells whether a position is in a range, or that it is not in the copy.
fn found(alloc: Global, slice: &Slice, x: &Pos, text: &mut String) -> Result<(), AllocError> {
    let same = slice.copy(alloc)?;
    if slice.has(x) != same.has(x) {
        return text.push_str("differs");
    }
    tell_either(slice.has(x), "in", "out", text)
}

// The range of two bounds.
fn slice_of(alloc: Global, from: &[u8], to: &[u8]) -> Result<Option<Slice>, AllocError> {
    let Some(from) = start_of(alloc, from)? else {
        return Ok(None);
    };
    match end_of(alloc, to)? {
        Some(to) => Ok(Some(Slice { from, to })),
        None => Ok(None),
    }
}

/// Tells whether the row of a key is in a range: `[` and `]` stand at inclusive bounds, `(` and `)` at exclusive ones.
pub(crate) fn within(
    alloc: Global,
    from: &[u8],
    to: &[u8],
    key: &[u8],
    text: &mut String,
) -> Result<(), AllocError> {
    match slice_of(alloc, from, to)? {
        Some(slice) => found_key(alloc, &slice, key, text),
        None => text.push_str(NO_CASE),
    }
}

// The same of a range and the word of the key.
fn found_key(
    alloc: Global,
    slice: &Slice,
    key: &[u8],
    text: &mut String,
) -> Result<(), AllocError> {
    match pos_of(alloc, key, b"at")? {
        Some(x) => found(alloc, slice, &x, text),
        None => text.push_str(NO_CASE),
    }
}
