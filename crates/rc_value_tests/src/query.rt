//! Lines copied. What a reader is given are cases that a program reads.

use rc_cell::Value;
use rc_position::{Comp, Key};
use rc_query::{Lines, OutLine, Shown};
use std::alloc::{AllocError, Global};
use std::test::Fail;

// The row of the key 1, whose value in column 3 is `ann`.
fn line_of(alloc: Global) -> Result<OutLine, AllocError> {
    let key = Key::from_slice(alloc, &[Comp::Int(1)])?;
    let shown = Shown::from_slice(alloc, &[(3, Value::from_slice(alloc, b"ann")?)])?;
    Ok(OutLine::Row(key, shown))
}

// Whether a key is that of 1.
fn is_key(key: &Key) -> bool {
    match key.as_slice() {
        [Comp::Int(number)] => *number == 1,
        _ => false,
    }
}

// Whether there is one value, `ann` in column 3.
fn is_shown(shown: &Shown) -> bool {
    match shown.as_slice() {
        [(column, value)] => *column == 3 && value.as_slice() == b"ann".as_slice(),
        _ => false,
    }
}

// Whether there is one line, that one.
fn is_line(lines: &Lines) -> bool {
    match lines.as_slice() {
        [OutLine::Row(key, shown)] => is_key(key) && is_shown(shown),
        _ => false,
    }
}

#[test]
fn copies_lines(rt: HostRuntime) -> Result<(), Fail> {
    let lines = Lines::from_slice(rt.alloc(), &[line_of(rt.alloc())?])?;
    assert!(rt; is_line(&lines.copy(rt.alloc())?));
    Ok(())
}
