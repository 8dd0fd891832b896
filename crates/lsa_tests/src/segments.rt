//! Segments side by side, filled, changed, copied and emptied: a test of `lsa_segment`.

use lsa_segment::Segments;
use std::process::Abort;
use std::test::Fail;

// The number is this one.
fn is(rt: &impl Abort, number: usize, expected: usize) {
    assert_eq!(rt; number, expected);
}

// The bytes are these.
fn are(rt: &impl Abort, bytes: &[u8], expected: &[u8]) {
    assert_eq!(rt; bytes, expected);
}

// Two segments side by side: one filled to its last byte, read, changed in the middle, copied into the other one and emptied.
#[test]
fn filled_to_the_last_byte(rt: HostRuntime) -> Result<(), Fail> {
    let mut segments = Segments::<64>::new(rt.alloc(), 2)?;
    let bytes = [7u8; 40];
    is(&rt, segments.room(0), 64);
    is(&rt, segments.room(1), 64);
    is(&rt, segments.push(1, &[9]), 0);
    is(&rt, segments.push(0, bytes.as_slice()), 0);
    is(&rt, segments.push(0, &bytes[..24]), 40);
    is(&rt, segments.room(0), 0);
    segments.write(0, 62, &[1, 2]);
    are(&rt, segments.lend(0, 61, 3), &[7, 1, 2]);
    is(&rt, segments.copy_into(0, 60, 4, 1), 1);
    are(&rt, segments.lend(1, 0, 5), &[9, 7, 7, 1, 2]);
    segments.clear(0);
    is(&rt, segments.room(0), 64);
    is(&rt, segments.room(1), 59);
    is(&rt, segments.push(0, &[5]), 0);
    are(&rt, segments.lend(0, 0, 1), &[5]);
    // Over the five bytes that were written before, and behind them.
    segments.clear(1);
    is(&rt, segments.push(1, &bytes[..8]), 0);
    are(&rt, segments.lend(1, 0, 8), &bytes[..8]);
    is(&rt, segments.push(1, &[3]), 8);
    are(&rt, segments.lend(1, 7, 2), &[7, 3]);
    Ok(())
}
