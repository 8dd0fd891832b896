//! Each field of an object and each link, written and read among other bytes: tests of `lsa_kinds`.

use lsa_kinds::layout::{entry, header, version};
use lsa_kinds::{Kind, fixed_size, link_get, link_put, links};
use std::process::Abort;

// The number is this one.
fn is(rt: &impl Abort, number: u64, expected: u64) {
    assert_eq!(rt; number, expected);
}

// The `width` bytes from `offset` on are `inside`, and the others are `outside`.
fn holds(rt: &impl Abort, bytes: &[u8], offset: usize, width: usize, inside: u8, outside: u8) {
    for (index, byte) in bytes.iter().enumerate() {
        if index >= offset && index - offset < width {
            assert_eq!(rt; *byte, inside, "byte {index} of the field at {offset}");
        } else {
            assert_eq!(rt; *byte, outside, "byte {index} beside the field at {offset}");
        }
    }
}

// Writes all ones among zeros and all zeros among ones.
macro_rules! written {
    ($rt:expr; $module:ident, $field:ident, $offset:literal, $width:literal, $ones:literal) => {
        let mut bytes = [0u8; 80];
        $module::$field::put(&mut bytes, $ones);
        is(&$rt, $module::$field::get(&bytes), $ones);
        holds(&$rt, &bytes, $offset, $width, 255, 0);
        let mut bytes = [255u8; 80];
        $module::$field::put(&mut bytes, 0);
        holds(&$rt, &bytes, $offset, $width, 0, 255);
    };
}

#[test]
fn header_and_version(rt: HostRuntime) {
    written!(rt; header, KindCode, 0, 1, 255);
    written!(rt; header, Size, 4, 4, 4294967295);
    written!(rt; version, Flags, 0, 1, 255);
    written!(rt; version, TombstoneDeletionTime, 4, 4, 4294967295);
    written!(rt; version, TombstoneTimestamp, 8, 8, 18446744073709551615);
    written!(rt; version, Phase, 16, 8, 18446744073709551615);
}

#[test]
fn entries(rt: HostRuntime) {
    written!(rt; entry, Flags, 0, 1, 255);
    written!(rt; entry, Balance, 1, 1, 255);
    written!(rt; entry, TombstoneAtDeletionTime, 4, 4, 4294967295);
    written!(rt; entry, TombstoneAtTimestamp, 8, 8, 18446744073709551615);
    written!(rt; entry, TombstoneGapTimestamp, 16, 8, 18446744073709551615);
    written!(rt; entry, TombstoneGapDeletionTime, 24, 4, 4294967295);
    written!(rt; entry, PositionSize, 28, 4, 4294967295);
}

#[test]
fn kinds_and_links(rt: HostRuntime) {
    let kinds = [
        (Kind::Version, 1, 4, 64),
        (Kind::RowEntry, 2, 5, 80),
        (Kind::Dummy, 3, 5, 80),
        (Kind::Static, 4, 3, 32),
    ];
    for (kind, code, count, size) in kinds {
        assert_eq!(&rt; kind.code(), code);
        assert_eq!(&rt; Kind::from_code(code), Some(kind));
        assert_eq!(&rt; links(kind), count);
        assert_eq!(&rt; fixed_size(kind), size);
        for field in 0..links(kind) {
            let mut bytes = [0u8; 80];
            link_put(kind, field, &mut bytes, u64::MAX);
            assert_eq!(&rt; link_get(kind, field, &bytes), u64::MAX);
            holds(&rt, &bytes, 8 + 8 * field, 8, 255, 0);
            let mut bytes = [255u8; 80];
            link_put(kind, field, &mut bytes, 0);
            holds(&rt, &bytes, 8 + 8 * field, 8, 0, 255);
        }
    }
    assert_eq!(&rt; Kind::from_code(0), None);
    assert_eq!(&rt; Kind::from_code(5), None);
}
