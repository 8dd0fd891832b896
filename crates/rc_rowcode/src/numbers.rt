//! Numbers and runs of bytes, at the front of bytes and at the end of a vector.

ghost use Rattle.std.specs.Prelude.{◌≡◌, ◌≤◌, ◌+◌, ◌++◌, [], ◌∷◌, length, MatchOption};
ghost use Rattle.std.specs.Option.{option_map, IfSome};
ghost use Rattle.std.specs.Vec.{vec_capacity};
ghost use Rattle.rc_rowcode.specs.Spelling.{stamp_code, time_code, length_code};
ghost use Rattle.rc_rowcode.specs.calls.Reading.{parse_stamp, parse_time, parse_length, parse_bytes};

/// The first byte, and what follows it.
pub(crate) fn byte_at(bytes: &[u8]) -> Option<(u8, &[u8])>
    ensures { MatchOption result (bytes.now ≡ []) (λ x. bytes.now ≡ x.0 ∷ x.1.now) }
{
    match bytes {
        [] => None,
        [byte, rest @ ..] => Some((*byte, rest)),
    }
}

/// The timestamp at the front, and what follows it.
#[tactic(auto, unfolding(crate::specs::calls::Reading::parse_stamp))]
pub(crate) fn stamp_at(bytes: &[u8]) -> Option<(i64, &[u8])>
    ensures { option_map (λ x. (x.0, x.1.now)) result ≡ parse_stamp bytes.now }
{
    if bytes.len() < 8 {
        return None;
    }
    let (front, rest) = bytes.split_at(8);
    let number = i64::from_le_bytes([
        front[0], front[1], front[2], front[3], front[4], front[5], front[6], front[7],
    ]);
    Some((number, rest))
}

/// The deletion time at the front, and what follows it.
#[tactic(auto, unfolding(crate::specs::calls::Reading::parse_time))]
pub(crate) fn time_at(bytes: &[u8]) -> Option<(u32, &[u8])>
    ensures { option_map (λ x. (x.0, x.1.now)) result ≡ parse_time bytes.now }
{
    if bytes.len() < 4 {
        return None;
    }
    let (front, rest) = bytes.split_at(4);
    let number = u32::from_le_bytes([front[0], front[1], front[2], front[3]]);
    Some((number, rest))
}

/// The length of a value at the front, and what follows it.
#[tactic(auto, unfolding(crate::specs::calls::Reading::parse_length))]
pub(crate) fn length_at(bytes: &[u8]) -> Option<(u16, &[u8])>
    ensures { option_map (λ x. (x.0, x.1.now)) result ≡ parse_length bytes.now }
{
    if bytes.len() < 2 {
        return None;
    }
    let (front, rest) = bytes.split_at(2);
    let number = u16::from_le_bytes([front[0], front[1]]);
    Some((number, rest))
}

/// The first `count` bytes, of which there may be at most `most`, and what follows them.
#[tactic(auto, unfolding(crate::specs::calls::Reading::parse_bytes))]
pub(crate) fn bytes_at(most: usize, count: usize, bytes: &[u8]) -> Option<(&[u8], &[u8])>
    ensures value { option_map (λ x. (x.0.now, x.1.now)) result ≡ parse_bytes most count bytes.now }
    ensures short { IfSome result (λ x. length x.0.now ≤ most) }
{
    if most < count {
        return None;
    }
    if bytes.len() < count {
        return None;
    }
    let (front, rest) = bytes.split_at(count);
    Some((front, rest))
}

/// Appends bytes for which there is room, so that no memory is taken.
pub(crate) fn append(out: &mut Vec<u8>, bytes: &[u8])
    requires { length out.old.items + length bytes.now ≤ vec_capacity out.old }
    ensures items { out.new.items ≡ out.old.items ++ bytes.now }
    ensures room { vec_capacity out.old ≤ vec_capacity out.new }
{
    let appended = out.extend_from_slice(bytes);
    prove!(appended.is_ok());
}

/// Appends a byte for which there is room, so that no memory is taken.
pub(crate) fn append_byte(out: &mut Vec<u8>, byte: u8)
    requires { length out.old.items + 1 ≤ vec_capacity out.old }
    ensures items { out.new.items ≡ out.old.items ++ byte ∷ [] }
    ensures room { vec_capacity out.old ≤ vec_capacity out.new }
{
    append(out, &[byte]);
}

/// Appends a timestamp's code, for which there is room.
#[tactic(auto, unfolding(crate::specs::Spelling::stamp_code))]
pub(crate) fn append_stamp(out: &mut Vec<u8>, ts: i64)
    requires { length out.old.items + length (stamp_code ts) ≤ vec_capacity out.old }
    ensures items { out.new.items ≡ out.old.items ++ stamp_code ts }
    ensures room { vec_capacity out.old ≤ vec_capacity out.new }
{
    append(out, &ts.to_le_bytes());
}

/// Appends a deletion time's code, for which there is room.
#[tactic(auto, unfolding(crate::specs::Spelling::time_code))]
pub(crate) fn append_time(out: &mut Vec<u8>, dt: u32)
    requires { length out.old.items + length (time_code dt) ≤ vec_capacity out.old }
    ensures items { out.new.items ≡ out.old.items ++ time_code dt }
    ensures room { vec_capacity out.old ≤ vec_capacity out.new }
{
    append(out, &dt.to_le_bytes());
}

/// Appends the code of a value's length, for which there is room.
#[tactic(auto, unfolding(crate::specs::Spelling::length_code))]
pub(crate) fn append_length(out: &mut Vec<u8>, len: u16)
    requires { length out.old.items + length (length_code len) ≤ vec_capacity out.old }
    ensures items { out.new.items ≡ out.old.items ++ length_code len }
    ensures room { vec_capacity out.old ≤ vec_capacity out.new }
{
    append(out, &len.to_le_bytes());
}
