//! Flags, tombstones and marks in the bytes of objects.
ghost use Rattle.std.specs.Prelude.{◌≡◌, ◌+◌, ◌*◌, ◌^◌, ◌<◌, ◌≤◌, length, drop, Option, IfSome};
ghost use Rattle.rc_cell.specs.declared.writes.Tomb.{Tomb as TombValue};
ghost use Rattle.rc_rowcode.specs.Spelling.{IsTomb};
ghost use Rattle.rc_core.specs.declared.entries.Flag.{Flag as FlagValue};
ghost use Rattle.lsa_kinds.specs.Fields.{number_at};
ghost use Rattle.rc_object.specs.Objects.{flag_code, presence, timestamp_code, deletion_code, SpellsMarks};

use lsa_kinds::layout::entry;
use rc_cell::Tomb;
use rc_core::{Flag, Mark};
use rc_rowcode::tomb_in_range;

/// The flag of this code.
pub(crate) fn flag_from(code: u64) -> Flag
    ensures { (flag : FlagValue) → code ≡ flag_code flag → result ≡ flag }
{
    match code {
        0 => Flag::Known,
        1 => Flag::Unknown,
        _ => Flag::Inherit,
    }
}

/// The code of a flag.
pub(crate) fn flag_bits(flag: Flag) -> u64
    ensures value { result ≡ flag_code flag }
    ensures small { result ≤ 2 }
{
    match flag {
        Flag::Known => 0,
        Flag::Unknown => 1,
        Flag::Inherit => 2,
    }
}

/// The tombstone that the bit of its presence and its two fields tell.
pub(crate) fn tomb_from(present: u64, timestamp: u64, deletion: u64) -> Option<Tomb>
    requires { deletion < 2 ^ 32 }
    ensures { (tomb : Option TombValue) → IfSome tomb IsTomb → present ≡ presence tomb → timestamp ≡ timestamp_code tomb → deletion ≡ deletion_code tomb → result ≡ tomb }
{
    if present == 0 {
        return None;
    }
    Some(Tomb {
        ts: timestamp.cast_signed(),
        dt: deletion as u32,
    })
}

/// The bit that tells whether there is a tombstone, and its two fields: timestamp and deletion time.
pub(crate) fn tomb_parts(tomb: Option<Tomb>) -> (u64, u64, u64)
    ensures present { result.0 ≡ presence tomb }
    ensures bit { result.0 ≤ 1 }
    ensures timestamp { result.1 ≡ timestamp_code tomb }
    ensures deletion { result.2 ≡ deletion_code tomb }
    ensures fits { result.2 < 2 ^ 32 }
    ensures coded { IfSome tomb IsTomb }
{
    tomb_in_range(tomb);
    match tomb {
        None => (0, 0, 0),
        Some(tomb) => (1, tomb.ts.cast_unsigned(), u64::from(tomb.dt)),
    }
}

/// Writes marks into the bytes of an entry. Its balance and all from the length of its position on stay.
pub(crate) fn put_marks(bytes: &mut [u8], at: Mark, gap: Mark)
    requires { 28 ≤ length bytes.old }
    ensures marks { SpellsMarks bytes.new at gap }
    ensures level { number_at 1 1 bytes.new ≡ number_at 1 1 bytes.old }
    ensures rest { drop 28 bytes.new ≡ drop 28 bytes.old }
{
    let (at_there, at_timestamp, at_deletion) = tomb_parts(at.tomb);
    let (gap_there, gap_timestamp, gap_deletion) = tomb_parts(gap.tomb);
    let flags = flag_bits(at.flag) + 4 * flag_bits(gap.flag) + 16 * at_there + 32 * gap_there;
    entry::Flags::put(bytes, flags);
    entry::TombstoneAtDeletionTime::put(bytes, at_deletion);
    entry::TombstoneAtTimestamp::put(bytes, at_timestamp);
    entry::TombstoneGapTimestamp::put(bytes, gap_timestamp);
    entry::TombstoneGapDeletionTime::put(bytes, gap_deletion);
}
