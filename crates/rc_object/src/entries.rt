//! An entry of a version: its position, its row, and the marks at it and over the gap before it.
ghost use Rattle.std.specs.Prelude.{◌≡◌, ◌≤◌, length};
ghost use Rattle.rc_cell.specs.declared.rows.Row.{Row};
ghost use Rattle.rc_rowcode.specs.Spelling as spelling;
ghost use Rattle.rc_core.specs.declared.entries.Entry.{Entry};
ghost use Rattle.lsa_kinds.specs.Fields.{number_at};
ghost use Rattle.lsa_region.specs.Region.{body, IsWell};
ghost use Rattle.rc_object.specs.Objects.{HoldsEntry, HoldsRow, IsRewritten, IsSameButMarks, SpellsMarks, entry_of};

use crate::bytes::{flag_from, put_marks, tomb_from};
use lsa_kinds::Kind;
use lsa_kinds::layout::entry;
use lsa_region::{Ref, Region};
use rc_core::Mark;

/// The marks of an entry: at its position, and over the gap before it.
pub fn marks<const S: usize>(region: &Region<S>, e: Ref) -> (Mark, Mark)
    requires { (x : Entry) × HoldsEntry region.now e x }
    ensures { (x : Entry) → HoldsEntry region.now e x → (result.0 ≡ x.at) × (result.1 ≡ x.gap) }
{
    let bytes = region.bytes(e);
    let flags = entry::Flags::get(bytes);
    let at_timestamp = entry::TombstoneAtTimestamp::get(bytes);
    let at_deletion = entry::TombstoneAtDeletionTime::get(bytes);
    let gap_timestamp = entry::TombstoneGapTimestamp::get(bytes);
    let gap_deletion = entry::TombstoneGapDeletionTime::get(bytes);
    let at = Mark {
        flag: flag_from(flags % 4),
        tomb: tomb_from(flags / 16 % 2, at_timestamp, at_deletion),
    };
    let gap = Mark {
        flag: flag_from(flags / 4 % 4),
        tomb: tomb_from(flags / 32, gap_timestamp, gap_deletion),
    };
    (at, gap)
}

// The first bytes of an entry, with other marks.
fn marked(bytes: &[u8], at: Mark, gap: Mark) -> [u8; 28]
    requires { 28 ≤ length bytes.now }
    ensures marks { SpellsMarks result at gap }
    ensures level { number_at 1 1 result ≡ number_at 1 1 bytes.now }
    ensures long { length result ≡ 28 }
{
    let mut front = [0; 28];
    front.copy_from_slice(&bytes[..28]);
    put_marks(&mut front, at, gap);
    front
}

/// Gives an entry other marks. Its position and its row stay, and its balance.
pub fn set_marks<const S: usize>(region: &mut Region<S>, e: Ref, at: Mark, gap: Mark)
    requires { (x : Entry) × HoldsEntry region.old e x }
    ensures holds { (x : Entry) → HoldsEntry region.old e x → HoldsEntry region.new e (entry_of x.position x.row at gap) }
    ensures alike { IsSameButMarks (body region.old e) (body region.new e) }
    ensures rewritten { IsRewritten region.old region.new e }
    ensures well { IsWell region.new }
{
    let front = marked(region.bytes(e), at, gap);
    region.write(e, 0, &front);
}

/// The code of an entry's position.
pub fn position_code<const S: usize>(region: &Region<S>, e: Ref) -> &[u8]
    requires { (x : Entry) × HoldsEntry region.now e x }
    ensures { (x : Entry) → HoldsEntry region.now e x → result.now ≡ spelling.pos_code x.position }
{
    let bytes = region.bytes(e);
    let size = entry::PositionSize::get(bytes) as usize;
    &bytes[32..32 + size]
}

/// The code of the row of a row entry or a static row.
pub fn row_code<const S: usize>(region: &Region<S>, r: Ref) -> &[u8]
    requires { (row : Row) × HoldsRow region.now r row }
    ensures { (row : Row) → HoldsRow region.now r row → result.now ≡ spelling.row_code row }
{
    let bytes = region.bytes(r);
    match region.kind(r) {
        Kind::Static => bytes,
        Kind::Version | Kind::RowEntry | Kind::Dummy => {
            let size = entry::PositionSize::get(bytes) as usize;
            &bytes[32 + size..]
        }
    }
}
