//! Objects of a version that are made anew.
ghost use Rattle.std.specs.Prelude.{◌≡◌, ◌≢◌, ◌+◌, ◌/◌, ◌<◌, ◌^◌, ◌≤◌, [], ◌∷◌, ◌++◌, length, Some, None};
ghost use Rattle.lsa_kinds.specs.Fields.{number_at};
ghost use Rattle.lsa_pool.specs.Room.{spare_of};
ghost use Rattle.lsa_region.specs.Objects.{rounded_size};
ghost use Rattle.lsa_region.specs.Region.{body, IsWell};
ghost use Rattle.rc_cell.specs.declared.rows.Row.{Row};
ghost use Rattle.rc_cell.specs.Winner.{joined_row};
ghost use Rattle.rc_position.specs.Position.{row_pos};
ghost use Rattle.rc_rowcode.specs.Space.{HasRoom};
ghost use Rattle.rc_rowcode.specs.Objects.{dummy_size, entry_size, static_size};
ghost use Rattle.rc_rowcode.specs.Spelling.{pos_code, row_code as code_of, IsCodedRow, KeyFits};
ghost use Rattle.rc_core.specs.declared.entries.Entry.{Entry};
ghost use Rattle.rc_core.specs.Change.{dummy, joined_onto, with_row};
ghost use Rattle.rc_core.specs.Version.{end_position};
ghost use Rattle.rc_object.specs.Objects.{HoldsEntry, HoldsRow, HoldsStatic, IsRowCode, HasRoomFor, IsMade, SpellsMarks, entry_of, entry_length};
ghost use Rattle.rc_object.specs.calls.Making.{IsEntryBegun, IsEntryBuilt};

use crate::bytes::put_marks;
use crate::entries::{marks, position_code, row_code};
use lsa_kinds::Kind;
use lsa_kinds::layout::entry::PositionSize;
use lsa_region::{Ref, Region};
use rc_core::Mark;
use rc_position::{Key, Pos};
use rc_rowcode::laws::joined_row_has_a_code;
use rc_rowcode::{Scratch, join_codes, key_size, pos_size};

/// Makes an object of this kind with these bytes behind its links.
pub(crate) fn make<const S: usize>(region: &mut Region<S>, kind: Kind, bytes: &[u8]) -> Ref
    requires fits { rounded_size kind (length bytes.now) ≤ S / 8 }
    requires spare { rounded_size kind (length bytes.now) ≤ spare_of S region.old.usages }
    requires level { kind ≢ Kind.Static → number_at 1 1 bytes.now ≡ 0 }
    ensures here { body region.new result ≡ Some (kind, bytes.now) }
    ensures made { IsMade S region.old region.new result (rounded_size kind (length bytes.now)) }
    ensures well { IsWell region.new }
{
    region.alloc_obj(kind, bytes)
}

// The bytes of an entry before its position, whose code is so long.
fn entry_front(at: Mark, gap: Mark, size: usize) -> [u8; 32]
    requires { size < 2 ^ 32 }
    ensures marks { SpellsMarks result at gap }
    ensures level { number_at 1 1 result ≡ 0 }
    ensures size { number_at 28 4 result ≡ size }
    ensures long { length result ≡ 32 }
{
    let mut bytes = [0; 32];
    put_marks(&mut bytes, at, gap);
    PositionSize::put(&mut bytes, size as u64);
    bytes
}

// Puts the bytes of an entry at the position of another one, up to its row, and nothing else.
fn begin_like<const S: usize>(region: &Region<S>, e: Ref, at: Mark, gap: Mark, sc: &mut Scratch)
    requires { (x : Entry) × HoldsEntry region.now e x × (32 + length (pos_code x.position) ≤ sc.old.size) }
    ensures begun { (x : Entry) → HoldsEntry region.now e x → IsEntryBegun sc.new.bytes x.position at gap }
    ensures size { sc.new.size ≡ sc.old.size }
{
    let code = position_code(region, e);
    sc.clear();
    sc.put(&entry_front(at, gap, code.len()));
    sc.put(code);
}

// Puts the bytes of an entry at the position of a key's row, up to its row, and nothing else. The weight of that position is 1.
fn begin_row(key: &Key, at: Mark, gap: Mark, sc: &mut Scratch)
    requires limits { KeyFits key.now }
    requires room { 32 + length (pos_code (row_pos key.now)) ≤ sc.old.size }
    ensures begun { IsEntryBegun sc.new.bytes (row_pos key.now) at gap }
    ensures size { sc.new.size ≡ sc.old.size }
{
    sc.clear();
    sc.put(&entry_front(at, gap, 1 + key_size(key)));
    sc.put(&[1]);
    sc.put_key(key);
}

// Puts the code of an entry's row with the row of this code joined to it.
fn put_joined<const S: usize>(region: &Region<S>, e: Ref, code: &[u8], sc: &mut Scratch)
    requires { (x : Entry) × (row : Row) × HoldsEntry region.now e x × IsRowCode code.now row × HasRoom sc.old (length (code_of (joined_onto x.row row))) }
    ensures joined { (x : Entry) (row : Row) → HoldsEntry region.now e x → IsRowCode code.now row → sc.new ≡ record { bytes = sc.old.bytes ++ code_of (joined_onto x.row row); size = sc.old.size } }
    ensures coded { (x : Entry) (row : Row) → HoldsEntry region.now e x → IsRowCode code.now row → IsCodedRow (joined_onto x.row row) }
{
    joined_row_has_a_code();
    match region.kind(e) {
        Kind::RowEntry => join_codes(row_code(region, e), code, sc),
        Kind::Version | Kind::Dummy | Kind::Static => sc.put(code),
    }
}

// Puts the bytes of an entry with the row of this code joined to its row, and nothing else.
fn put_joined_entry<const S: usize>(region: &Region<S>, e: Ref, code: &[u8], sc: &mut Scratch)
    requires { (x : Entry) × (row : Row) × HoldsEntry region.now e x × IsRowCode code.now row × (entry_length x.position (Some (joined_onto x.row row)) ≤ sc.old.size) }
    ensures built { (x : Entry) (row : Row) → HoldsEntry region.now e x → IsRowCode code.now row → IsEntryBuilt sc.new.bytes Kind.RowEntry (with_row row x) (entry_size x.position.prefix (joined_onto x.row row)) }
    ensures size { sc.new.size ≡ sc.old.size }
{
    let (at, gap) = marks(region, e);
    begin_like(region, e, at, gap, sc);
    put_joined(region, e, code, sc);
}

// The bytes of an end dummy, whose position has a code of two bytes: 2 and 0.
fn end_bytes(mark: Mark) -> [u8; 34]
    ensures { IsEntryBegun result end_position mark mark }
{
    let mut bytes = [0; 34];
    bytes[32] = 2;
    put_marks(&mut bytes, mark, mark);
    PositionSize::put(&mut bytes, 2);
    bytes
}

/// Makes an end dummy with this mark at it and over the gap before it, which takes 88 bytes.
pub fn make_end<const S: usize>(region: &mut Region<S>, mark: Mark) -> Ref
    requires fits { 88 ≤ S / 8 }
    requires spare { 88 ≤ spare_of S region.old.usages }
    ensures holds { HoldsEntry region.new result (dummy end_position mark) }
    ensures made { IsMade S region.old region.new result 88 }
    ensures well { IsWell region.new }
{
    make(region, Kind::Dummy, &end_bytes(mark))
}

/// Makes a dummy at a position with this mark at it and over the gap before it.
pub fn make_dummy<const S: usize>(
    region: &mut Region<S>,
    x: &Pos,
    mark: Mark,
    sc: &mut Scratch,
) -> Ref
    requires limits { KeyFits x.now.prefix }
    requires room { HasRoomFor S region.old (dummy_size x.now) sc.old.size (entry_length x.now None) }
    ensures holds { HoldsEntry region.new result (dummy x.now mark) }
    ensures made { IsMade S region.old region.new result (dummy_size x.now) }
    ensures size { sc.new.size ≡ sc.old.size }
    ensures well { IsWell region.new }
{
    sc.clear();
    sc.put(&entry_front(mark, mark, pos_size(x)));
    sc.put_pos(x);
    make(region, Kind::Dummy, sc.bytes())
}

/// Makes a dummy at the position of an entry with this mark at it and over the gap before it.
pub fn make_dummy_like<const S: usize>(
    region: &mut Region<S>,
    e: Ref,
    mark: Mark,
    sc: &mut Scratch,
) -> Ref
    requires { (x : Entry) × HoldsEntry region.old e x × HasRoomFor S region.old (dummy_size x.position) sc.old.size (entry_length x.position None) }
    ensures holds { (x : Entry) → HoldsEntry region.old e x → HoldsEntry region.new result (dummy x.position mark) }
    ensures made { (x : Entry) → HoldsEntry region.old e x → IsMade S region.old region.new result (dummy_size x.position) }
    ensures size { sc.new.size ≡ sc.old.size }
    ensures well { IsWell region.new }
{
    begin_like(region, e, mark, mark, sc);
    make(region, Kind::Dummy, sc.bytes())
}

/// Makes an entry with the row of this code at a key, with these marks.
pub fn make_row<const S: usize>(
    region: &mut Region<S>,
    key: &Key,
    code: &[u8],
    at: Mark,
    gap: Mark,
    sc: &mut Scratch,
) -> Ref
    requires limits { KeyFits key.now }
    requires row { (row : Row) × IsRowCode code.now row × HasRoomFor S region.old (entry_size key.now row) sc.old.size (entry_length (row_pos key.now) (Some row)) }
    ensures holds { (row : Row) → IsRowCode code.now row → HoldsEntry region.new result (entry_of (row_pos key.now) (Some row) at gap) }
    ensures made { (row : Row) → IsRowCode code.now row → IsMade S region.old region.new result (entry_size key.now row) }
    ensures size { sc.new.size ≡ sc.old.size }
    ensures well { IsWell region.new }
{
    begin_row(key, at, gap, sc);
    sc.put(code);
    make(region, Kind::RowEntry, sc.bytes())
}

/// Makes an entry at the position of a row entry and with its row, with these marks.
pub fn make_row_like<const S: usize>(
    region: &mut Region<S>,
    from: Ref,
    at: Mark,
    gap: Mark,
    sc: &mut Scratch,
) -> Ref
    requires { (x : Entry) × (row : Row) × HoldsEntry region.old from x × (x.row ≡ Some row) × HasRoomFor S region.old (entry_size x.position.prefix row) sc.old.size (entry_length x.position (Some row)) }
    ensures holds { (x : Entry) → HoldsEntry region.old from x → HoldsEntry region.new result (entry_of x.position x.row at gap) }
    ensures made { (x : Entry) (row : Row) → HoldsEntry region.old from x → x.row ≡ Some row → IsMade S region.old region.new result (entry_size x.position.prefix row) }
    ensures size { sc.new.size ≡ sc.old.size }
    ensures well { IsWell region.new }
{
    begin_like(region, from, at, gap, sc);
    sc.put(row_code(region, from));
    make(region, Kind::RowEntry, sc.bytes())
}

/// Makes an entry in the place of another one, with its marks, and with the row of this code joined to its row.
pub fn make_joined<const S: usize>(
    region: &mut Region<S>,
    e: Ref,
    code: &[u8],
    sc: &mut Scratch,
) -> Ref
    requires { (x : Entry) × (row : Row) × HoldsEntry region.old e x × IsRowCode code.now row × HasRoomFor S region.old (entry_size x.position.prefix (joined_onto x.row row)) sc.old.size (entry_length x.position (Some (joined_onto x.row row))) }
    ensures holds { (x : Entry) (row : Row) → HoldsEntry region.old e x → IsRowCode code.now row → HoldsEntry region.new result (with_row row x) }
    ensures made { (x : Entry) (row : Row) → HoldsEntry region.old e x → IsRowCode code.now row → IsMade S region.old region.new result (entry_size x.position.prefix (joined_onto x.row row)) }
    ensures size { sc.new.size ≡ sc.old.size }
    ensures well { IsWell region.new }
{
    put_joined_entry(region, e, code, sc);
    make(region, Kind::RowEntry, sc.bytes())
}

/// Makes an entry in the place of another one, with its marks, and with the row of a third object joined to its row.
pub fn make_joined_like<const S: usize>(
    region: &mut Region<S>,
    e: Ref,
    from: Ref,
    sc: &mut Scratch,
) -> Ref
    requires { (x : Entry) × (row : Row) × HoldsEntry region.old e x × HoldsRow region.old from row × HasRoomFor S region.old (entry_size x.position.prefix (joined_onto x.row row)) sc.old.size (entry_length x.position (Some (joined_onto x.row row))) }
    ensures holds { (x : Entry) (row : Row) → HoldsEntry region.old e x → HoldsRow region.old from row → HoldsEntry region.new result (with_row row x) }
    ensures made { (x : Entry) (row : Row) → HoldsEntry region.old e x → HoldsRow region.old from row → IsMade S region.old region.new result (entry_size x.position.prefix (joined_onto x.row row)) }
    ensures size { sc.new.size ≡ sc.old.size }
    ensures well { IsWell region.new }
{
    put_joined_entry(region, e, row_code(region, from), sc);
    make(region, Kind::RowEntry, sc.bytes())
}

/// Makes a static row of this code.
pub fn make_static<const S: usize>(region: &mut Region<S>, code: &[u8]) -> Ref
    requires { (row : Row) × IsRowCode code.now row × (static_size row ≤ S / 8) × (static_size row ≤ spare_of S region.old.usages) }
    ensures holds { (row : Row) → IsRowCode code.now row → HoldsStatic region.new result row }
    ensures made { (row : Row) → IsRowCode code.now row → IsMade S region.old region.new result (static_size row) }
    ensures well { IsWell region.new }
{
    make(region, Kind::Static, code)
}

/// Makes a static row with the row of another object.
pub fn make_static_like<const S: usize>(region: &mut Region<S>, from: Ref, sc: &mut Scratch) -> Ref
    requires { (row : Row) × HoldsRow region.old from row × HasRoomFor S region.old (static_size row) sc.old.size (length (code_of row)) }
    ensures holds { (row : Row) → HoldsRow region.old from row → HoldsStatic region.new result row }
    ensures made { (row : Row) → HoldsRow region.old from row → IsMade S region.old region.new result (static_size row) }
    ensures size { sc.new.size ≡ sc.old.size }
    ensures well { IsWell region.new }
{
    sc.clear();
    sc.put(row_code(region, from));
    make(region, Kind::Static, sc.bytes())
}

/// Makes a static row with the rows of two other objects joined.
pub fn make_joined_static<const S: usize>(
    region: &mut Region<S>,
    s: Ref,
    from: Ref,
    sc: &mut Scratch,
) -> Ref
    requires { (r : Row) × (q : Row) × HoldsRow region.old s r × HoldsRow region.old from q × HasRoomFor S region.old (static_size (joined_row (r ∷ q ∷ []))) sc.old.size (length (code_of (joined_row (r ∷ q ∷ [])))) }
    ensures holds { (r q : Row) → HoldsRow region.old s r → HoldsRow region.old from q → HoldsStatic region.new result (joined_row (r ∷ q ∷ [])) }
    ensures made { (r q : Row) → HoldsRow region.old s r → HoldsRow region.old from q → IsMade S region.old region.new result (static_size (joined_row (r ∷ q ∷ []))) }
    ensures size { sc.new.size ≡ sc.old.size }
    ensures well { IsWell region.new }
{
    joined_row_has_a_code();
    sc.clear();
    join_codes(row_code(region, s), row_code(region, from), sc);
    make(region, Kind::Static, sc.bytes())
}
